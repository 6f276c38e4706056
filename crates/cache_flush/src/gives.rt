//! A batch goes back to its superblock.
//!
//! Linearization point: the exchange of the anchor, from which on the blocks are the superblock's
//! and no seat's. A lost race changes nothing of the heap: the give begins anew with a look at the
//! anchor, and links the batch's last block by that. An anchor that came back may be taken for the
//! old one: it names the first free block and how many there are, and the new anchor and the link
//! depend on these alone.

ghost use Rattle.heap_rule.specs.Seated.{IsSeatOf};
ghost use Rattle.std.specs.Prelude.{◌≡◌, IfOk, OnOk, IfErr};
ghost use Rattle.heap_rule.specs.Shown.{CanGive};
ghost use Rattle.seat_costs.specs.Asked.{HasAsked};
ghost use Rattle.seat_costs.specs.Costs.{one_draw, one_give};
ghost use Rattle.seat_costs.specs.Rows.{Row, Stops};
ghost use Rattle.superblock_lists.specs.Anchors.{anchor_seen};
ghost use Rattle.cache_flush.specs.Gives.{Gives, GivesSeen, HasGiven, HasLinkedLast, IsBatchOf};

use heap_rule::{Seat, Shared};
use line_memory::{Chance, Stopped};
use seat_costs::{draw, draw_and_store};
use seat_state::{anchor_after_take_all, first_free};
use size_table::SizeClass;
use super_block::Geometry;
use superblock_lists::look_anchor;

/// The last block of the batch leads to another block.
fn link_last<C: Chance>(
    seat: &mut Seat,
    shared: &Shared,
    d: u64,
    class: SizeClass,
    last: u64,
    first: u64,
    chance: &mut C,
) -> Result<(), Stopped>
    requires seat { IsSeatOf shared.now seat.old }
    requires batch { IsBatchOf d class.number last seat.old.view }
    ensures linked { OnOk result (HasLinkedLast last first seat.old.view seat.new.view) }
    ensures stopped { IfErr result (λ e. Stops e.step seat.old.view seat.new.view) }
    ensures row { Row one_draw seat.old seat.new }
    ensures asked { HasAsked C.draw_gives seat.old.view seat.new.view chance.old chance.new }
    ensures seat { IsSeatOf shared.now seat.new }
{
    let _batch = (d, class);
    seat.recall_soundness();
    draw_and_store(seat, shared, last, first, chance)
}

/// Gives a batch whose superblock's anchor was seen.
fn give_seen<C: Chance>(
    seat: &mut Seat,
    shared: &Shared,
    d: u64,
    chance: &mut C,
) -> Result<bool, Stopped>
    requires seat { IsSeatOf shared.now seat.old }
    requires can { CanGive seat.old.view d }
    ensures done { IfOk result (λ won. GivesSeen d won seat.old.view seat.new.view) }
    ensures stopped { IfErr result (λ e. Stops e.step seat.old.view seat.new.view) }
    ensures row { Row (record one_give { draws = 1 }) seat.old seat.new }
    ensures asked { HasAsked C.draw_gives seat.old.view seat.new.view chance.old chance.new }
    ensures seat { IsSeatOf shared.now seat.new }
{
    seat.recall_soundness();
    draw(seat, shared, chance)?;
    Ok(seat.try_give(shared, d).is_ok())
}

/// Gives a batch whose superblock's anchor was seen, whatever it says: none where another seat was
/// faster, and else whether no block was free before.
fn give_looked<C: Chance>(
    seat: &mut Seat,
    shared: &Shared,
    d: u64,
    class: SizeClass,
    last: u64,
    anchor: u64,
    chance: &mut C,
) -> Result<Option<bool>, Stopped>
    requires seat { IsSeatOf shared.now seat.old }
    requires batch { IsBatchOf d class.number last seat.old.view }
    requires sees { seat.old.view.seen_anchor ≡ anchor_seen d anchor }
    ensures given { IfOk result (λ answer. Gives d class.number 2 answer
        seat.old.view seat.new.view) }
    ensures stopped { IfErr result (λ e. Stops e.step seat.old.view seat.new.view) }
    ensures row { Row (record one_give { draws = 2 }) seat.old seat.new }
    ensures asked { HasAsked C.draw_gives seat.old.view seat.new.view chance.old chance.new }
    ensures seat { IsSeatOf shared.now seat.new }
{
    seat.recall_soundness();
    if anchor == anchor_after_take_all() {
        if give_seen(seat, shared, d, chance)? {
            return Ok(Some(true));
        }
        return Ok(None);
    }
    let geometry = Geometry::new(seat.capacity(shared));
    let first = first_free(geometry, d, class, anchor);
    link_last(seat, shared, d, class, last, first, chance)?;
    if give_seen(seat, shared, d, chance)? {
        return Ok(Some(false));
    }
    Ok(None)
}

/// Gives the batch, in one try.
fn try_give<C: Chance>(
    seat: &mut Seat,
    shared: &Shared,
    d: u64,
    class: SizeClass,
    last: u64,
    chance: &mut C,
) -> Result<Option<bool>, Stopped>
    requires seat { IsSeatOf shared.now seat.old }
    requires batch { IsBatchOf d class.number last seat.old.view }
    ensures given { IfOk result (λ answer. Gives d class.number 3 answer
        seat.old.view seat.new.view) }
    ensures stopped { IfErr result (λ e. Stops e.step seat.old.view seat.new.view) }
    ensures row { Row (record one_give { draws = 3 }) seat.old seat.new }
    ensures asked { HasAsked C.draw_gives seat.old.view seat.new.view chance.old chance.new }
    ensures seat { IsSeatOf shared.now seat.new }
{
    let anchor = look_anchor(seat, shared, d, chance)?;
    give_looked(seat, shared, d, class, last, anchor, chance)
}

/// Gives the batch back to its superblock, and says whether no block of that was free before: the
/// superblock is claimed with its class then.
pub fn give<C: Chance>(
    seat: &mut Seat,
    shared: &Shared,
    d: u64,
    class: SizeClass,
    last: u64,
    chance: &mut C,
) -> Result<bool, Stopped>
    requires seat { IsSeatOf shared.now seat.old }
    requires batch { IsBatchOf d class.number last seat.old.view }
    ensures given { IfOk result (λ full. HasGiven d class.number full
        seat.old.view seat.new.view) }
    ensures stopped { IfErr result (λ e. Stops e.step seat.old.view seat.new.view) }
    ensures row { Row (record one_give { draws = 3 }) seat.old seat.new }
    ensures asked { HasAsked C.draw_gives seat.old.view seat.new.view chance.old chance.new }
    ensures seat { IsSeatOf shared.now seat.new }
{
    loop {
        if let Some(full) = try_give(seat, shared, d, class, last, chance)? {
            return Ok(full);
        }
    }
}
