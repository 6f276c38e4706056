//! All free blocks of a superblock of a class go into the empty cache.
//!
//! Linearization point: the exchange of the anchor for a full one, from which on the free blocks
//! are in the seat's cache; of `false` the look at the anchor. A lost race changes nothing of the
//! heap: the try begins anew with a look at the anchor. An anchor that came back may be taken for
//! the old one: it names the first free block and how many there are, and the chain behind that is
//! read after the exchange, and not before.

ghost use Rattle.std.specs.Prelude.{◌≡◌, ℕ, [], false, IfOk, IfErr};
ghost use Rattle.core_model.specs.Guards.{MayTakeAll};
ghost use Rattle.core_model.specs.View.{of_class};
ghost use Rattle.heap_rule.specs.Seated.{IsSeatOf};
ghost use Rattle.superblock_lists.specs.Pushes.{IsClaimOf};
ghost use Rattle.seat_costs.specs.Asked.{HasAsked};
ghost use Rattle.seat_costs.specs.Costs.{one_draw, one_win};
ghost use Rattle.seat_costs.specs.Rows.{Row, Stops};
ghost use Rattle.cache_fill.specs.Takes.{TakesFree, TakesSeen, TriesFree};

use anchor_word::is_partial;
use heap_rule::{Seat, Shared};
use line_memory::{Chance, Stopped};
use seat_costs::draw;
use size_table::SizeClass;
use superblock_lists::look_anchor;

/// Takes all free blocks of a claimed superblock, if its anchor is as it was seen.
fn take_seen<C: Chance>(
    seat: &mut Seat,
    shared: &Shared,
    d: u64,
    chance: &mut C,
) -> Result<bool, Stopped>
    requires seat { IsSeatOf shared.now seat.old }
    requires may { MayTakeAll seat.old.view d }
    ensures done { IfOk result (λ won. (class : ℕ) → IsClaimOf class d seat.old.view
        → TakesSeen d class won seat.old.view seat.new.view) }
    ensures stopped { IfErr result (λ e. Stops e.step seat.old.view seat.new.view) }
    ensures row { Row (record one_win { draws = 1 }) seat.old seat.new }
    ensures asked { HasAsked C.draw_gives seat.old.view seat.new.view chance.old chance.new }
    ensures seat { IsSeatOf shared.now seat.new }
{
    draw(seat, shared, chance)?;
    Ok(seat.try_take_all(shared, d).is_ok())
}

/// Takes them in one try: none where another seat was faster, and else whether there were any to
/// be taken.
fn try_take<C: Chance>(
    seat: &mut Seat,
    shared: &Shared,
    d: u64,
    class: SizeClass,
    chance: &mut C,
) -> Result<Option<bool>, Stopped>
    requires seat { IsSeatOf shared.now seat.old }
    requires claim { IsClaimOf class.number d seat.old.view }
    requires uncached { of_class seat.old.view.caches class.number ≡ [] }
    ensures done { IfOk result (λ taken. TriesFree d class.number taken
        seat.old.view seat.new.view) }
    ensures stopped { IfErr result (λ e. Stops e.step seat.old.view seat.new.view) }
    ensures row { Row (record one_win { draws = 2 }) seat.old seat.new }
    ensures asked { HasAsked C.draw_gives seat.old.view seat.new.view chance.old chance.new }
    ensures seat { IsSeatOf shared.now seat.new }
{
    let _class = class;
    seat.recall_soundness();
    let anchor = look_anchor(seat, shared, d, chance)?;
    if !is_partial(anchor) {
        return Ok(Some(false));
    }
    if take_seen(seat, shared, d, chance)? {
        return Ok(Some(true));
    }
    Ok(None)
}

/// Takes all free blocks of a superblock that is claimed with a class, whose cache is empty: they
/// are in the cache then, and the superblock is claimed no more. False where all blocks of the
/// superblock are free: it stays claimed, and goes to the list of the free ones.
///
/// It reads the anchor, and exchanges it for a full one. The exchange is where it takes effect.
/// Where another seat gave blocks in between, the exchange is lost, nothing has changed, and it
/// begins anew with a look at the anchor.
pub fn take_free_blocks<C: Chance>(
    seat: &mut Seat,
    shared: &Shared,
    d: u64,
    class: SizeClass,
    chance: &mut C,
) -> Result<bool, Stopped>
    requires seat { IsSeatOf shared.now seat.old }
    requires claim { IsClaimOf class.number d seat.old.view }
    requires uncached { of_class seat.old.view.caches class.number ≡ [] }
    ensures taken { IfOk result (λ taken. TakesFree d class.number taken
        seat.old.view seat.new.view) }
    ensures none { IfOk result (λ taken. taken ≡ false → Row one_draw seat.old seat.new) }
    ensures stopped { IfErr result (λ e. Stops e.step seat.old.view seat.new.view) }
    ensures row { Row (record one_win { draws = 2 }) seat.old seat.new }
    ensures asked { HasAsked C.draw_gives seat.old.view seat.new.view chance.old chance.new }
    ensures seat { IsSeatOf shared.now seat.new }
{
    loop {
        if let Some(taken) = try_take(seat, shared, d, class, chance)? {
            return Ok(taken);
        }
    }
}
