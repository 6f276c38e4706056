//! A cache is flushed.

ghost use Rattle.heap_rule.specs.Seated.{IsSeatOf};
ghost use Rattle.std.specs.Prelude.{◌≡◌, ◌≢◌, ◌<◌, ◌≤◌, None, length, OnOk, IfErr};
ghost use Rattle.core_model.specs.View.{no_batch, of_class};
ghost use Rattle.heap_model.specs.Words.{anchor_state, partial_state};
ghost use Rattle.seat_costs.specs.Asked.{HasAsked};
ghost use Rattle.seat_costs.specs.Costs.{one_push};
ghost use Rattle.seat_costs.specs.Rows.{Row, Stops};
ghost use Rattle.superblock_lists.specs.Anchors.{anchor_seen};
ghost use Rattle.superblock_lists.specs.Pushes.{IsClaimOf};
ghost use Rattle.cache_flush.specs.Flushes.{HasFlushed, HasFlushedPrefix, HasListed, HasListedBy, cache_costs};

use crate::gives::give;
use crate::lifts::lift_prefix;
use anchor_word::is_partial;
use heap_rule::{Seat, Shared};
use line_memory::{Chance, Stopped};
use size_table::SizeClass;
use super_block::FREE_LIST;
use superblock_lists::{look_anchor, push_to};

/// The list that a superblock with free blocks belongs to, by its anchor: that of its class, or
/// that of the free ones.
fn list_for(class: SizeClass, anchor: u64) -> u64
    ensures partial { anchor_state anchor ≡ partial_state → result ≡ class.number }
    ensures other { anchor_state anchor ≢ partial_state → result ≡ 0 }
{
    if is_partial(anchor) {
        return class.number as u64;
    }
    FREE_LIST
}

/// Puts a superblock that is claimed with its class on the list where it belongs, by its anchor as
/// it was seen.
fn list_seen<C: Chance>(
    seat: &mut Seat,
    shared: &Shared,
    d: u64,
    class: SizeClass,
    anchor: u64,
    chance: &mut C,
) -> Result<(), Stopped>
    requires seat { IsSeatOf shared.now seat.old }
    requires claim { IsClaimOf class.number d seat.old.view }
    requires durable { d < seat.old.view.floor }
    requires seen { seat.old.view.seen_anchor ≡ anchor_seen d anchor }
    requires low { anchor_state anchor < 2 }
    ensures listed { OnOk result (HasListedBy d anchor seat.old.view seat.new.view) }
    ensures stopped { IfErr result (λ e. Stops e.step seat.old.view seat.new.view) }
    ensures row { Row (record one_push { draws = 3 }) seat.old seat.new }
    ensures asked { HasAsked C.draw_gives seat.old.view seat.new.view chance.old chance.new }
    ensures seat { IsSeatOf shared.now seat.new }
{
    seat.recall_soundness();
    let list = list_for(class, anchor);
    push_to(seat, shared, list, d, chance)
}

/// Looks at the anchor of a superblock that is claimed with its class, and puts it on the list where
/// it belongs by that.
fn list<C: Chance>(
    seat: &mut Seat,
    shared: &Shared,
    d: u64,
    class: SizeClass,
    chance: &mut C,
) -> Result<(), Stopped>
    requires seat { IsSeatOf shared.now seat.old }
    requires claim { IsClaimOf class.number d seat.old.view }
    requires durable { d < seat.old.view.floor }
    ensures listed { OnOk result (HasListed d seat.old.view seat.new.view) }
    ensures stopped { IfErr result (λ e. Stops e.step seat.old.view seat.new.view) }
    ensures row { Row (record one_push { draws = 4 }) seat.old seat.new }
    ensures asked { HasAsked C.draw_gives seat.old.view seat.new.view chance.old chance.new }
    ensures seat { IsSeatOf shared.now seat.new }
{
    seat.recall_soundness();
    let anchor = look_anchor(seat, shared, d, chance)?;
    list_seen(seat, shared, d, class, anchor, chance)
}

/// Gives the first blocks of a cache, as many as lie together in one superblock, back to that,
/// which is listed if it was not.
fn flush_prefix<C: Chance>(
    seat: &mut Seat,
    shared: &Shared,
    class: SizeClass,
    chance: &mut C,
) -> Result<(), Stopped>
    requires seat { IsSeatOf shared.now seat.old }
    requires going { seat.old.view.stopped ≡ None }
    requires some { 1 ≤ length (of_class seat.old.view.caches class.number) }
    requires no_batch { seat.old.view.batch ≡ no_batch }
    ensures flushed { OnOk result (HasFlushedPrefix class.number
        seat.old.view seat.new.view) }
    ensures stopped { IfErr result (λ e. Stops e.step seat.old.view seat.new.view) }
    ensures row { Row (cache_costs seat.old.view class.number) seat.old seat.new }
    ensures asked { HasAsked C.draw_gives seat.old.view seat.new.view chance.old chance.new }
    ensures seat { IsSeatOf shared.now seat.new }
{
    seat.recall_soundness();
    let prefix = lift_prefix(seat, shared, class, chance)?;
    if !give(seat, shared, prefix.d, class, prefix.last, chance)? {
        return Ok(());
    }
    list(seat, shared, prefix.d, class, chance)
}

/// Gives all blocks of a cache back to their superblocks.
pub fn flush<C: Chance>(
    seat: &mut Seat,
    shared: &Shared,
    class: SizeClass,
    chance: &mut C,
) -> Result<(), Stopped>
    requires seat { IsSeatOf shared.now seat.old }
    requires going { seat.old.view.stopped ≡ None }
    requires no_batch { seat.old.view.batch ≡ no_batch }
    ensures flushed { OnOk result (HasFlushed class.number seat.old.view seat.new.view) }
    ensures stopped { IfErr result (λ e. Stops e.step seat.old.view seat.new.view) }
    ensures row { Row (cache_costs seat.old.view class.number) seat.old seat.new }
    ensures asked { HasAsked C.draw_gives seat.old.view seat.new.view chance.old chance.new }
    ensures seat { IsSeatOf shared.now seat.new }
{
    seat.recall_soundness();
    loop {
        let (_, count) = seat.cache(shared, class);
        if count == 0 {
            return Ok(());
        }
        flush_prefix(seat, shared, class, chance)?;
    }
}
