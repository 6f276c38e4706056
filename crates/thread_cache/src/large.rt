//! Large blocks are held and freed: they take superblocks that were never taken, and leave them to
//! the list of the free ones.

ghost use Rattle.std.specs.Prelude.{◌≡◌, ◌<◌, ◌≤◌, ◌+◌, None, [], IfOk, OnOk, OnErr, IfErr};
ghost use Rattle.heap_model.specs.Sizes.{span_of};
ghost use Rattle.heap_rule.specs.Seated.{IsSeatOf};
ghost use Rattle.seat_costs.specs.Asked.{HasAsked};
ghost use Rattle.seat_costs.specs.Idle.{IsIdle};
ghost use Rattle.seat_costs.specs.Rows.{HoldingRow, Row, Stops, next_of};
ghost use Rattle.heap_model.specs.Geometry.{superblock_of};
ghost use Rattle.core_model.specs.Effects.{span_count};
ghost use Rattle.core_model.specs.Guards.{MaySplit};
ghost use Rattle.large_block.specs.Splits.{MayHaveSplit, down};
ghost use Rattle.thread_cache.specs.Large.{AllocatesNoLarge, HasAllocatedLarge, HasFreedLarge, HasListedAll, large_costs, large_free_costs, list_costs};

use heap_rule::{Seat, Shared};
use heap_seat::{AllocFault, Looks};
use large_block::{Superblocks, Take, hold, split, superblocks_of, take_fresh};
use line_memory::{Chance, Stopped};
use size_table::span_of;
use super_block::Block;

/// Holds a block of as many adjoining superblocks as so many bytes take, which were never taken
/// before: for requests that are too large for a class. Where there is no room for them, that is
/// answered, with the mark of taken superblocks that said so.
///
/// What the block's words are is not known. No word of a held block is stored to.
pub(crate) fn alloc_large<C: Chance>(
    seat: &mut Seat,
    shared: &Shared,
    bytes: u64,
    chance: &mut C,
) -> Result<Block, AllocFault>
    requires seat { IsSeatOf shared.now seat.old }
    requires going { seat.old.view.stopped ≡ None }
    requires idle { IsIdle seat.old.view }
    ensures allocated { IfOk result (λ block. HasAllocatedLarge (span_of bytes) block
        seat.old.view seat.new.view) }
    ensures refused { IfErr result (λ fault. AllocatesNoLarge (span_of bytes) fault
        seat.old.view seat.new.view) }
    ensures none { OnErr result (Row (large_costs (span_of bytes)) seat.old seat.new) }
    ensures drew { next_of seat.old.view < next_of seat.new.view }
    ensures row { HoldingRow (large_costs (span_of bytes)) seat.old seat.new }
    ensures asked { HasAsked C.draw_gives seat.old.view seat.new.view chance.old chance.new }
    ensures seat { IsSeatOf shared.now seat.new }
{
    let n = span_of(bytes);
    let d = match take_fresh(seat, shared, n, chance)? {
        Take::Got(d) => d,
        Take::Past { used } => {
            return Err(AllocFault::Full(Looks {
                class_head: 0,
                free_head: 0,
                used,
            }));
        }
    };
    Ok(hold(seat, shared, d, n, chance)?)
}

/// Pushes claimed superblocks on the list of the free ones, from the first to the last.
fn list_all<C: Chance>(
    seat: &mut Seat,
    shared: &Shared,
    span: Superblocks,
    chance: &mut C,
) -> Result<(), Stopped>
    requires seat { IsSeatOf shared.now seat.old }
    requires going { seat.old.view.stopped ≡ None }
    requires inside { span.first + span.count ≤ seat.old.view.setup.capacity }
    requires durable { span.first + span.count ≤ seat.old.view.floor }
    requires claimed { seat.old.view.raw ≡ down span.first span.count }
    requires no_split { seat.old.view.split ≡ [] }
    requires no_cutting { seat.old.view.cutting ≡ [] }
    ensures listed { OnOk result (HasListedAll seat.old.view seat.new.view) }
    ensures stopped { IfErr result (λ e. Stops e.step seat.old.view seat.new.view) }
    ensures row { Row (list_costs span.count) seat.old seat.new }
    ensures asked { HasAsked C.draw_gives seat.old.view seat.new.view chance.old chance.new }
    ensures seat { IsSeatOf shared.now seat.new }
{
    let _capacity = seat.capacity(shared);
    for d in span.first..span.first + span.count {
        free_list::push(seat, shared, d, chance)?;
    }
    Ok(())
}

/// Frees a held large block, and pushes its superblocks on the list of the free ones: none of them
/// is claimed then.
///
/// The block is held no more once its first ticket is drawn. A seat that stops on the way may have
/// superblocks of it that it has not pushed yet.
pub(crate) fn free_large<C: Chance>(
    seat: &mut Seat,
    shared: &Shared,
    block: Block,
    chance: &mut C,
) -> Result<(), Stopped>
    requires seat { IsSeatOf shared.now seat.old }
    requires held { MaySplit seat.old.view block.first_word }
    requires going { seat.old.view.stopped ≡ None }
    requires idle { IsIdle seat.old.view }
    ensures freed { OnOk result (HasFreedLarge
        (superblock_of seat.old.view.setup.capacity block.first_word)
        seat.old.view seat.new.view) }
    ensures may { MayHaveSplit (superblock_of seat.old.view.setup.capacity block.first_word)
        seat.old.view seat.new.view }
    ensures stopped { IfErr result (λ e. Stops e.step seat.old.view seat.new.view) }
    ensures drew { next_of seat.old.view < next_of seat.new.view }
    ensures row { let d = superblock_of seat.old.view.setup.capacity block.first_word in
        HoldingRow (large_free_costs (span_count d seat.old.view.large)) seat.old seat.new }
    ensures asked { HasAsked C.draw_gives seat.old.view seat.new.view chance.old chance.new }
    ensures seat { IsSeatOf shared.now seat.new }
{
    let span = superblocks_of(seat, shared, block.first_word);
    split(seat, shared, block, chance)?;
    list_all(seat, shared, span, chance)
}
