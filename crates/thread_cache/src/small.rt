//! Blocks of a class are held and freed: they come from the seat's cache of the class, and go back
//! there.

ghost use Rattle.std.specs.Prelude.{◌≡◌, ◌<◌, ◌≤◌, ◌+◌, ◌-◌, None, length, IfOk, OnOk, OnErr, IfErr};
ghost use Rattle.heap_model.specs.Counting.{times};
ghost use Rattle.heap_model.specs.Sizes.{blocks_of};
ghost use Rattle.core_model.specs.View.{of_class};
ghost use Rattle.heap_rule.specs.Seated.{IsSeatOf};
ghost use Rattle.seat_costs.specs.Asked.{HasAsked};
ghost use Rattle.seat_costs.specs.Costs.{no_costs, one_draw};
ghost use Rattle.seat_costs.specs.Idle.{HasShortCaches, IsIdle};
ghost use Rattle.seat_costs.specs.Rows.{HoldingRow, Row, RowBut, SameLooks, Stops, StoringRow, next_of};
ghost use Rattle.cache_fill.specs.Refills.{IsFilledInOrder};
ghost use Rattle.thread_cache.specs.Small.{AllocatesNone, HasAllocated, HasCached, HasFreed, HasWay, IfGoing, IsHeldOutside, MayHoldLess, alloc_costs, block_of, free_costs, light_alloc};

use cache_fill::{Filling, refill};
use cache_flush::flush;
use core_model::Shift;
use heap_rule::{Seat, Shared};
use heap_seat::AllocFault;
use line_memory::{Chance, Stopped};
use seat_costs::{draw, draw_with};
use size_table::{SizeClass, blocks_of};
use super_block::{Block, block_words};

/// Holds the first block of the cache of a class, which it answers.
fn alloc_cached<C: Chance>(
    seat: &mut Seat,
    shared: &Shared,
    class: SizeClass,
    chance: &mut C,
) -> Result<Block, Stopped>
    requires seat { IsSeatOf shared.now seat.old }
    requires going { seat.old.view.stopped ≡ None }
    requires cached { 1 ≤ length (of_class seat.old.view.caches class.number) }
    requires most { length (of_class seat.old.view.caches class.number)
        ≤ blocks_of class.number }
    ensures allocated { IfOk result (λ block. HasAllocated class.number block
        seat.old.view seat.new.view) }
    ensures stopped { IfErr result (λ e. Stops e.step seat.old.view seat.new.view) }
    ensures none { OnErr result (Row one_draw seat.old seat.new) }
    ensures drew { next_of seat.old.view < next_of seat.new.view }
    ensures looks { OnOk result (SameLooks seat.old.view seat.new.view) }
    ensures row { HoldingRow one_draw seat.old seat.new }
    ensures asked { HasAsked C.draw_gives seat.old.view seat.new.view chance.old chance.new }
    ensures seat { IsSeatOf shared.now seat.new }
{
    seat.recall_soundness();
    let (first_word, _) = seat.cache(shared, class);
    let shift = Shift::Alloc {
        class: class.number as u64,
    };
    draw_with(seat, shared, Some(shift), chance)?;
    Ok(Block {
        first_word,
        words: block_words(class),
    })
}

/// Holds a free block of a class: the first one of the seat's cache, which is filled if it is empty.
/// Where there is none to fill it with, that is answered, with the looks that said so.
///
/// What the block's words are is not known. No word of a held block is stored to.
pub(crate) fn alloc_small<C: Chance>(
    seat: &mut Seat,
    shared: &Shared,
    class: SizeClass,
    chance: &mut C,
) -> Result<Block, AllocFault>
    requires seat { IsSeatOf shared.now seat.old }
    requires going { seat.old.view.stopped ≡ None }
    requires idle { IsIdle seat.old.view }
    requires short { HasShortCaches seat.old.view }
    ensures allocated { IfOk result (λ block. HasAllocated class.number block
        seat.old.view seat.new.view) }
    ensures refused { IfErr result (λ fault. AllocatesNone class.number fault
        seat.old.view seat.new.view) }
    ensures none { OnErr result
        (Row (alloc_costs class.number (seat.new.view.moves - seat.old.view.moves))
        seat.old seat.new) }
    ensures order { IfGoing result (IsFilledInOrder class.number
        seat.old.view seat.new.view) }
    ensures cached { 1 ≤ length (of_class seat.old.view.caches class.number)
        → HoldingRow one_draw seat.old seat.new }
    ensures drew { next_of seat.old.view < next_of seat.new.view }
    ensures light { IfGoing result (seat.new.view.cuts ≡ seat.old.view.cuts
        → HoldingRow (light_alloc (seat.new.view.moves - seat.old.view.moves))
        seat.old seat.new) }
    ensures row { HoldingRow
        (alloc_costs class.number (seat.new.view.moves - seat.old.view.moves))
        seat.old seat.new }
    ensures asked { HasAsked C.draw_gives seat.old.view seat.new.view chance.old chance.new }
    ensures seat { IsSeatOf shared.now seat.new }
{
    seat.recall_soundness();
    let (_, count) = seat.cache(shared, class);
    if count > 0 {
        let block = alloc_cached(seat, shared, class, chance)?;
        return Ok(block);
    }
    match refill(seat, shared, class, chance)? {
        Filling::Full(looks) => Err(AllocFault::Full(looks)),
        Filling::Filled => {
            let block = alloc_cached(seat, shared, class, chance)?;
            Ok(block)
        }
    }
}

/// The first word of a held block leads to the first block of the cache of its class, where there
/// is one.
fn lead_to_cache<C: Chance>(
    seat: &mut Seat,
    shared: &Shared,
    block: u64,
    class: SizeClass,
    chance: &mut C,
) -> Result<(), Stopped>
    requires seat { IsSeatOf shared.now seat.old }
    requires held { 0 < times block (of_class seat.old.view.small class.number) }
    ensures way { OnOk result (HasWay block class.number seat.old.view seat.new.view) }
    ensures stopped { IfErr result (λ e. Stops e.step seat.old.view seat.new.view) }
    ensures row { StoringRow block one_draw seat.old seat.new }
    ensures asked { HasAsked C.draw_gives seat.old.view seat.new.view chance.old chance.new }
    ensures seat { IsSeatOf shared.now seat.new }
{
    seat.recall_soundness();
    draw(seat, shared, chance)?;
    let (first, count) = seat.cache(shared, class);
    if count == 0 {
        return Ok(());
    }
    seat.store_word(shared, block, first);
    Ok(())
}

/// Puts a held block before the others of the cache of its class.
fn free_cached<C: Chance>(
    seat: &mut Seat,
    shared: &Shared,
    block: u64,
    class: SizeClass,
    chance: &mut C,
) -> Result<(), Stopped>
    requires seat { IsSeatOf shared.now seat.old }
    requires held { 0 < times block (of_class seat.old.view.small class.number) }
    ensures cached { OnOk result (HasCached block class.number seat.old.view seat.new.view) }
    ensures may { MayHoldLess block class.number seat.old.view seat.new.view }
    ensures stopped { IfErr result (λ e. Stops e.step seat.old.view seat.new.view) }
    ensures drew { seat.old.view.stopped ≡ None → next_of seat.old.view < next_of seat.new.view }
    ensures row { RowBut (IsHeldOutside seat.old.view (block_of class.number block))
        (record no_costs { draws = 2 }) seat.old seat.new }
    ensures asked { HasAsked C.draw_gives seat.old.view seat.new.view chance.old chance.new }
    ensures seat { IsSeatOf shared.now seat.new }
{
    seat.recall_soundness();
    lead_to_cache(seat, shared, block, class, chance)?;
    draw_with(seat, shared, Some(Shift::Free { block }), chance)
}

/// Frees a held block of a class: it goes before the others of the cache of the class, which is
/// flushed once it has as many blocks as a superblock.
///
/// Where the seat stops, the block may be held still, but its words may be others. No word outside
/// it that is held is stored to.
pub(crate) fn free_small<C: Chance>(
    seat: &mut Seat,
    shared: &Shared,
    block: u64,
    class: SizeClass,
    chance: &mut C,
) -> Result<(), Stopped>
    requires seat { IsSeatOf shared.now seat.old }
    requires held { 0 < times block (of_class seat.old.view.small class.number) }
    requires going { seat.old.view.stopped ≡ None }
    requires idle { IsIdle seat.old.view }
    requires short { HasShortCaches seat.old.view }
    ensures freed { OnOk result (HasFreed block class.number seat.old.view seat.new.view) }
    ensures may { MayHoldLess block class.number seat.old.view seat.new.view }
    ensures stopped { IfErr result (λ e. Stops e.step seat.old.view seat.new.view) }
    ensures drew { next_of seat.old.view < next_of seat.new.view }
    ensures light { length (of_class seat.old.view.caches class.number) + 1
        < blocks_of class.number
        → RowBut (IsHeldOutside seat.old.view (block_of class.number block))
        (record no_costs { draws = 2 }) seat.old seat.new }
    ensures row { RowBut (IsHeldOutside seat.old.view (block_of class.number block))
        (free_costs (blocks_of class.number)) seat.old seat.new }
    ensures asked { HasAsked C.draw_gives seat.old.view seat.new.view chance.old chance.new }
    ensures seat { IsSeatOf shared.now seat.new }
{
    seat.recall_soundness();
    free_cached(seat, shared, block, class, chance)?;
    let (_, count) = seat.cache(shared, class);
    if count < blocks_of(class.number) {
        return Ok(());
    }
    flush(seat, shared, class, chance)
}
