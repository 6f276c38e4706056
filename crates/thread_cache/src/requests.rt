//! Requests of any size, and the freeing of any block.

ghost use Rattle.std.specs.Prelude.{◌≡◌, ◌<◌, ◌≤◌, ◌-◌, ℕ, None, length, OnOk, OnErr, IfErr};
ghost use Rattle.core_model.specs.Held.{IsHeld};
ghost use Rattle.heap_model.specs.Sizes.{IsLeastClassFor};
ghost use Rattle.core_model.specs.View.{of_class};
ghost use Rattle.heap_rule.specs.Seated.{IsSeatOf};
ghost use Rattle.seat_costs.specs.Asked.{HasAsked};
ghost use Rattle.seat_costs.specs.Costs.{one_draw};
ghost use Rattle.seat_costs.specs.Idle.{HasShortCaches, IsIdle};
ghost use Rattle.seat_costs.specs.Rows.{HoldingRow, Row, RowBut, Stops, next_of};
ghost use Rattle.cache_fill.specs.Refills.{IsFilledInOrder};
ghost use Rattle.thread_cache.specs.Requests.{Answers, IsGivenBack, MayBeGivenBack, light_free_costs, light_request, most_free_costs, request_costs};
ghost use Rattle.thread_cache.specs.Small.{IfGoing, IsHeldOutside};

use crate::large::{alloc_large, free_large};
use crate::small::{alloc_small, free_small};
use heap_rule::{Seat, Shared};
use heap_seat::AllocFault;
use line_memory::{Chance, Stopped};
use size_table::SizeClass;
use super_block::{Block, WORD_BYTES};

/// Holds a block of at least so many bytes: of the least class that has such, or of superblocks of
/// its own. Where there is none, that is answered, with the looks that said so.
///
/// What the block's words are is not known. No word of a held block is stored to.
pub(crate) fn alloc<C: Chance>(
    seat: &mut Seat,
    shared: &Shared,
    bytes: u64,
    chance: &mut C,
) -> Result<Block, AllocFault>
    requires seat { IsSeatOf shared.now seat.old }
    requires going { seat.old.view.stopped ≡ None }
    requires idle { IsIdle seat.old.view }
    requires short { HasShortCaches seat.old.view }
    ensures answers { Answers bytes result seat.old.view seat.new.view }
    ensures none { OnErr result
        (Row (request_costs bytes (seat.new.view.moves - seat.old.view.moves))
        seat.old seat.new) }
    ensures order { IfGoing result ((class : ℕ) → IsLeastClassFor bytes class
        → IsFilledInOrder class seat.old.view seat.new.view) }
    ensures cached { (class : ℕ) → IsLeastClassFor bytes class
        → 1 ≤ length (of_class seat.old.view.caches class)
        → HoldingRow one_draw seat.old seat.new }
    ensures drew { next_of seat.old.view < next_of seat.new.view }
    ensures light { IfGoing result (seat.new.view.cuts ≡ seat.old.view.cuts
        → HoldingRow (light_request bytes (seat.new.view.moves - seat.old.view.moves))
        seat.old seat.new) }
    ensures row { HoldingRow
        (request_costs bytes (seat.new.view.moves - seat.old.view.moves))
        seat.old seat.new }
    ensures asked { HasAsked C.draw_gives seat.old.view seat.new.view chance.old chance.new }
    ensures seat { IsSeatOf shared.now seat.new }
{
    match SizeClass::for_bytes(bytes) {
        Some(class) => alloc_small(seat, shared, class, chance),
        None => alloc_large(seat, shared, bytes, chance),
    }
}

/// Frees a held block: one of a class goes into the seat's cache, and the superblocks of a large one
/// are pushed on the list of the free ones.
///
/// Where the seat stops, the block may be held still, but its words may be others. No word outside
/// it that is held is stored to.
pub(crate) fn free<C: Chance>(
    seat: &mut Seat,
    shared: &Shared,
    block: Block,
    chance: &mut C,
) -> Result<(), Stopped>
    requires seat { IsSeatOf shared.now seat.old }
    requires held { IsHeld seat.old.view block }
    requires going { seat.old.view.stopped ≡ None }
    requires idle { IsIdle seat.old.view }
    requires short { HasShortCaches seat.old.view }
    ensures freed { OnOk result (IsGivenBack block seat.old.view seat.new.view) }
    ensures may { MayBeGivenBack block seat.old.view seat.new.view }
    ensures stopped { IfErr result (λ e. Stops e.step seat.old.view seat.new.view) }
    ensures drew { next_of seat.old.view < next_of seat.new.view }
    ensures light { OnOk result (seat.new.view.gives ≡ seat.old.view.gives
        → seat.new.view.large ≡ seat.old.view.large
        → RowBut (IsHeldOutside seat.old.view block) light_free_costs seat.old seat.new) }
    ensures row { RowBut (IsHeldOutside seat.old.view block) most_free_costs seat.old seat.new }
    ensures asked { HasAsked C.draw_gives seat.old.view seat.new.view chance.old chance.new }
    ensures seat { IsSeatOf shared.now seat.new }
{
    seat.recall_soundness();
    match SizeClass::for_bytes(WORD_BYTES * block.words) {
        Some(class) => free_small(seat, shared, block.first_word, class, chance),
        None => free_large(seat, shared, block, chance),
    }
}
