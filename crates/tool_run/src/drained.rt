//! Drains a class of a recovered heap.
ghost use Rattle.std.specs.Prelude.{IfOk};
ghost use Rattle.tool_run.specs.Recovering.{IsDrainableAtRest, AreGiven};

use block_heap::{Chance, DrainFault, SeqHeap};
use image_run::MOST_BUDGET;
use size_table::SizeClass;
use std::alloc::{AllocError, Global};
use super_block::Ready;

/// The offsets of the blocks that the class of a heap gives until nothing is left, in the order in
/// which it gives them. They are the same whatever the chance settles early. Draining a class takes
/// less than the greatest budget.
pub fn drain_heap<C: Chance>(
    alloc: Global,
    heap: Ready,
    class: SizeClass,
    chance: C,
) -> Result<Vec<u64>, AllocError>
    requires { IsDrainableAtRest heap.words heap.held class.number }
    ensures { IfOk result (λ offsets. AreGiven heap.words heap.held class.number offsets.items) }
{
    let mut heap = SeqHeap::new(alloc, heap, MOST_BUDGET, chance)?;
    match heap.drain(alloc, class.number) {
        Ok(offsets) => Ok(offsets),
        Err(DrainFault::Memory) => Err(AllocError),
        Err(DrainFault::Stopped(_)) => unreachable!(),
    }
}
