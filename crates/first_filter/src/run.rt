//! A list that is built in an empty heap, what a crash leaves of it, and what recovery keeps.
ghost use Rattle.std.specs.Prelude.{◌≡◌, ◌↔◌, [], List, Contains, IfOk, slice_index};
ghost use Rattle.heap_model.specs.declared.block.Block.{Block};
ghost use Rattle.block_heap.specs.SeqState.{seat_of};
ghost use Rattle.first_filter.specs.Lists.{HoldsList, HasList};

use crate::filter::{NODE, NodeFilter, OTHER};
use crate::list::{LIST, push};
use block_heap::{SeqHeap, fixed_words_stay};
use heap_recover::{RecoverFault, Recovered, recover_with_stored_kinds};
use heap_seat::{AllocFault, HeapSeat};
use line_memory::ConstantChance;
use region_header::format_with_kinds;
use std::alloc::{AllocError, Global};
use std::test::Fail;
use super_block::{Block, ROOTS, Ready};

/// How many steps the heap may take, which is more than it does.
const BUDGET: u64 = 1_000_000;

/// An empty heap of two superblocks, whose root 0 leads to nodes.
#[tactic(auto, unfolding(heap_model::specs::Geometry::largest_capacity))]
fn open(alloc: Global) -> Result<SeqHeap<ConstantChance>, AllocError>
    ensures { IfOk result (λ heap. HoldsList (seat_of heap) []) }
{
    fixed_words_stay();
    let mut kinds = [OTHER; ROOTS as usize];
    kinds[LIST as usize] = NODE;
    let image = format_with_kinds(alloc, 2, &kinds)?;
    let heap = Ready::new(image, Vec::new(alloc));
    SeqHeap::new(alloc, heap, BUDGET, ConstantChance(0))
}

/// Builds a list of three nodes, beside a block that no root reaches.
fn build<H: HeapSeat>(heap: &mut H) -> Result<[Block; 3], AllocFault>
    requires { HoldsList (H.view heap.old) [] }
    ensures { IfOk result (λ nodes. HoldsList (H.view heap.new) nodes) }
{
    let last = push(heap, 30)?;
    let middle = push(heap, 20)?;
    heap.alloc(100)?;
    let first = push(heap, 10)?;
    Ok([first, middle, last])
}

/// What a crash leaves of the heap.
fn crash(heap: SeqHeap<ConstantChance>) -> Vec<u64>
    ensures { (nodes : List Block) → HoldsList (seat_of heap) nodes
        → HasList (slice_index result.items) nodes }
{
    heap.finish().kept
}

/// Recovers what a crash left: of an image with the list exactly its nodes are held.
fn recover(alloc: Global, image: &[u64]) -> Result<Recovered, RecoverFault>
    ensures { (nodes : List Block) → HasList (slice_index image.now) nodes
        → IfOk result (λ left. (b : Block) → Contains left.heap.held b ↔ Contains nodes b) }
{
    recover_with_stored_kinds(alloc, image, &NodeFilter)
}

/// The nodes of a list, and what recovery makes of the heap after a crash: it holds exactly these.
pub fn crash_and_recover(alloc: Global) -> Result<([Block; 3], Recovered), Fail>
    ensures { IfOk result (λ r. (b : Block) → Contains r.1.heap.held b ↔ Contains r.0 b) }
{
    let mut heap = open(alloc)?;
    let nodes = build(&mut heap)?;
    let left = recover(alloc, &crash(heap))?;
    Ok((nodes, left))
}
