//! Scripts of requests, as texts.
//!
//! A line is a request with its numbers. Blocks are told by the number of the request that got
//! them, and words by their number in the block.
//!
//! ```text
//! alloc 14000
//! free 0
//! load 0 3 31       the block, the word in it, and the value that is seen
//! store 0 3 31
//! write-back 0 3
//! fence
//! ```
ghost use Rattle.std.specs.Prelude.{Contains, IfOk};
ghost use Rattle.heap_seat.specs.Words.{IsOwnSpot};
ghost use Rattle.block_heap.specs.SeqState.{seat_of};

use crate::fixtures::{ask, at, numbers, offset_of};
use block_heap::{AllocFault, Block, HeapSeat, SeqHeap, Spot, Stopped};
use line_memory::ConstantChance;
use std::alloc::Global;
use std::test::Fail;

/// The block that the numbered request got, if it was not freed, as the heap has it.
fn held(
    heap: &SeqHeap<ConstantChance>,
    given: &[Option<Block>],
    number: usize,
) -> Result<Block, Fail>
    ensures { IfOk result (Contains (seat_of heap.now).held) }
{
    let b = given.get(number).copied().flatten().ok_or("no block")?;
    let b = heap.held_at(offset_of(b)).ok_or("not held")?;
    Ok(b)
}

/// A word of that block.
fn spot(
    heap: &SeqHeap<ConstantChance>,
    given: &[Option<Block>],
    number: usize,
    index: u64,
) -> Result<Spot, Fail>
    ensures { IfOk result (IsOwnSpot (seat_of heap.now)) }
{
    let b = held(heap, given, number)?;
    if index >= b.words {
        return Err("past the block".into());
    }
    Ok(Spot::InBlock(b, index))
}

/// Asks for a block, of which `given` has none where it is refused.
fn allocate(
    heap: &mut SeqHeap<ConstantChance>,
    given: &mut Vec<Option<Block>>,
    bytes: u64,
) -> Result<Option<Stopped>, Fail> {
    match ask(heap, bytes) {
        Ok(b) => given.push(Some(b))?,
        Err(AllocFault::Full(_)) => given.push(None)?,
        Err(AllocFault::Stopped(at)) => return Ok(Some(at)),
    }
    Ok(None)
}

/// Frees the block, which is held for sure no longer, even if the heap stops.
fn free(
    heap: &mut SeqHeap<ConstantChance>,
    given: &mut [Option<Block>],
    number: usize,
) -> Result<Option<Stopped>, Fail> {
    let b = held(heap, given, number)?;
    if let Some(slot) = given.get_mut(number) {
        *slot = None;
    }
    Ok(heap.free(b).err())
}

/// Loads a word, which has this value.
fn load(heap: &mut SeqHeap<ConstantChance>, s: Spot, wanted: u64) -> Result<Option<Stopped>, Fail>
    requires { IsOwnSpot (seat_of heap.old) s }
{
    match heap.load(s) {
        Ok(value) if value == wanted => Ok(None),
        Ok(_) => Err("another value".into()),
        Err(at) => Ok(Some(at)),
    }
}

/// Makes the request of a line, and tells where the heap stopped. `given` has the block of each
/// request, and none where it was refused or freed.
pub fn make(
    alloc: Global,
    heap: &mut SeqHeap<ConstantChance>,
    given: &mut Vec<Option<Block>>,
    line: &str,
) -> Result<Option<Stopped>, Fail> {
    let (name, rest) = line.split_once(' ').unwrap_or((line, ""));
    let numbers = numbers(alloc, rest)?;
    let (number, index, value) = (at(&numbers, 0), at(&numbers, 1), at(&numbers, 2));
    match name {
        "alloc" => allocate(heap, given, number),
        "free" => free(heap, given, number as usize),
        "load" => {
            let s = spot(heap, given, number as usize, index)?;
            load(heap, s, value)
        }
        "store" => {
            let s = spot(heap, given, number as usize, index)?;
            Ok(heap.store(s, value).err())
        }
        "write-back" => {
            let s = spot(heap, given, number as usize, index)?;
            Ok(heap.write_back(s).err())
        }
        "fence" => Ok(heap.fence().err()),
        _ => Err("no request of this name".into()),
    }
}
