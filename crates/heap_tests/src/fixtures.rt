//! Heaps over recovered images, for the tests, and what they must have.
ghost use Rattle.std.specs.Prelude.{◌≤◌};

use block_heap::{AllocFault, Block, HeapSeat, SeqHeap};
use dictionary::{DictFilter, root_kinds};
use heap_recover::{RecoverFault, Recovered, recover};
use line_memory::ConstantChance;
use std::alloc::Global;
use std::process::Abort;
use std::test::Fail;
use super_block::{Ready, WORD_BYTES};
use test_images::{image_of, number};

/// More steps than any test here takes, and more tickets than it draws.
pub const MANY: u64 = 1_000_000;

/// What recovery makes of an empty image of up to four superblocks with these changes.
#[tactic(auto, unfolding(heap_model::specs::Geometry::largest_capacity))]
pub fn recovered(alloc: Global, capacity: u64, words: &str) -> Result<Ready, Fail>
    requires some { 1 ≤ capacity }
    requires small { capacity ≤ 4 }
{
    let image = image_of(alloc, capacity, words)?;
    Ok(recovery(alloc, &image)?.heap)
}

/// What recovery answers, without what it ensures of that.
fn recovery(alloc: Global, image: &[u64]) -> Result<Recovered, RecoverFault> {
    recover(alloc, image, &root_kinds(), &DictFilter)
}

/// A heap over it, whose draws give this number.
pub fn opened(
    alloc: Global,
    capacity: u64,
    words: &str,
    drawn: u64,
) -> Result<SeqHeap<ConstantChance>, Fail>
    requires some { 1 ≤ capacity }
    requires small { capacity ≤ 4 }
{
    let ready = recovered(alloc, capacity, words)?;
    Ok(SeqHeap::new(alloc, ready, MANY, ConstantChance(drawn))?)
}

/// The numbers of a text, between spaces.
pub fn numbers(alloc: Global, text: &str) -> Result<Vec<u64>, Fail> {
    let mut numbers = Vec::new(alloc);
    for word in text.split(' ') {
        push_number(&mut numbers, word)?;
    }
    Ok(numbers)
}

/// Adds the number that the word tells, if there is one.
fn push_number(numbers: &mut Vec<u64>, word: &str) -> Result<(), Fail> {
    if word.is_empty() {
        return Ok(());
    }
    numbers.push(number(word)?)?;
    Ok(())
}

/// The number at the place, or 0 behind the last.
pub fn at(numbers: &[u64], place: usize) -> u64 {
    numbers.get(place).copied().unwrap_or(0)
}

/// Where the block begins, in bytes.
pub fn offset_of(b: Block) -> u64 {
    b.first_word.wrapping_mul(WORD_BYTES)
}

/// Asks for so many bytes. What a block's request ensures is much to carry through a `match`, and
/// no test needs it.
pub fn ask(heap: &mut SeqHeap<ConstantChance>, bytes: u64) -> Result<Block, AllocFault> {
    heap.alloc(bytes)
}

/// Frees the held block that begins at the byte offset.
pub fn free_at(heap: &mut SeqHeap<ConstantChance>, offset: u64) -> Result<(), Fail> {
    let b = heap.held_at(offset).ok_or("no held block begins there")?;
    heap.free(b)?;
    Ok(())
}

/// Asserts that these numbers were found, where the text tells.
pub fn must_equal(rt: &impl Abort, found: &[u64], wanted: &[u64], told: &str) {
    assert_eq!(rt; found, wanted, "{told}");
}

/// Asserts what the text tells of. An assertion makes a long function slow to prove; a call of this
/// one does not.
pub fn must_hold(rt: &impl Abort, holds: bool, told: &str) {
    assert!(rt; holds, "{told}");
}
