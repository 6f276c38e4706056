//! What the heap gives, and what it refuses.
ghost use Rattle.std.specs.Prelude.{◌≤◌};

use crate::drains::drained;
use crate::fixtures::{ask, at, free_at, must_equal, must_hold, offset_of, opened};
use block_heap::{AllocFault, Block, Looks, SeqHeap};
use line_memory::ConstantChance;
use size_table::{SizeClass, blocks_of, size_of};
use std::alloc::{AllocError, Global};
use std::process::Abort;
use std::test::Fail;
use super_block::{LAST_CLASS, SUPERBLOCK_WORDS, WORD_BYTES};

/// Asks for so many bytes, for which the heap gives so many superblocks from this word on.
fn must_give(
    rt: &impl Abort,
    heap: &mut SeqHeap<ConstantChance>,
    bytes: u64,
    superblocks: u64,
    first_word: u64,
) {
    let words = SUPERBLOCK_WORDS.saturating_mul(superblocks);
    let wanted = Block { first_word, words };
    let given = ask(heap, bytes).ok();
    must_hold(rt, given == Some(wanted), "a block is given");
}

/// Asks for so many bytes, for which there is no room, with so many superblocks taken.
fn must_be_full(rt: &impl Abort, heap: &mut SeqHeap<ConstantChance>, bytes: u64, used: u64) {
    let looks = Looks {
        class_head: 0,
        free_head: 0,
        used,
    };
    let wanted = Err(AllocFault::Full(looks));
    must_hold(rt, ask(heap, bytes) == wanted, "there is no room");
}

/// Takes large blocks of a heap of four superblocks until there is no room, and a small one.
fn take_large(rt: &impl Abort, heap: &mut SeqHeap<ConstantChance>) -> Result<(), Fail> {
    must_give(rt, heap, 65_537, 2, 1_096);
    must_be_full(rt, heap, 131_073, 2);
    free_at(heap, 8_768)?;
    must_hold(rt, heap.held_at(8_768).is_none(), "the block was freed");
    must_give(rt, heap, 65_536, 1, 17_480);
    must_be_full(rt, heap, 65_537, 3);
    must_give(rt, heap, 14_337, 1, 25_672);
    must_be_full(rt, heap, 14_337, 4);
    let small = ask(heap, 16)?;
    let is_in_freed = 1_096 <= small.first_word && small.first_word < 17_480;
    must_hold(rt, small.words == 2 && is_in_freed, "a small block");
    Ok(())
}

#[test]
fn large_blocks_are_taken_from_those_never_taken(rt: HostRuntime) -> Result<(), Fail> {
    let mut heap = opened(rt.alloc(), 4, "", 0)?;
    take_large(&rt, &mut heap)
}

/// How many bytes a block of the class has.
fn bytes_of(class: SizeClass) -> u64 {
    size_of(class.number)
}

/// The offset of one block more of so many bytes, or `None` where there is no room.
fn next_offset(heap: &mut SeqHeap<ConstantChance>, bytes: u64) -> Result<Option<u64>, Fail> {
    match ask(heap, bytes) {
        Ok(b) => Ok(Some(offset_of(b))),
        Err(AllocFault::Full(_)) => Ok(None),
        Err(AllocFault::Stopped(at)) => Err(at.into()),
    }
}

/// Allocates in the class until there is no room, and gives the offsets of the blocks.
fn filled(
    alloc: Global,
    heap: &mut SeqHeap<ConstantChance>,
    class: SizeClass,
) -> Result<Vec<u64>, Fail> {
    let bytes = bytes_of(class);
    let mut offsets = Vec::new(alloc);
    for _ in 0..10_000 {
        let Some(offset) = next_offset(heap, bytes)? else {
            break;
        };
        offsets.push(offset)?;
    }
    Ok(offsets)
}

/// Adds the offsets of all blocks of a superblock of the class, which begins at this word.
fn push_offsets(
    offsets: &mut Vec<u64>,
    class: SizeClass,
    first_word: u64,
) -> Result<(), AllocError> {
    let bytes = bytes_of(class);
    let mut offset = first_word.wrapping_mul(WORD_BYTES);
    for _ in 0..blocks_of(class.number) {
        offsets.push(offset)?;
        offset = offset.wrapping_add(bytes);
    }
    Ok(())
}

/// The offsets of all blocks of two superblocks of the class.
fn all_offsets(alloc: Global, class: SizeClass) -> Result<Vec<u64>, AllocError> {
    let mut offsets = Vec::new(alloc);
    push_offsets(&mut offsets, class, 1_080)?;
    push_offsets(&mut offsets, class, 9_272)?;
    Ok(offsets)
}

/// Which of `count` blocks is freed as the nth: in order, backwards, or every other one first.
fn nth_freed(order: u64, nth: usize, count: usize) -> usize {
    let twice = nth.wrapping_mul(2);
    match order {
        0 => nth,
        1 => count.wrapping_sub(nth).wrapping_sub(1),
        _ if twice < count => twice,
        _ => twice.wrapping_sub(count) | 1,
    }
}

/// Frees the blocks at these offsets in the order.
fn free_all(heap: &mut SeqHeap<ConstantChance>, offsets: &[u64], order: u64) -> Result<(), Fail> {
    for nth in 0..offsets.len() {
        free_at(heap, at(offsets, nth_freed(order, nth, offsets.len())))?;
    }
    Ok(())
}

/// Asserts that these are all offsets.
fn must_be_all(
    rt: &(impl Abort + AllocGlobal),
    given: &[u64],
    all: &[u64],
) -> Result<(), AllocError> {
    let mut sorted = Vec::from_slice(rt.alloc(), given)?;
    sorted.sort()?;
    must_equal(rt, &sorted, all, "given");
    Ok(())
}

/// Frees the given blocks in the order: the heap has all of them then.
fn has_all(
    rt: &(impl Abort + AllocGlobal),
    heap: &mut SeqHeap<ConstantChance>,
    class: SizeClass,
    (given, order): (&[u64], u64),
    all: &[u64],
) -> Result<(), Fail> {
    free_all(heap, given, order)?;
    let left = drained(rt.alloc(), heap, class)?;
    must_equal(rt, &left, all, "drained");
    Ok(())
}

/// Fills a heap with blocks of the class, each of all once, and frees them in the order.
fn fill_and_free(
    rt: &(impl Abort + AllocGlobal),
    heap: &mut SeqHeap<ConstantChance>,
    class: SizeClass,
    order: u64,
    all: &[u64],
) -> Result<(), Fail> {
    let given = filled(rt.alloc(), heap, class)?;
    must_be_all(rt, &given, all)?;
    has_all(rt, heap, class, (&given, order), all)
}

/// Fills a heap of two superblocks with blocks of the class, and frees them in the order: it gives
/// each of all blocks once, and has each then.
fn gives_each_once(
    rt: &(impl Abort + AllocGlobal),
    class: SizeClass,
    order: u64,
    all: &[u64],
) -> Result<(), Fail> {
    let mut heap = opened(rt.alloc(), 2, "", order % 2)?;
    fill_and_free(rt, &mut heap, class, order, all)
}

#[test]
fn each_class_gives_every_block_once(rt: HostRuntime) -> Result<(), Fail> {
    for number in 1..=LAST_CLASS as u8 {
        let class = SizeClass::new(number);
        let all = all_offsets(rt.alloc(), class)?;
        for order in 0..3 {
            gives_each_once(&rt, class, order, &all)?;
        }
    }
    Ok(())
}

/// Takes so many blocks of a quarter of a superblock, and frees them.
fn take_and_free(
    alloc: Global,
    heap: &mut SeqHeap<ConstantChance>,
    count: u64,
) -> Result<(), Fail> {
    let mut offsets = Vec::new(alloc);
    for _ in 0..count {
        offsets.push(offset_of(ask(heap, 14_336)?))?;
    }
    for offset in &offsets {
        free_at(heap, *offset)?;
    }
    Ok(())
}

/// Whether a heap of so many superblocks, of which so many quarters were taken and freed, gives a
/// small block and then one of so many bytes.
fn answers(alloc: Global, capacity: u64, count: u64, bytes: u64) -> Result<(bool, bool), Fail>
    requires some { 1 ≤ capacity }
    requires small { capacity ≤ 4 }
{
    let mut heap = opened(alloc, capacity, "", 0)?;
    take_and_free(alloc, &mut heap, count)?;
    let gives_small = ask(&mut heap, 16).is_ok();
    Ok((gives_small, ask(&mut heap, bytes).is_ok()))
}

#[test]
fn freed_superblocks_serve_every_class_before_fresh_ones(rt: HostRuntime) -> Result<(), Fail> {
    let of_two = answers(rt.alloc(), 2, 8, 65_536)?;
    must_hold(&rt, of_two == (true, false), "none is left");
    let of_three = answers(rt.alloc(), 3, 4, 131_072)?;
    must_hold(&rt, of_three == (true, true), "two are left");
    Ok(())
}
