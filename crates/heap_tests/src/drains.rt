//! What a drain finds in what recovery left free.
use crate::fixtures::{at, must_equal, numbers, opened};
use block_heap::SeqHeap;
use line_memory::ConstantChance;
use size_table::SizeClass;
use std::alloc::Global;
use std::process::Abort;
use std::test::Fail;
use super_block::LAST_CLASS;

/// Drains of two superblocks, in rows: the words of the image, and behind a bar the class, how many
/// blocks of it are free, and the offsets of the first and the last. Lines without a bar are
/// comments.
const DRAINS: &str = "
Block 0 of superblock 0 of class 4 is held.
used 1, info:0 4, root:8 @1080 | 4 2047 8704 139648
The free blocks of a superblock of which one is held are of no other class.
used 1, info:0 4, root:8 @1080 | 5 682 74176 139552
A superblock of which nothing is reached is free, whatever its info was.
used 2, info:0 4, info:1 20, root:8 @1080 | 4 2047 8704 139648
used 2, info:0 4, info:1 4, root:8 @1080, state 2 | 4 2047 8704 139648
One block is held in each.
used 2, info:0 4, info:1 4, root:8 @1080, root:9 @9272 | 4 2046 8704 139648
used 2, info:0 4, info:1 20, root:8 @1080, root:9 @9272 | 20 3 88512 117184
Large blocks, of both and of the first.
used 2, info:0 767, root:8 @1080 | 4 0 0 0
used 2, info:0 511, info:1 9, root:8 @1080 | 20 4 74176 117184
Nothing is held.
used 1, info:0 4 | 4 2048 8640 139648
";

/// The offsets of all free blocks of the class, in order.
pub fn drained(
    alloc: Global,
    heap: &mut SeqHeap<ConstantChance>,
    class: SizeClass,
) -> Result<Vec<u64>, Fail> {
    let mut offsets = heap.drain(alloc, class.number)?;
    offsets.sort()?;
    Ok(offsets)
}

/// The class of this number.
fn class_of(number: u64) -> Result<SizeClass, Fail> {
    if 1 <= number && number <= LAST_CLASS {
        return Ok(SizeClass::new(number as u8));
    }
    Err("no class".into())
}

/// The offsets of all free blocks of the class in a heap of these words, in order.
fn drained_of(alloc: Global, words: &str, class: SizeClass) -> Result<Vec<u64>, Fail> {
    let mut heap = opened(alloc, 2, words, 1)?;
    drained(alloc, &mut heap, class)
}

/// Asserts what the offsets of the class are, each of which is found once.
fn must_be(rt: &impl Abort, mut offsets: Vec<u64>, class: SizeClass, wanted: &[u64], words: &str) {
    let count = offsets.len();
    let last = at(&offsets, count.wrapping_sub(1));
    let found = [u64::from(class.number), count as u64, at(&offsets, 0), last];
    must_equal(rt, &found, wanted, words);
    offsets.dedup();
    must_equal(rt, &[offsets.len() as u64], &[count as u64], words);
}

/// Drains a heap of these words, where each block is found once.
fn must_drain(rt: &(impl Abort + AllocGlobal), words: &str, wanted: &str) -> Result<(), Fail> {
    let wanted = numbers(rt.alloc(), wanted)?;
    let class = class_of(at(&wanted, 0))?;
    let offsets = drained_of(rt.alloc(), words, class)?;
    must_be(rt, offsets, class, &wanted, words);
    Ok(())
}

#[test]
fn what_recovery_left_free_is_drained(rt: HostRuntime) -> Result<(), Fail> {
    for line in DRAINS.split('\n') {
        if let Some((words, wanted)) = line.split_once(" | ") {
            must_drain(&rt, words, wanted)?;
        }
    }
    Ok(())
}
