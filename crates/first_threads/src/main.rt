//! The first user of the shared heap: two threads build a chain of blocks each, and recovery of what
//! they leave keeps both.
#![tactic(auto)]

mod chain;
mod threads;

use mixed_trace::recover_conservatively;
use region_header::format;
use std::test::Fail;
use super_block::Block;
use threads::{Chain, run};

/// How many superblocks the heap has: a thread takes three, one for small blocks and two for a large
/// one.
const CAPACITY: u64 = 8;

/// Tells how many words each block of a thread has.
fn tell_chain(rt: &HostRuntime, number: u64, chain: &Chain) -> Result<(), Fail> {
    let [first, second, large] = chain;
    println!(rt;
        "thread {number} holds blocks of {}, {} and {} words",
        first.words, second.words, large.words,
    )?;
    Ok(())
}

/// How many blocks, which stand in order of offset, have a word in common with the next one.
fn count_overlaps(blocks: &[Block]) -> usize {
    blocks
        .iter()
        .zip(blocks.iter().skip(1))
        .filter(|(a, b)| a.first_word.saturating_add(a.words) > b.first_word)
        .count()
}

/// Tells what recovery keeps of an image, and how many of these blocks the threads hold.
fn tell_recovered(rt: &HostRuntime, image: &[u64], one: &Chain, other: &Chain) -> Result<(), Fail> {
    let left = recover_conservatively(rt.alloc(), image)?;
    let kept = left.heap.held();
    let theirs = kept
        .iter()
        .filter(|b| one.contains(b) || other.contains(b))
        .count();
    println!(rt;
        "recovery keeps {} blocks, {theirs} of them theirs",
        kept.len()
    )?;
    println!(rt; "overlaps: {}", count_overlaps(kept))?;
    Ok(())
}

#[tactic(auto, unfolding(heap_model::specs::Geometry::largest_capacity))]
fn main(rt: HostRuntime) -> Result<(), Fail> {
    let alloc = rt.alloc();
    let image = format(alloc, CAPACITY)?;
    let heap = recover_conservatively(alloc, &image)?.heap;
    let left = run(&rt, alloc, heap)?;
    let one = left.one?;
    let other = left.other?;
    tell_chain(&rt, 1, &one)?;
    tell_chain(&rt, 2, &other)?;
    tell_recovered(&rt, &left.image, &one, &other)
}
