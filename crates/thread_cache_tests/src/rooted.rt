//! Roots that lead to blocks, and what recovery makes of an image: exactly the blocks are held that
//! roots lead to.

ghost use Rattle.std.specs.Prelude.{◌≡◌, ◌≤◌, IfOk, OnOk, Contains};
ghost use Rattle.thread_cache_tests.specs.Holding.{AreRootsOf, OwnsRoots};

use crate::fixtures::recovery;
use crate::holders::Halt;
use heap_recover::Recovered;
use heap_seat::{HeapSeat, Spot, persist};
use std::alloc::{AllocError, Global};
use std::test::Fail;
use super_block::{Block, ROOT_WORD, ROOTS, SUPERBLOCK_WORDS, USED_WORD, WORD_BYTES};

/// The roots below it are those of the dictionary's shards.
const FIRST_ROOT: u64 = 8;

/// How many roots a seat takes.
const MOST: usize = 8;

/// A pointer to the word 0.
const POINTER: u64 = 0x5250_0000_0000_0000;

/// The first roots of a seat, of so many seats.
pub fn roots_of(alloc: Global, number: u64, seats: u64) -> Result<Vec<u64>, AllocError>
    requires { 1 ≤ seats }
    ensures { IfOk result (λ owned. AreRootsOf number seats owned.items) }
{
    let mut owned = Vec::new(alloc);
    for root in FIRST_ROOT..ROOTS {
        if root % seats == number && owned.len() < MOST {
            owned.push(root)?;
        }
    }
    Ok(owned)
}

/// A root is stored to and made durable, and read again.
fn put_root<H: HeapSeat>(seat: &mut H, root: u64, value: u64) -> Result<(), Halt>
    requires { Contains (H.view seat.old).roots root }
    ensures held { OnOk result ((H.view seat.new).held ≡ (H.view seat.old).held) }
    ensures kept { H.keeps seat.old seat.new }
{
    persist(seat, Spot::Root(root), value)?;
    if seat.load(Spot::Root(root))? != value {
        return Err(Halt::Overwritten);
    }
    Ok(())
}

/// A root of the seat's, told by its place among these, leads to a block, or to none.
pub fn put<H: HeapSeat>(
    seat: &mut H,
    owned: &[u64],
    index: u64,
    block: Option<&Block>,
) -> Result<(), Halt>
    requires { OwnsRoots owned.now (H.view seat.old).roots }
    ensures held { OnOk result ((H.view seat.new).held ≡ (H.view seat.old).held) }
    ensures kept { H.keeps seat.old seat.new }
{
    let value = match block {
        Some(b) => POINTER.wrapping_add(b.first_word.wrapping_mul(WORD_BYTES)),
        None => 0,
    };
    match owned.get(index as usize) {
        Some(root) => put_root(seat, *root, value),
        None => Err(Halt::NoBlock),
    }
}

/// The first word of the block that the root leads to, if it leads to one.
fn led_to(image: &[u64], root: u64) -> Option<u64> {
    let word = image
        .get(ROOT_WORD.wrapping_add(root) as usize)
        .copied()
        .unwrap_or(0);
    if word == 0 {
        return None;
    }
    Some(word.wrapping_sub(POINTER) / WORD_BYTES)
}

/// The first words of the blocks that roots lead to, in order.
fn rooted(alloc: Global, image: &[u64]) -> Result<Vec<u64>, AllocError> {
    let mut first_words = Vec::new(alloc);
    for root in FIRST_ROOT..ROOTS {
        if let Some(first_word) = led_to(image, root) {
            first_words.push(first_word)?;
        }
    }
    first_words.sort()?;
    Ok(first_words)
}

/// How many superblocks blocks in order lie in, none of which is large.
fn count_superblocks(blocks: &[Block], start: u64) -> u64 {
    let mut count = 0_u64;
    let mut last = u64::MAX;
    for b in blocks {
        let d = b.first_word.wrapping_sub(start) / SUPERBLOCK_WORDS;
        if d != last {
            count = count.wrapping_add(1);
        }
        last = d;
    }
    count
}

/// Whether exactly the blocks are held that roots lead to.
fn holds_rooted(alloc: Global, image: &[u64], held: &[Block]) -> Result<bool, AllocError> {
    let first_words = rooted(alloc, image)?;
    Ok(held.iter().map(|b| &b.first_word).eq(first_words.iter()))
}

/// Whether each superblock that was taken is free or has a held block.
fn frees_others(image: &[u64], found: &Recovered) -> bool {
    let held = found.heap.held();
    let start = found.heap.geometry().start(0);
    let taken = image.get(USED_WORD as usize).copied().unwrap_or(0);
    taken == count_superblocks(held, start).wrapping_add(found.free.len() as u64)
}

/// What recovery of an image holds, which are the blocks that roots lead to; each other superblock
/// that was taken is free.
pub fn held_in(alloc: Global, image: &[u64]) -> Result<Vec<Block>, Fail> {
    let found = recovery(alloc, image)?;
    if !holds_rooted(alloc, image, found.heap.held())? || !frees_others(image, &found) {
        return Err("other blocks are held, or superblocks free".into());
    }
    Ok(Vec::from_slice(alloc, found.heap.held())?)
}
