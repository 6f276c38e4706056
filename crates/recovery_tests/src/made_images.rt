//! Superblocks of every class and images of every size recovered, with chains of held blocks that
//! are made here.
ghost use Rattle.std.specs.Prelude.{◌≤◌};

use crate::asserts::must_hold;
use crate::images::recovered;
use crate::rest_check::{is_at_rest, start};
use crate::words::write;
use size_table::{SizeClass, blocks_of};
use std::alloc::AllocError;
use std::process::Abort;
use std::test::Fail;
use super_block::{LAST_CLASS, block_words};
use test_images::{image_of, info_word};

/// Recovers a clean image of so many superblocks, all of them taken, with these words, to a heap at
/// rest, and answers how many blocks are held.
#[tactic(auto, unfolding(heap_model::specs::Geometry::largest_capacity))]
fn held_at_rest(
    rt: &(impl Abort + AllocGlobal),
    capacity: u64,
    words: &[(usize, u64)],
) -> Result<usize, Fail>
    requires some { 1 ≤ capacity }
    requires small { capacity ≤ 257 }
{
    let mut image = image_of(rt.alloc(), capacity, "kind:0 2")?;
    write(&mut image, &[(8, capacity)]);
    write(&mut image, words);
    let found = recovered(rt.alloc(), &image)??;
    must_hold(rt, is_at_rest(&found), "at rest");
    Ok(found.heap.held().len())
}

/// Adds words that take each superblock for the class.
fn take_all(
    words: &mut Vec<(usize, u64)>,
    capacity: u64,
    class: SizeClass,
) -> Result<(), AllocError> {
    for d in 0..capacity {
        words.push((info_word(d) as usize, u64::from(class.number)))?;
    }
    Ok(())
}

/// Adds words that hold blocks of the class in the superblock that begins at the word: block `first`
/// and those `step` apart behind it, linked one to the next, the first from the word `link`. It
/// answers where the last one begins.
fn chain(
    words: &mut Vec<(usize, u64)>,
    mut link: u64,
    begin: u64,
    class: SizeClass,
    first: u64,
    step: u64,
) -> Result<u64, AllocError> {
    let mut index = first;
    for _ in 0..blocks_of(class.number) {
        if index < blocks_of(class.number) {
            let at = begin.wrapping_add(index.wrapping_mul(block_words(class)));
            let pointer = at.wrapping_mul(8).wrapping_add(0x5250_0000_0000_0000);
            words.push((link as usize, pointer))?;
            link = at;
        }
        index = index.wrapping_add(step);
    }
    Ok(link)
}

/// Adds words that hold such blocks of the first superblocks, from root 0 on.
fn chain_all(
    words: &mut Vec<(usize, u64)>,
    capacity: u64,
    superblocks: u64,
    class: SizeClass,
    first: u64,
    step: u64,
) -> Result<(), AllocError> {
    let mut link = 40;
    for d in 0..superblocks {
        link = chain(words, link, start(capacity, d), class, first, step)?;
    }
    Ok(())
}

/// Recovers superblocks that are all taken for the class, with such blocks of the first ones held:
/// how many these are.
fn held_of_chained(
    rt: &(impl Abort + AllocGlobal),
    capacity: u64,
    superblocks: u64,
    class: SizeClass,
    first: u64,
    step: u64,
) -> Result<usize, Fail>
    requires some { 1 ≤ capacity }
    requires small { capacity ≤ 257 }
{
    let mut words = Vec::new(rt.alloc());
    take_all(&mut words, capacity, class)?;
    chain_all(&mut words, capacity, superblocks, class, first, step)?;
    let held = held_at_rest(rt, capacity, &words)?;
    let chained = words.len().wrapping_sub(capacity as usize);
    must_hold(rt, held == chained, "each is held");
    Ok(held)
}

/// Recovers two superblocks of the class in which some of the blocks are held.
fn recover_class(rt: &(impl Abort + AllocGlobal), class: SizeClass) -> Result<(), Fail> {
    let last = blocks_of(class.number).wrapping_sub(1);
    for (superblocks, first, step) in [
        (1, 0, 5_000),
        (1, last, 5_000),
        (1, last / 2, 5_000),
        (1, 0, 1),
        (1, 0, 2),
        (2, 0, 1),
        (2, 1, 3),
        (0, 0, 1),
    ] {
        held_of_chained(rt, 2, superblocks, class, first, step)?;
    }
    Ok(())
}

#[test]
fn superblocks_of_every_class_are_left_at_rest(rt: HostRuntime) -> Result<(), Fail> {
    for number in 1..=LAST_CLASS as u8 {
        recover_class(&rt, SizeClass::new(number))?;
    }
    Ok(())
}

#[test]
fn images_of_every_size_are_left_at_rest(rt: HostRuntime) -> Result<(), Fail> {
    let smallest = held_of_chained(&rt, 1, 1, SizeClass::new(20), 0, 1)?;
    must_hold(&rt, smallest == 4, "the smallest");
    let large = held_of_chained(&rt, 257, 256, SizeClass::new(12), 0, 3)?;
    must_hold(
        &rt,
        large == 5_632,
        "more superblocks than the old version has",
    );
    let longest = held_of_chained(&rt, 31, 30, SizeClass::new(2), 0, 1)?;
    must_hold(&rt, longest == 61_440, "the longest chain");
    Ok(())
}

/// Of three superblocks, the last has not been taken. The second block that is reached leads to
/// itself.
const NAMED: [(usize, u64); 6] = [
    (8, 2),
    (1_064, 12),
    (1_072, 2),
    (40, 0x5250_0000_0000_2200),
    (1_088, 0x5250_0000_0001_2200),
    (9_280, 0x5250_0000_0001_2200),
];

/// Adds words that are all set.
fn push_set(words: &mut Vec<(usize, u64)>, from: usize, until: usize) -> Result<(), AllocError> {
    for at in from..until {
        words.push((at, u64::MAX))?;
    }
    Ok(())
}

#[test]
fn words_that_nothing_names_do_not_count(rt: HostRuntime) -> Result<(), Fail> {
    let mut words = Vec::new(rt.alloc());
    push_set(&mut words, 4, 40)?;
    push_set(&mut words, 1_064, 25_664)?;
    words.extend_from_slice(&NAMED)?;
    must_hold(&rt, held_at_rest(&rt, 3, &words)? == 2, "two are held");
    Ok(())
}
