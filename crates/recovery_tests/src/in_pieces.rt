//! Images recovered in pieces by threads, beside the same in one thread: the same heap, or the same
//! fault. Threads are started where many blocks are expected, and not on a machine of one processor.

use crate::asserts::must_hold;
use crate::pairs::{Pairs, kinds};
use crate::words::write;
use heap_recover::{RecoverFault, Recovered, recover};
use par_recover::{recover_owned_par, recover_par};
use std::alloc::Global;
use std::process::Abort;
use std::test::Fail;
use std::thread::Threads;
use test_images::{change, image_of, info_word, number, old_image_of};

/// Whether two recoveries have the same outcome.
fn are_same(
    one: &Result<Recovered, RecoverFault>,
    other: &Result<Recovered, RecoverFault>,
) -> bool {
    match (one, other) {
        (Ok(one), Ok(other)) => {
            one.heap.words() == other.heap.words()
                && one.heap.held() == other.heap.held()
                && one.free.as_slice() == other.free.as_slice()
                && one.was == other.was
        }
        (Err(one), Err(other)) => one == other,
        _ => false,
    }
}

/// Asserts that the image is recovered by threads as by one thread, of a copy and in its room.
fn must_agree<R: Threads + Sync + AllocGlobal + Abort>(
    rt: &R,
    image: &[u64],
    told: &str,
) -> Result<(), Fail> {
    let kinds = kinds(rt.alloc())?;
    let plain = recover(rt.alloc(), image, &kinds, &Pairs);
    let copied = recover_par(rt, rt.alloc(), image, &kinds, &Pairs);
    must_hold(rt, are_same(&plain, &copied), told);
    let words = Vec::from_slice(rt.alloc(), image)?;
    let owned = recover_owned_par(rt, rt.alloc(), words, &kinds, &Pairs);
    must_hold(rt, are_same(&plain, &owned), told);
    Ok(())
}

/// An empty image of so many superblocks, in either version, with these changes.
#[tactic(auto, unfolding(heap_model::specs::Geometry::largest_capacity))]
fn changed(alloc: Global, superblocks: u64, changes: &str, is_old: bool) -> Result<Vec<u64>, Fail> {
    if superblocks == 0 || superblocks > 4 {
        return Err("no image".into());
    }
    if is_old {
        return old_image_of(alloc, superblocks, changes);
    }
    let mut image = image_of(alloc, superblocks, "kind:0 2, kind:1 1")?;
    change(&mut image, changes)?;
    Ok(image)
}

/// How many superblocks an image has, and in which words it differs from an empty one. Superblocks
/// begin at word 1,072 of one, 1,080 of two, 1,088 of three and 1,096 of four, 8,192 words apart.
const IMAGES: &str = "
# Nothing has been taken; a superblock has been, and is free.
1 | state 1
1 | used 1
4 | used 3, state 2
# One class: the first block of four is kept, and all are.
1 | used 1, info:0 20, root:8 @1072
1 | used 1, info:0 20, root:8 @1072, root:9 @2864, root:10 @4656, root:11 @6448
# Blocks reached with two kinds are held once.
1 | used 1, info:0 2, root:0 @1072, root:1 @1072, 1072 @1076, 1074 @1080
# Blocks of several classes, kept in some superblocks and in none of others.
2 | used 2, info:0 20, info:1 4, root:8 @1080, root:9 @9280
3 | used 3, info:0 2, info:1 12, info:2 20, root:0 @1088, 1088 @1092, root:8 @9408, root:9 @17472
3 | used 3, info:0 20, info:1 20, info:2 20, root:8 @1088, root:9 @19264
4 | used 4, info:0 1, info:1 1, info:2 1, info:3 1, root:8 @1098, root:9 @25672, root:10 @25674
# A block of one superblock leads to a block of another.
3 | used 3, info:0 2, info:1 2, info:2 2, root:0 @17472, 17472 @1088, 1088 @9280
# Large blocks, which go on over the end of a piece: kept, freed, and beside others.
3 | used 3, info:0 1023, root:8 @1088
3 | used 3, info:0 1023
3 | used 3, info:0 767, info:2 20, root:8 @1088, root:9 @17472
4 | used 4, info:0 20, info:1 767, info:3 2, root:8 @9288, root:0 @25672
4 | used 4, info:0 511, info:1 511, info:2 767, root:8 @9288
# What is left of a large block names nothing where the heap ends before it.
3 | used 2, info:0 20, info:1 767, root:8 @1088
# Words that lead to no block: of a root, of a block, in several pieces.
3 | used 3, info:0 20, root:8 7
3 | used 3, info:0 767, info:1 4, root:8 @1088
3 | used 3, info:0 2, info:2 2, root:0 @1088, 1088 @17472, 17472 9, root:1 @1092, 1094 5
4 | used 4, info:3 2, root:0 @25672, 25672 11
# Headers that are bad.
1 | used 1, 0 1, state 0
2 | used 3
3 | used 3, state 7
";

#[test]
fn threads_recover_what_one_thread_does(rt: HostRuntime) -> Result<(), Fail> {
    for row in IMAGES.trim().split('\n') {
        if let Some((superblocks, changes)) = row.split_once(" | ") {
            let count = number(superblocks)?;
            must_agree(&rt, &changed(rt.alloc(), count, changes, false)?, row)?;
            must_agree(&rt, &changed(rt.alloc(), count, changes, true)?, row)?;
        }
    }
    Ok(())
}

/// Of 320 superblocks, roots 0 and 1 lead to the first block of superblock 1 with two kinds, and that
/// to the next two.
const PAIR: &str = "used 320, kind:0 2, root:0 @11816, root:1 @11816, 11816 @11820, 11818 @11824";

/// An image of 320 superblocks: in turn of each class, then a large block of two, and then so many of
/// the smallest class that threads are started. Of every third the first block is kept, and of
/// superblock 1 those that the pair holds.
#[tactic(auto, unfolding(heap_model::specs::Geometry::largest_capacity))]
fn of_each_class(alloc: Global) -> Result<Vec<u64>, Fail> {
    let mut image = image_of(alloc, 320, PAIR)?;
    for d in 0..320u64 {
        write(&mut image, &[(info_word(d) as usize, info_at(d))]);
        if d % 3 == 0 {
            let pointer = 0x5250_0000_0000_0000 + 8 * (3_624 + 8_192 * d);
            write(&mut image, &[(48 + d as usize, pointer)]);
        }
    }
    Ok(image)
}

/// The info of superblock `d` there.
fn info_at(d: u64) -> u64 {
    match d {
        0..=39 => d % 20 + 1,
        42 => 767,
        40..=43 => 0,
        _ => 1,
    }
}

#[test]
fn threads_recover_a_heap_of_all_classes(rt: HostRuntime) -> Result<(), Fail> {
    must_agree(&rt, &of_each_class(rt.alloc())?, "all classes")
}

#[test]
fn threads_tell_a_word_outside_as_one_thread_does(rt: HostRuntime) -> Result<(), Fail> {
    let mut image = of_each_class(rt.alloc())?;
    write(&mut image, &[(49, 7)]);
    must_agree(&rt, &image, "a word outside")
}
