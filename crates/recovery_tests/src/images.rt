//! Images recovered, row by row. Each heap that comes of one is looked through by the slow check of
//! `rest_check`.
use crate::asserts::{column, must_hold};
use crate::pairs::{Pairs, kinds};
use crate::rest_check::is_at_rest;
use crate::told::{are_free, are_held, has_told};
use heap_recover::{RecoverFault, Recovered, Was, recover};
use region_header::BadHeader;
use std::alloc::{AllocError, Global};
use std::process::Abort;
use std::test::Fail;
use test_images::{change, image_of, number, old_image_of};

/// An empty image of one or two superblocks with these changes, in which root 0 leads to a pair for
/// its first link, and the other roots have the kinds of an empty image.
#[tactic(auto, unfolding(heap_model::specs::Geometry::largest_capacity))]
fn changed(alloc: Global, superblocks: u64, changes: &str) -> Result<Vec<u64>, Fail> {
    if superblocks == 0 || superblocks > 2 {
        return Err("no image".into());
    }
    let mut image = image_of(alloc, superblocks, "kind:0 2")?;
    change(&mut image, changes)?;
    Ok(image)
}

/// The same of the old version.
#[tactic(auto, unfolding(heap_model::specs::Geometry::largest_capacity))]
fn changed_old(alloc: Global, superblocks: u64, changes: &str) -> Result<Vec<u64>, Fail> {
    if superblocks == 0 || superblocks > 2 {
        return Err("no image".into());
    }
    old_image_of(alloc, superblocks, changes)
}

/// Recovers an image that stores the kinds of its roots, as one of pairs: what is given for kinds
/// counts for nothing.
pub fn recovered(
    alloc: Global,
    image: &[u64],
) -> Result<Result<Recovered, RecoverFault>, AllocError> {
    let kinds = vec![in alloc; 0; 1_024]?;
    Ok(recover(alloc, image, &kinds, &Pairs))
}

/// Recovers an image of the old version, as one of pairs: root 0 and root 1 lead to a pair.
fn recovered_old(
    alloc: Global,
    image: &[u64],
) -> Result<Result<Recovered, RecoverFault>, AllocError> {
    let kinds = kinds(alloc)?;
    Ok(recover(alloc, image, &kinds, &Pairs))
}

/// Asserts that the heap is at rest, and that it is as the row tells.
fn must_be_left(rt: &(impl Abort + AllocGlobal), found: &Recovered, row: &str) -> Result<(), Fail> {
    must_hold(rt, is_at_rest(found), row);
    must_hold(
        rt,
        (found.was == Was::Clean) == (column(row, 2) == "Clean"),
        row,
    );
    must_hold(rt, are_held(found.heap.held(), column(row, 3))?, row);
    must_hold(rt, are_free(&found.free, column(row, 4)), row);
    must_hold(
        rt,
        has_told(rt.alloc(), found.heap.words(), column(row, 5))?,
        row,
    );
    Ok(())
}

/// Recovers the image of a row.
fn recover_row(rt: &(impl Abort + AllocGlobal), row: &str) -> Result<(), Fail> {
    let image = changed(rt.alloc(), number(column(row, 0))?, column(row, 1))?;
    let found = recovered(rt.alloc(), &image)??;
    must_be_left(rt, &found, row)
}

/// Recovers the same image of the old version.
fn recover_old_row(rt: &(impl Abort + AllocGlobal), row: &str) -> Result<(), Fail> {
    let image = changed_old(rt.alloc(), number(column(row, 0))?, column(row, 1))?;
    let found = recovered_old(rt.alloc(), &image)??;
    must_hold(rt, found.heap.words().get(1) == Some(&2), "the version");
    must_be_left(rt, &found, row)
}

/// How many superblocks an image has, in which words it differs from an empty one, whether it was
/// closed, the blocks and the superblock that are held and free after recovery, and words that the
/// heap has then. Blocks of class 20 begin at words 1,072, 2,864, 4,656 and 6,448 of one superblock,
/// and at 1,080 and 9,272 of two.
const LEFT: &str = "
# Blocks reached with two kinds are held once.
1 | used 1, info:0 2, root:0 @1072, root:1 @1072, 1072 @1076, 1074 @1080 | \
    Clean | 1072/4 1076/4 1080/4 | - | anchor:0 17566416240653
# A block kept of a partial superblock leaves the others chained.
2 | used 1, info:0 4, root:8 @1080 | Clean | 1080/8 | - | \
    state 2, used 1, 20 1, info:0 4, anchor:0 8787503087621, link:0 0, 1088 1096
# A superblock is chained around its kept blocks: the first of four, the second, the last, none.
1 | used 1, info:0 20, 2864 7, 4656 7, 6448 7, anchor:0 9, root:8 @1072 | \
    Clean | 1072/1792 | - | anchor:0 25769803781, 36 1, 2864 4656, 4656 6448, 6448 7
1 | used 1, info:0 20, 2864 7, 4656 7, 6448 7, anchor:0 9, root:9 @2864 | \
    Clean | 2864/1792 | - | anchor:0 25769803777, 36 1, 1072 4656, 4656 6448, 6448 7
1 | used 1, info:0 20, 2864 7, 4656 7, 6448 7, anchor:0 9, root:11 @6448 | \
    Clean | 6448/1792 | - | anchor:0 25769803777, 36 1, 1072 2864, 2864 4656, 4656 7
1 | used 1, info:0 20, 2864 7, 4656 7, 6448 7, anchor:0 9 | \
    Clean | - | 0 | info:0 0, anchor:0 0, 16 1, 36 0, 2864 7
# A superblock that is all kept is in no list.
1 | used 1, info:0 20, root:8 @1072, root:9 @2864, root:10 @4656, root:11 @6448, 36 1, \
    link:0 2, 1072 5 | Clean | 1072/1792 2864/1792 4656/1792 6448/1792 | - | \
    16 0, 36 0, info:0 20, anchor:0 2, link:0 0, 1072 5
# Superblocks of a class are listed from the lowest.
2 | used 2, info:0 20, info:1 20, root:8 @1080, root:9 @9272 | \
    Clean | 1080/1792 9272/1792 | - | 36 1, link:0 2, link:1 0
# A large block is kept beside one that is freed.
2 | used 2, info:0 511, info:1 511, root:8 @9272 | Clean | 9272/8192 | 0 | \
    16 1, info:0 0, anchor:0 0, link:0 0, info:1 511, anchor:1 2
# A large block of two superblocks is kept whole.
2 | used 2, info:0 767, root:8 @1080 | Clean | 1080/16384 | - | \
    16 0, info:0 767, anchor:0 2, info:1 0, anchor:1 2
# An image that was left open is told.
1 | used 1, state 2 | Dirty | - | 0 | state 2
1 | used 1, state 1 | Clean | - | 0 | state 2
";

#[test]
fn reached_blocks_are_held_and_all_else_is_free(rt: HostRuntime) -> Result<(), Fail> {
    for row in LEFT.trim().split('\n') {
        if !row.starts_with('#') {
            recover_row(&rt, row)?;
            recover_old_row(&rt, row)?;
        }
    }
    Ok(())
}

/// The same of images in which other kinds are stored: the first block is reached through root 0,
/// and as a block of another kind its other link counts, or none.
const OF_KINDS: &str = "
1 | used 1, info:0 2, root:0 @1072, 1072 @1076, 1074 @1080 | Clean | 1072/4 1076/4 | - | kind:0 2
1 | used 1, info:0 2, root:0 @1072, 1072 @1076, 1074 @1080, kind:0 1 | \
    Clean | 1072/4 1080/4 | - | kind:0 1
1 | used 1, info:0 2, root:0 @1072, 1072 @1076, 1074 @1080, kind:0 0 | Clean | 1072/4 | - | kind:0 0
1 | used 1, info:0 2, root:1023 @1072, 1072 @1076, 1074 @1080, kind:1023 2 | \
    Clean | 1072/4 1076/4 | - | kind:1023 2, kind:1 1
";

#[test]
fn the_kinds_that_an_image_stores_are_traced(rt: HostRuntime) -> Result<(), Fail> {
    for row in OF_KINDS.trim().split('\n') {
        recover_row(&rt, row)?;
    }
    Ok(())
}

/// Asserts that the image of so many superblocks with these changes is refused, and why.
fn must_refuse(
    rt: &(impl Abort + AllocGlobal),
    superblocks: u64,
    changes: &str,
    fault: RecoverFault,
) -> Result<(), Fail> {
    let image = changed(rt.alloc(), superblocks, changes)?;
    let found = recovered(rt.alloc(), &image)?;
    must_hold(rt, found.err() == Some(fault), changes);
    Ok(())
}

#[test]
fn the_first_cause_of_a_bad_header_is_told(rt: HostRuntime) -> Result<(), Fail> {
    // Whatever is behind it, also a root that leads outside.
    must_refuse(
        &rt,
        1,
        "used 1, 0 1, state 0",
        RecoverFault::Header(BadHeader::Magic),
    )?;
    must_refuse(
        &rt,
        1,
        "used 1, 2 2, state 0",
        RecoverFault::Header(BadHeader::Length),
    )?;
    must_refuse(
        &rt,
        1,
        "used 2, state 0",
        RecoverFault::Header(BadHeader::State),
    )?;
    must_refuse(
        &rt,
        1,
        "used 2, root:0 7",
        RecoverFault::Header(BadHeader::Used),
    )?;
    must_refuse(
        &rt,
        1,
        "used 1, root:0 7, kind:1023 3",
        RecoverFault::Header(BadHeader::Kind),
    )
}

#[test]
fn a_large_block_of_two_superblocks_has_no_class_in_its_second(
    rt: HostRuntime,
) -> Result<(), Fail> {
    let outside = RecoverFault::Outside {
        at: 48,
        value: 0x5250_0000_0000_21c0,
    };
    must_refuse(
        &rt,
        2,
        "used 2, info:0 767, info:1 4, root:8 @1080",
        outside,
    )
}
