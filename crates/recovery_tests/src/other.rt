//! Images that are not orderly: they are traced as by recovery, or refused as by it.

use crate::asserts::{column, must_hold};
use crate::openings::{are_same, row_opened, row_opened_owned, row_recovered};
use crate::told::{are_free, are_held};
use heap_recover::{RecoverFault, Was};
use quick_recover::{Path, Quick};
use std::alloc::Global;
use std::process::Abort;
use std::test::Fail;
use test_images::number;

/// How many superblocks an image has, in which words it differs from an empty one, whether it was
/// closed, and the blocks that are held and the superblocks that are free after recovery.
pub const OTHER: &str = "
# The image was left open.
1 | state 2 | Dirty | - | -
1 | state 2, used 1, info:0 20, anchor:0 2, root:8 @1072 | Dirty | 1072/1792 | -
old 1 | state 2, used 1, info:0 20, anchor:0 2 | Dirty | - | 0
# The free list has a superblock that was not taken, one that is not empty, or one twice.
1 | 16 1 | Clean | - | -
2 | used 1, 16 2 | Clean | - | 0
1 | used 1, info:0 20, anchor:0 2, 16 1 | Clean | - | 0
1 | used 1, 16 1, link:0 1 | Clean | - | 0
# A chain has a block twice.
1 | used 1, info:0 20, anchor:0 17179869189, 2864 2864, root:8 @1072 | Clean | 1072/1792 | -
1 | used 1, info:0 20, anchor:0 25769803781, 2864 6448, 6448 2864 | Clean | - | 0
# It leaves its superblock, leads into a block, or begins behind the last one.
2 | used 2, info:0 20, anchor:0 17179869189, 2872 11064, info:1 20, anchor:1 2, root:8 @1080 | \
    Clean | 1080/1792 | 1
2 | used 2, info:1 20, anchor:1 17179869189, 11064 2872, info:0 20, anchor:0 2, root:8 @9272 | \
    Clean | 9272/1792 | 0
1 | used 1, info:0 20, anchor:0 17179869189, 2864 2865, root:8 @1072 | Clean | 1072/1792 | -
1 | used 1, info:0 20, anchor:0 8589934609 | Clean | - | 0
# An anchor counts none, all, or more than its chain has.
1 | used 1, info:0 20, anchor:0 5 | Clean | - | 0
1 | used 1, info:0 20, anchor:0 34359738369, 1072 2864, 2864 4656, 4656 6448 | Clean | - | 0
1 | used 1, info:0 20, anchor:0 25769803781, 2864 6448, 6448 0 | Clean | - | 0
1 | used 1, info:0 20, anchor:0 18446744065119617029, 2864 6448, 6448 0 | Clean | - | 0
# It is no anchor, or a full one with more in it.
1 | used 1, info:0 20, anchor:0 3 | Clean | - | 0
1 | used 1, info:0 20, anchor:0 6, root:8 @1072 | Clean | 1072/1792 | -
# A superblock holds nothing that has a meaning, and is not in the free list.
1 | used 1 | Clean | - | 0
1 | used 1, info:0 21, anchor:0 2 | Clean | - | 0
2 | used 2, info:0 511 | Clean | - | 0 1
# A large block is in part in the free list, goes on behind those taken, or into a class.
2 | used 2, info:0 767, 16 2, root:8 @1080 | Clean | 1080/16384 | -
2 | used 1, info:0 767 | Clean | - | 0
2 | used 2, info:0 767, info:1 20 | Clean | - | 0 1
2 | used 2, info:0 767, info:1 511, root:8 @9272 | Clean | 9272/8192 | 0
# A descriptor of a superblock that was not taken has a word.
1 | info:0 20 | Clean | - | -
1 | anchor:0 2 | Clean | - | -
1 | link:0 1 | Clean | - | -
2 | used 1, info:0 511, anchor:1 2, root:8 @1080 | Clean | 1080/8192 | -
";

/// Whether the image of a row was traced, and was closed as the row tells.
fn is_traced(answer: &Quick, row: &str) -> bool {
    answer.path == Path::Traced
        && (answer.recovered.was == Was::Clean) == (column(row, 2) == "Clean")
}

/// Asserts that the image was traced, and that the heap is as the row tells and as recovery gives
/// it.
fn must_be_traced(rt: &(impl Abort + AllocGlobal), answer: &Quick, row: &str) -> Result<(), Fail> {
    let found = &answer.recovered;
    must_hold(rt, is_traced(answer, row), row);
    must_hold(rt, are_held(found.heap.held(), column(row, 3))?, row);
    must_hold(rt, are_free(&found.free, column(row, 4)), row);
    must_hold(rt, are_same(found, &row_recovered(rt.alloc(), row)??), row);
    Ok(())
}

#[test]
fn any_other_image_is_traced(rt: HostRuntime) -> Result<(), Fail> {
    for row in OTHER.trim().split('\n') {
        if !row.starts_with('#') {
            must_be_traced(&rt, &row_opened(rt.alloc(), row)??, row)?;
            must_be_traced(&rt, &row_opened_owned(rt.alloc(), row)??, row)?;
        }
    }
    Ok(())
}

/// The same, but for the last column: the word that leads outside, or what is bad in the header.
const REFUSED: &str = "
1 | state 2, root:0 7 | 40
old 1 | state 2, root:8 @1072 | 48
1 | used 1, info:0 20, anchor:0 5, root:9 5 | 49
1 | 16 1, root:0 7 | 40
1 | 0 1 | header
1 | state 0 | header
1 | used 2, state 2 | header
1 | kind:8 3, root:0 7 | header
old 1 | 2 2 | header
";

/// Whether the fault is the one that the row tells.
fn is_told(fault: Option<&RecoverFault>, row: &str) -> Result<bool, Fail> {
    match fault {
        Some(RecoverFault::Header(_)) => Ok(column(row, 2) == "header"),
        Some(RecoverFault::Outside { at, .. }) => Ok(number(column(row, 2))? == *at),
        _ => Ok(false),
    }
}

/// Whether the image of a row is refused with one fault by both calls and by recovery, which the
/// row tells.
fn is_refused(alloc: Global, row: &str) -> Result<bool, Fail> {
    let copied = row_opened(alloc, row)?.err();
    let owned = row_opened_owned(alloc, row)?.err();
    let by_recovery = row_recovered(alloc, row)?.err();
    Ok(copied == by_recovery && owned == by_recovery && is_told(by_recovery.as_ref(), row)?)
}

#[test]
fn what_is_not_orderly_is_refused_as_by_recovery(rt: HostRuntime) -> Result<(), Fail> {
    for row in REFUSED.trim().split('\n') {
        must_hold(&rt, is_refused(rt.alloc(), row)?, row);
    }
    Ok(())
}
