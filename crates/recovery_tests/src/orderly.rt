//! Images that are opened by their own anchors.

use crate::asserts::{column, must_hold};
use crate::openings::{row_opened, row_opened_owned, row_recovered};
use crate::told::{are_free, are_held, has_told};
use heap_recover::{RecoverFault, Was};
use quick_recover::{Path, Quick};
use std::alloc::Global;
use std::process::Abort;
use std::test::Fail;

/// How many superblocks an image has, in which words it differs from an empty one, the blocks that
/// are held and the superblocks that are free, and words that the heap has then. Blocks of class 20
/// begin at words 1,072, 2,864, 4,656 and 6,448 of one superblock, and at 1,080 and 9,272 of two.
const ORDERLY: &str = "
# One just formatted, and the same of the old version.
1 | state 1 | - | - | state 2, used 0, 16 0, kind:0 1, kind:8 0
old 2 | state 1 | - | - | 1 2, state 2, used 0, kind:0 1, kind:8 0
# All blocks of a full superblock are held, and nothing leads to any of them.
1 | used 1, info:0 20, anchor:0 2, 36 1, link:0 1, 1072 5 | \
    1072/1792 2864/1792 4656/1792 6448/1792 | - | \
    state 2, used 1, 16 0, 36 0, info:0 20, anchor:0 2, link:0 0, 1072 5
old 1 | used 1, info:0 20, anchor:0 2 | 1072/1792 2864/1792 4656/1792 6448/1792 | - | 36 0
# Of a partial one those outside its chain, which stays in its order.
1 | used 1, info:0 20, anchor:0 17179869189, 2864 6448, 6448 7 | 1072/1792 4656/1792 | - | \
    36 1, anchor:0 17179869189, link:0 0, 2864 6448, 6448 7
1 | used 1, info:0 20, anchor:0 17179869197, 6448 2864, 2864 7 | 1072/1792 4656/1792 | - | \
    36 1, anchor:0 17179869197, link:0 0, 6448 2864, 2864 7
2 | used 2, info:0 20, info:1 20, anchor:0 8589934593, anchor:1 8589934605 | \
    2872/1792 4664/1792 6456/1792 9272/1792 11064/1792 12856/1792 | - | \
    36 1, link:0 2, link:1 0, anchor:0 8589934593, anchor:1 8589934605, 1080 0
# One whose anchor is empty is free, though it is still in the list of its class.
1 | used 1, info:0 20, anchor:0 4, 36 1 | - | 0 | 16 1, 36 0, info:0 0, anchor:0 0, link:0 0
2 | used 2, info:0 20, info:1 20, anchor:1 2, 16 1 | \
    9272/1792 11064/1792 12856/1792 14648/1792 | 0 | 16 1, 36 0, info:0 0, link:0 0, info:1 20
# A large block is held, whatever its anchors are.
2 | used 2, info:0 767 | 1080/16384 | - | info:0 767, anchor:0 2, info:1 0, anchor:1 2
2 | used 2, info:0 511, anchor:0 3, info:1 511, anchor:1 2 | 1080/8192 9272/8192 | - | \
    16 0, info:0 511, anchor:0 2, info:1 511, anchor:1 2
# One that was freed is in the free list, in either order, and not held.
2 | used 2, info:0 767, 16 1, link:0 2 | - | 0 1 | \
    16 1, info:0 0, link:0 2, info:1 0, link:1 0
2 | used 2, info:0 767, 16 16777218, link:1 1 | - | 0 1 | \
    16 1, info:0 0, link:0 2, info:1 0, link:1 0
2 | used 2, info:0 511, info:1 511, 16 2 | 1080/8192 | 1 | 16 2, info:0 511, info:1 0, link:1 0
# No kind of a root counts.
1 | used 1, info:0 511, root:0 @1072, kind:0 2, kind:8 1 | 1072/8192 | - | kind:0 2, kind:8 1
";

/// Asserts that the image was opened by its anchors, and that the heap is as the row tells.
fn must_be_quick(rt: &(impl Abort + AllocGlobal), answer: &Quick, row: &str) -> Result<(), Fail> {
    let found = &answer.recovered;
    must_hold(rt, answer.path == Path::Quick, row);
    must_hold(rt, found.was == Was::Clean, row);
    must_hold(rt, are_held(found.heap.held(), column(row, 2))?, row);
    must_hold(rt, are_free(&found.free, column(row, 3)), row);
    must_hold(
        rt,
        has_told(rt.alloc(), found.heap.words(), column(row, 4))?,
        row,
    );
    Ok(())
}

#[test]
fn an_orderly_image_holds_what_its_anchors_hold(rt: HostRuntime) -> Result<(), Fail> {
    for row in ORDERLY.trim().split('\n') {
        if !row.starts_with('#') {
            must_be_quick(&rt, &row_opened(rt.alloc(), row)??, row)?;
            must_be_quick(&rt, &row_opened_owned(rt.alloc(), row)??, row)?;
        }
    }
    Ok(())
}

/// The same of images that recovery refuses, since a root or a link leads to no block: no word of
/// them counts.
const LED_OUTSIDE: &str = "
1 | root:0 7 | - | - | root:0 7
old 1 | root:1023 @1072 | - | - | root:1023 @1072
2 | used 2, info:0 20, anchor:0 2, info:1 20, anchor:1 2, root:8 @1084 | \
    1080/1792 2872/1792 4664/1792 6456/1792 9272/1792 11064/1792 12856/1792 14648/1792 | - | \
    root:8 @1084
1 | used 1, info:0 511, root:0 @1072, 9263 5 | 1072/8192 | - | 9263 5
";

/// Whether recovery refuses the image of a row for a word that leads to no block.
fn leads_outside(alloc: Global, row: &str) -> Result<bool, Fail> {
    Ok(matches!(
        row_recovered(alloc, row)?,
        Err(RecoverFault::Outside { .. })
    ))
}

#[test]
fn roots_and_links_of_an_orderly_image_are_not_looked_at(rt: HostRuntime) -> Result<(), Fail> {
    for row in LED_OUTSIDE.trim().split('\n') {
        must_hold(&rt, leads_outside(rt.alloc(), row)?, row);
        must_be_quick(&rt, &row_opened(rt.alloc(), row)??, row)?;
        must_be_quick(&rt, &row_opened_owned(rt.alloc(), row)??, row)?;
    }
    Ok(())
}
