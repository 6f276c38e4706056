//! Heaps that recovery made and that were then closed: their anchors hold just what their roots
//! reach, so both ways give the same.

use crate::asserts::must_hold;
use crate::openings::{are_same, open, open_owned, recovered, row_recovered};
use crate::other::OTHER;
use heap_recover::{Recovered, Was};
use quick_recover::{Path, Quick};
use std::alloc::Global;
use std::process::Abort;
use std::test::Fail;
use test_images::change;

/// The words of the heap, closed.
fn closed(alloc: Global, heap: &Recovered) -> Result<Vec<u64>, Fail> {
    let mut words = Vec::from_slice(alloc, heap.heap.words())?;
    change(&mut words, "state 1")?;
    Ok(words)
}

/// Whether an image that was closed is opened by its anchors as this heap, whose words it has.
fn is_opened_as(answer: &Quick, heap: &Recovered) -> bool {
    answer.path == Path::Quick
        && answer.recovered.was == Was::Clean
        && are_same(&answer.recovered, heap)
}

/// Asserts that the heap is opened by its anchors as it was before it was closed, and that recovery
/// gives the same.
fn must_open_alike(
    rt: &(impl Abort + AllocGlobal),
    heap: &Recovered,
    told: &str,
) -> Result<(), Fail> {
    let image = closed(rt.alloc(), heap)?;
    must_hold(rt, is_opened_as(&open(rt.alloc(), &image)?, heap), told);
    must_hold(rt, are_same(&recovered(rt.alloc(), &image)?, heap), told);
    must_hold(
        rt,
        is_opened_as(&open_owned(rt.alloc(), image)?, heap),
        told,
    );
    Ok(())
}

/// Images of so many superblocks with these words.
const IMAGES: &str = "
# An empty one.
1 | state 1
# A shard with two keys in one bucket and one in another, closed and left open, and of the old
# version.
2 | used 2, info:0 12, info:1 2, root:0 @1080, 1080 @9272, 9272 @9276, 1207 @9292
2 | state 2, used 2, info:0 12, info:1 2, root:0 @1080, 1080 @9272, 9272 @9276, 1207 @9292
old 2 | state 2, used 2, info:0 12, info:1 2, root:7 @1208, 1208 @9276, 9276 @9272
# Blocks of one class and a large block; a large block of two superblocks.
2 | used 2, info:0 511, info:1 20, root:8 @1080, root:9 @11064
2 | used 2, info:0 767, root:1023 @1080
";

#[test]
fn a_recovered_heap_that_is_closed_opens_alike(rt: HostRuntime) -> Result<(), Fail> {
    for row in IMAGES.trim().split('\n').chain(OTHER.trim().split('\n')) {
        if !row.starts_with('#') {
            must_open_alike(&rt, &row_recovered(rt.alloc(), row)??, row)?;
        }
    }
    Ok(())
}
