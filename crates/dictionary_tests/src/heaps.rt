//! Recovered heaps, and what is told of each.
ghost use Rattle.std.specs.Prelude.{◌≤◌, IfOk};
ghost use Rattle.heap_model.specs.Geometry.{largest_capacity};

use crate::checks::{must_hold, reads_so};
use crate::recoveries::recovered;
use heap_recover::Recovered;
use region_header::Bytes;
use std::alloc::Global;
use std::process::Abort;
use std::test::Fail;
use super_block::LARGEST_CAPACITY;
use test_images::{image_of, number};
use trace_text::{heap_line, map_text, report_text};

#[tactic(auto, unfolding(heap_model::specs::Geometry::largest_capacity))]
fn capacity_of(text: &str) -> Result<u64, Fail>
    ensures some { IfOk result (λ capacity. 1 ≤ capacity) }
    ensures small { IfOk result (λ capacity. capacity ≤ largest_capacity) }
{
    let capacity = number(text)?;
    if capacity == 0 || LARGEST_CAPACITY < capacity {
        return Err("no such capacity".into());
    }
    Ok(capacity)
}

/// What recovery makes of an image, of which the text tells the capacity and what differs from an
/// empty one.
fn told_heap(alloc: Global, text: &str) -> Result<Recovered, Fail> {
    let (capacity, changes) = text.split_once(' ').unwrap_or((text, ""));
    let image = image_of(alloc, capacity_of(capacity)?, changes)?;
    recovered(alloc, &image)
}

/// Whether the report and the map of the heap read so.
fn is_told(alloc: Global, heap: &Recovered, report: &str, map: &str) -> bool {
    reads_so(report_text(alloc, heap, None, false), report) && reads_so(map_text(alloc, heap), map)
}

/// Reports and maps the heap of an image, of which the row's first line tells; the further ones are
/// the report, and behind a line between them the map.
fn tells(rt: &(impl Abort + AllocGlobal), row: &str) -> Result<(), Fail> {
    let (image, told) = row.split_once('\n').unwrap_or((row, ""));
    let (report, map) = told.split_once("map:\n").unwrap_or((told, ""));
    let heap = told_heap(rt.alloc(), image)?;
    must_hold(rt, is_told(rt.alloc(), &heap, report, map), row);
    Ok(())
}

/// Each row begins with `@`. The held blocks are those to which roots lead.
const HEAPS: &str = "@ 1
heap 1 clean
map:
used 0 free 0 fresh 1
@ 256 state 2
heap 256 dirty
map:
used 0 free 0 fresh 256
@ 4 used 2, info:0 12, root:8 @1096
heap 4 clean
held 1024 1
map:
used 2 free 1 fresh 2
sb 0 class 12 held 0
sb 1 free
@ 4 used 3, info:0 12, info:1 767, root:8 @1096, root:9 @9288
heap 4 clean
held 1024 1
held large 2 1
map:
used 3 free 0 fresh 1
sb 0 class 12 held 0
sb 1 large 2
sb 2 inside 1
@ 2 used 2, info:0 12, info:1 2, root:8 @1080, root:9 @9272
heap 2 clean
held 32 1
held 1024 1
map:
used 2 free 0 fresh 0
sb 0 class 12 held 0
sb 1 class 2 held 0
@ 1 used 1, info:0 12, root:8 @1072, root:9 @1328
heap 1 clean
held 1024 2
map:
used 1 free 0 fresh 0
sb 0 class 12 held 0 2
@ 8 used 3, info:0 12, info:1 5, info:2 6, root:8 @1128, root:9 @1256, root:10 @1384, \
root:11 @1512, root:12 @9320, root:13 @9332, root:14 @17512, root:15 @17528
heap 8 clean
held 96 2
held 128 2
held 1024 4
map:
used 3 free 0 fresh 5
sb 0 class 12 held 0-3
sb 1 class 5 held 0-1
sb 2 class 6 held 0-1
";

#[test]
fn heaps_are_reported_and_mapped(rt: HostRuntime) -> Result<(), Fail> {
    let mut rows = HEAPS.split("@ ");
    rows.next();
    for row in rows {
        tells(&rt, row)?;
    }
    Ok(())
}

/// Asserts that the map tells of 256 superblocks, all of them free.
fn must_list_free(rt: &impl Abort, map: &[u8]) {
    let begin = b"used 256 free 256 fresh 0\nsb 0 free\n".as_slice();
    must_hold(rt, map.starts_with(begin), "its begin");
    must_hold(rt, map.ends_with(b"\nsb 255 free\n".as_slice()), "its end");
    let lines = map.iter().filter(|byte| **byte == b'\n').count();
    must_hold(rt, lines == 257, "its lines");
}

/// The map of such an image.
fn map_of(alloc: Global, text: &str) -> Result<Bytes, Fail> {
    let heap = told_heap(alloc, text)?;
    Ok(map_text(alloc, &heap)?)
}

#[test]
fn a_heap_with_all_superblocks_taken_is_mapped(rt: HostRuntime) -> Result<(), Fail> {
    must_list_free(&rt, map_of(rt.alloc(), "256 used 256")?.as_slice());
    Ok(())
}

#[test]
fn the_first_line_is_that_of_the_report(rt: HostRuntime) {
    let line = heap_line(rt.alloc(), 256, false);
    must_hold(&rt, reads_so(line, "heap 256 dirty\n"), "dirty");
}
