//! Drains of heaps that were opened by their anchors and by a trace: the same offsets, each once,
//! and each in its own order.

use crate::asserts::{column, must_hold};
use crate::openings::{row_opened, row_recovered};
use block_heap::SeqHeap;
use line_memory::ConstantChance;
use quick_recover::Path;
use std::alloc::Global;
use std::test::Fail;
use super_block::Ready;
use test_images::number;

/// How many superblocks an image has, in which words it differs from an empty one, and the offsets
/// that a drain of class 20 gives: of the heap that its anchors tell, and of the recovered one. The
/// roots reach what the anchors hold.
const DRAINS: &str = "
# Chains that ascend already.
1 | used 1, info:0 20, anchor:0 17179869189, 2864 6448, root:8 @1072, root:9 @4656 | 22912 51584 | \
    22912 51584
# One that doesn't: opening by anchors keeps it, and recovery puts it in order.
1 | used 1, info:0 20, anchor:0 17179869197, 6448 2864, root:8 @1072, root:9 @4656 | 51584 22912 | \
    22912 51584
# The first superblock's chain before that of the second, whichever way the anchors' list led.
2 | used 2, info:0 20, info:1 20, anchor:0 8589934593, anchor:1 17179869197, 14648 11064, \
    root:8 @2872, root:9 @4664, root:10 @6456, root:11 @9272, root:12 @12856, 36 2, link:1 1 | \
    8640 117184 88512 | 8640 88512 117184
# Free superblocks are cut in one order.
2 | used 2, info:0 20, anchor:0 17179869197, 6456 2872, 16 2, root:8 @1080, root:9 @4664 | \
    51648 22976 74176 88512 102848 117184 | 22976 51648 74176 88512 102848 117184
# Nothing is left.
1 | used 1, info:0 511, root:8 @1072 | - | -
";

/// The offsets that the heap gives of class 20.
fn drained(alloc: Global, ready: Ready) -> Result<Vec<u64>, Fail> {
    let mut heap = SeqHeap::new(alloc, ready, 1_000_000, ConstantChance(0))?;
    Ok(heap.drain(alloc, 20)?)
}

/// Whether these are the offsets that are told, in this order; `-` tells of none.
fn are_told(offsets: &[u64], told: &str) -> Result<bool, Fail> {
    if told == "-" {
        return Ok(offsets.is_empty());
    }
    let mut count = 0usize;
    for offset in told.split(' ') {
        if offsets.get(count) != Some(&number(offset)?) {
            return Ok(false);
        }
        count = count.wrapping_add(1);
    }
    Ok(count == offsets.len())
}

/// Whether drains of both heaps of a row are as it tells, and the same but for their order.
fn is_drained_as_told(alloc: Global, row: &str) -> Result<bool, Fail> {
    let quick = row_opened(alloc, row)??;
    let is_quick = quick.path == Path::Quick;
    let opened = quick.recovered;
    let mut by_anchors = drained(alloc, opened.heap)?;
    let recovered = row_recovered(alloc, row)??;
    let traced = drained(alloc, recovered.heap)?;
    let in_order = are_told(&by_anchors, column(row, 2))? && are_told(&traced, column(row, 3))?;
    by_anchors.sort()?;
    Ok(is_quick && in_order && by_anchors.as_slice() == traced.as_slice())
}

#[test]
fn both_ways_drain_the_same_offsets(rt: HostRuntime) -> Result<(), Fail> {
    for row in DRAINS.trim().split('\n') {
        if !row.starts_with('#') {
            must_hold(&rt, is_drained_as_told(rt.alloc(), row)?, row);
        }
    }
    Ok(())
}
