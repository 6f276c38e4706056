//! The report on a heap that was recovered, and its map.
ghost use Rattle.std.specs.Prelude.{◌≡◌, ◌==◌, IfOk, option_copied, slice_index};
ghost use Rattle.heap_model.specs.Header.{capacity_of};
ghost use Rattle.trace_text.specs.Keys.{IsReport};
ghost use Rattle.trace_text.specs.HeapMap.{map_of};
ghost use Rattle.trace_text.specs.Recovered.{is_clean};

use crate::map::map_lines;
use crate::report::report_of_blocks;
use heap_recover::{Recovered, Was};
use region_header::Bytes;
use std::alloc::{AllocError, Global};
use std::collections::BTreeMap;

/// The report on a recovered heap: its capacity and whether it was closed, the keys of the maps
/// with their values in ascending order, or how many keys and bytes there are where `sum` asks for
/// that, and how many blocks are held of each class and of each number of superblocks. Without maps
/// nothing is told of keys.
pub fn report_text(
    alloc: Global,
    recovered: &Recovered,
    maps: Option<&[BTreeMap<u64, Bytes>]>,
    sum: bool,
) -> Result<Bytes, AllocError>
    ensures ok { IfOk result (IsReport (capacity_of (slice_index recovered.now.heap.words))
        (is_clean recovered.now.was) (option_copied maps.entry) sum recovered.now.heap.held) }
{
    let heap = &recovered.heap;
    let clean = recovered.was == Was::Clean;
    report_of_blocks(
        alloc,
        heap.geometry().capacity(),
        clean,
        maps,
        sum,
        heap.held(),
    )
}

/// The map of a recovered heap: what each superblock that has been taken is used for.
pub fn map_text(alloc: Global, recovered: &Recovered) -> Result<Bytes, AllocError>
    ensures ok { IfOk result (λ text. text ≡ map_of (slice_index recovered.now.heap.words)
        recovered.now.heap.held recovered.now.free.items) }
{
    map_lines(alloc, &recovered.heap, &recovered.free)
}
