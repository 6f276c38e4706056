//! Shards read from hand-made images.
ghost use Rattle.std.specs.Prelude.{IfOk, Some, slice_index};
ghost use Rattle.heap_model.specs.Header.{HasKindsBelow};
ghost use Rattle.dict_model.specs.Links.{kind_count};

use crate::checks::must_hold;
use crate::recoveries::{fault_in, first_fault_in, recovered};
use dictionary::{DictFilter, MapFault, OTHER, read_map, read_maps};
use heap_recover::{Recovered, recover};
use region_header::Bytes;
use std::alloc::Global;
use std::collections::BTreeMap;
use std::test::Fail;
use test_images::{change, image_of};

/// A table in superblock 0, to which root 0 points; superblock 1 has nodes of four words, of which
/// the first two begin at 9,272 and 9,276.
const TABLE_AND_NODES: &str = "used 2, info:0 12, info:1 2, root:0 @1080";

/// That image with these changes too.
#[tactic(auto, unfolding(heap_model::specs::Geometry::largest_capacity))]
fn image_with(alloc: Global, changes: &str) -> Result<Vec<u64>, Fail> {
    let mut image = image_of(alloc, 2, TABLE_AND_NODES)?;
    change(&mut image, changes)?;
    Ok(image)
}

/// The heap that recovery makes of it.
fn heap_with(alloc: Global, changes: &str) -> Result<Recovered, Fail>
    ensures { IfOk result (λ heap.
        HasKindsBelow (Some kind_count) (slice_index heap.heap.words)) }
{
    recovered(alloc, &image_with(alloc, changes)?)
}

/// Whether the map has the key with these bytes.
fn has(map: &BTreeMap<u64, Bytes>, key: u64, bytes: &[u8]) -> bool {
    match map.get(&key) {
        Some(value) => value.as_slice() == bytes,
        None => false,
    }
}

/// Bucket 0 leads to the key 1024 with an empty value, and on to the key 0 with two bytes.
const TWO_KEYS: &str = "1080 @9276, 9276 @9272, 9277 1024, 9274 2, 9275 16961";

/// Whether shard 0 is the map of these two.
fn has_two_keys(alloc: Global, heap: &Recovered) -> Result<bool, MapFault>
    requires { HasKindsBelow (Some kind_count) (slice_index heap.now.heap.words) }
{
    let map = read_map(alloc, heap, 0)?;
    Ok(map.len() == 2 && has(&map, 0, b"AB") && has(&map, 1_024, b""))
}

/// Whether shard 1 is an empty map.
fn is_second_empty(alloc: Global, heap: &Recovered) -> Result<bool, MapFault>
    requires { HasKindsBelow (Some kind_count) (slice_index heap.now.heap.words) }
{
    Ok(read_map(alloc, heap, 1)?.is_empty())
}

/// How many maps are read of all shards.
fn map_count(alloc: Global, heap: &Recovered) -> Result<usize, MapFault>
    requires { HasKindsBelow (Some kind_count) (slice_index heap.now.heap.words) }
{
    Ok(read_maps(alloc, heap)?.len())
}

#[test]
fn a_shard_is_read_as_its_map(rt: HostRuntime) -> Result<(), Fail> {
    let alloc = rt.alloc();
    let heap = heap_with(alloc, TWO_KEYS)?;
    must_hold(&rt, has_two_keys(alloc, &heap) == Ok(true), "two keys");
    must_hold(
        &rt,
        is_second_empty(alloc, &heap) == Ok(true),
        "a null root",
    );
    must_hold(&rt, map_count(alloc, &heap) == Ok(8), "all shards");
    Ok(())
}

fn bad(shard: usize, at: u64) -> Option<MapFault> {
    Some(MapFault::BadShard { shard, at })
}

#[test]
fn a_bad_shard_is_told_with_its_first_bad_link(rt: HostRuntime) -> Result<(), Fail> {
    let alloc = rt.alloc();
    let heap = heap_with(alloc, "1080 @9272, 9272 @9272, root:1 @9276")?;
    must_hold(&rt, fault_in(alloc, &heap, 0) == bad(0, 9_272), "shard 0");
    must_hold(&rt, fault_in(alloc, &heap, 1) == bad(1, 41), "shard 1");
    must_hold(
        &rt,
        first_fault_in(alloc, &heap) == bad(0, 9_272),
        "all shards",
    );
    Ok(())
}

/// The kinds of roots 0, 1 and 7, behind the two superblocks. What root 0 leads to is not followed
/// as a table, and root 1 is null.
const OTHER_KINDS: &str = "1080 @9272, 17464 0, 17465 2, 17471 0";

#[test]
fn a_root_of_another_kind_makes_its_shard_bad(rt: HostRuntime) -> Result<(), Fail> {
    let alloc = rt.alloc();
    let heap = heap_with(alloc, OTHER_KINDS)?;
    must_hold(&rt, fault_in(alloc, &heap, 0) == bad(0, 17_464), "shard 0");
    must_hold(&rt, fault_in(alloc, &heap, 1) == bad(1, 17_465), "shard 1");
    must_hold(&rt, fault_in(alloc, &heap, 2).is_none(), "shard 2");
    must_hold(&rt, fault_in(alloc, &heap, 7) == bad(7, 17_471), "shard 7");
    Ok(())
}

/// The image of the old version, which ends with its second superblock, and what recovery makes of
/// it with kinds of roots that have no links.
fn recovered_without_links(alloc: Global) -> Result<Recovered, Fail>
    ensures { IfOk result (λ heap.
        HasKindsBelow (Some kind_count) (slice_index heap.heap.words)) }
{
    let image = image_with(alloc, "1 1, 1080 @9272")?;
    let old = image.get(..17_464).unwrap_or(&[]);
    Ok(recover(alloc, old, &[OTHER; 1_024], &DictFilter)?)
}

#[test]
fn an_old_heap_gets_the_kinds_that_it_is_recovered_with(rt: HostRuntime) -> Result<(), Fail> {
    // Only the table is held: its links are not followed.
    let heap = recovered_without_links(rt.alloc())?;
    must_hold(&rt, heap.heap.held().len() == 1, "the table");
    must_hold(
        &rt,
        fault_in(rt.alloc(), &heap, 0) == bad(0, 17_464),
        "shard 0",
    );
    Ok(())
}
