//! Reading the shards of a recovered heap as maps.
ghost use Rattle.std.specs.Prelude.{◌≡◌, ◌+◌, ◌*◌, ◌<◌, ◌≤◌, ℕ, length, slice_index, IfOk, OnOk, IfErr, Some};
ghost use Rattle.std.specs.BTreeMap.{get, IsOrdered};
ghost use Rattle.std.specs.Ordering.{nat_cmp};
ghost use Rattle.heap_model.specs.declared.block.Block.{Block};
ghost use Rattle.heap_model.specs.Header.{IsWellFormed, HasKindsBelow, kinds_of};
ghost use Rattle.heap_model.specs.Blocks.{layout_of};
ghost use Rattle.heap_model.specs.Rest.{IsReady};
ghost use Rattle.super_block.specs.Division.{Describes};
ghost use Rattle.root_reach.specs.Reaching.{AreOrigins};
ghost use Rattle.dict_model.specs.Links.{shards, kind_count, table_kind, dict_links};
ghost use Rattle.dict_model.specs.Nodes.{buckets};
ghost use Rattle.dict_model.specs.Shards.{HasTable, LeadsAlone, IsMap, MapOf};
ghost use Rattle.dictionary.specs.Reading.{IsRead, IsMapUpTo, TellsBad, TellsLowest, AreMaps};

use crate::fault::MapFault;
use crate::filter::{DictFilter, TABLE};
use crate::together::read_together;
use crate::walk::{Lead, Walk};
use dict_model::{BUCKETS, SHARDS};
use filter_trace::Scan;
use heap_model::Block;
use heap_recover::Recovered;
use region_header::Bytes;
use root_reach::{Origins, trace_origins};
use root_table::kinds;
use std::alloc::{AllocError, Global};
use std::collections::BTreeMap;
use super_block::{Directory, ROOT_WORD, Ready};

/// The map of shard `i` of a recovered heap, as the keys with their values. It has none where the
/// root has another kind than that of a table, or where the root or a link leads to what it may
/// not: then the first such word is told.
pub fn read_map(
    alloc: Global,
    recovered: &Recovered,
    i: usize,
) -> Result<BTreeMap<u64, Bytes>, MapFault>
    requires shard { i < 8 }
    requires kinds { HasKindsBelow (Some kind_count) (slice_index recovered.now.heap.words) }
    ensures ok { IfOk result (λ map.
        MapOf (slice_index recovered.now.heap.words) i (get nat_cmp map)) }
    ensures ordered { IfOk result (λ map. IsOrdered nat_cmp map) }
    ensures err { IfErr result (TellsBad (slice_index recovered.now.heap.words) i) }
{
    let words = recovered.heap.words();
    let directory = Directory::of(alloc, words)?;
    let scan = Scan {
        words,
        directory: &directory,
    };
    let origins = origins_of(alloc, &scan)?;
    read_shard(alloc, scan, &origins, i)
}

/// The maps of all eight shards of a recovered heap, in order, from one trace. Where shards have
/// none the lowest of them is told.
pub fn read_maps(
    alloc: Global,
    recovered: &Recovered,
) -> Result<Vec<BTreeMap<u64, Bytes>>, MapFault>
    requires { HasKindsBelow (Some kind_count) (slice_index recovered.now.heap.words) }
    ensures ok { IfOk result (λ maps.
        AreMaps (slice_index recovered.now.heap.words) shards maps.items) }
    ensures err { IfErr result (TellsLowest (slice_index recovered.now.heap.words)) }
    ensures ready { IsReady recovered.now.heap.words recovered.now.heap.held }
{
    maps_of(alloc, &recovered.heap)
}

/// The maps of all eight shards, in order, and which roots reach each block.
#[derive(Drop)]
pub struct TracedMaps {
    pub maps: Vec<BTreeMap<u64, Bytes>>,
    pub origins: Origins,
}

/// The maps of all eight shards of a heap at rest, in order, from one trace. Where shards have none
/// the lowest of them is told.
pub fn maps_of(alloc: Global, heap: &Ready) -> Result<Vec<BTreeMap<u64, Bytes>>, MapFault>
    requires { HasKindsBelow (Some kind_count) (slice_index heap.now.words) }
    ensures ok { IfOk result (λ maps. AreMaps (slice_index heap.now.words) shards maps.items) }
    ensures err { IfErr result (TellsLowest (slice_index heap.now.words)) }
    ensures ready { IsReady heap.now.words heap.now.held }
{
    let traced = trace_maps(alloc, heap)?;
    Ok(traced.maps)
}

/// The same with what the trace told, by which it is known which blocks a shard has to itself.
pub fn trace_maps(alloc: Global, heap: &Ready) -> Result<TracedMaps, MapFault>
    requires { HasKindsBelow (Some kind_count) (slice_index heap.now.words) }
    ensures ok { IfOk result (λ traced.
        AreMaps (slice_index heap.now.words) shards traced.maps.items) }
    ensures origins { IfOk result (λ traced. AreOrigins (slice_index heap.now.words)
        (kinds_of (slice_index heap.now.words)) dict_links traced.origins) }
    ensures err { IfErr result (TellsLowest (slice_index heap.now.words)) }
    ensures ready { IsReady heap.now.words heap.now.held }
{
    let words = heap.words();
    let directory = Directory::of(alloc, words)?;
    let scan = Scan {
        words,
        directory: &directory,
    };
    let origins = origins_of(alloc, &scan)?;
    let mut maps = Vec::with_capacity(alloc, SHARDS as usize)?;
    for shard in 0..SHARDS as usize {
        match maps.push(read_shard(alloc, scan, &origins, shard)?) {
            Ok(()) => {}
            Err(_) => return Err(MapFault::Memory),
        }
    }
    Ok(TracedMaps { maps, origins })
}

/// Which roots reach each block of an image, by the kinds that it stores for them.
pub fn origins_of(alloc: Global, scan: &Scan) -> Result<Origins, AllocError>
    requires formed { IsWellFormed (8 * length scan.now.words.now)
        (slice_index scan.now.words.now) }
    requires described { Describes scan.now.directory.now
        (layout_of (slice_index scan.now.words.now)) }
    requires kinds { HasKindsBelow (Some kind_count) (slice_index scan.now.words.now) }
    ensures { IfOk result (AreOrigins (slice_index scan.now.words.now)
        (kinds_of (slice_index scan.now.words.now)) dict_links) }
{
    trace_origins(alloc, scan, &kinds(scan.words), &DictFilter)
}

/// The map of a shard of an image.
fn read_shard(
    alloc: Global,
    scan: Scan,
    origins: &Origins,
    shard: usize,
) -> Result<BTreeMap<u64, Bytes>, MapFault>
    requires read { IsRead scan.words.now scan.directory.now origins.now }
    requires shard { shard < 8 }
    ensures ok { IfOk result (λ map.
        MapOf (slice_index scan.entry.words.now) shard (get nat_cmp map)) }
    ensures ordered { IfOk result (λ map. IsOrdered nat_cmp map) }
    ensures err { IfErr result (TellsBad (slice_index scan.entry.words.now) shard) }
{
    let walk = Walk {
        scan,
        origins,
        shard: shard as u16,
    };
    let kind = walk.kind_place();
    if walk.scan.words[kind as usize] != TABLE as u64 {
        return Err(walk.fault(kind));
    }
    let root = ROOT_WORD as usize + shard;
    match walk.table(walk.scan.words[root]) {
        Lead::Null => Ok(BTreeMap::new(alloc)),
        Lead::Astray => Err(walk.fault(root as u64)),
        Lead::To(table) => match read_together(alloc, &walk, table)? {
            Some(map) => Ok(map),
            None => read_in_order(alloc, &walk, table),
        },
    }
}

/// The map of a table, read bucket by bucket, so that the first bad link is found.
fn read_in_order(alloc: Global, walk: &Walk, table: Block) -> Result<BTreeMap<u64, Bytes>, MapFault>
    requires read { IsRead walk.now.scan.words.now walk.now.scan.directory.now
        walk.now.origins.now }
    requires shard { walk.now.shard < 8 }
    requires kind { kinds_of (slice_index walk.now.scan.words.now) walk.now.shard ≡ table_kind }
    requires table { HasTable (LeadsAlone (slice_index walk.now.scan.words.now) walk.now.shard)
        (slice_index walk.now.scan.words.now) walk.now.shard table }
    ensures ok { IfOk result (λ map.
        IsMap (LeadsAlone (slice_index walk.now.scan.words.now) walk.now.shard)
        (slice_index walk.now.scan.words.now) walk.now.shard (get nat_cmp map)) }
    ensures ordered { IfOk result (λ map. IsOrdered nat_cmp map) }
    ensures err { IfErr result (TellsBad (slice_index walk.now.scan.words.now) walk.now.shard) }
{
    let mut map = BTreeMap::new(alloc);
    for bucket in 0..BUCKETS {
        read_chain(alloc, walk, table, bucket, &mut map)?;
    }
    Ok(map)
}

/// Adds the keys and values of a bucket to those of the buckets before it.
fn read_chain(
    alloc: Global,
    walk: &Walk,
    table: Block,
    bucket: u64,
    map: &mut BTreeMap<u64, Bytes>,
) -> Result<(), MapFault>
    requires read { IsRead walk.now.scan.words.now walk.now.scan.directory.now
        walk.now.origins.now }
    requires shard { walk.now.shard < 8 }
    requires kind { kinds_of (slice_index walk.now.scan.words.now) walk.now.shard ≡ table_kind }
    requires table { HasTable (LeadsAlone (slice_index walk.now.scan.words.now) walk.now.shard)
        (slice_index walk.now.scan.words.now) walk.now.shard table }
    requires bucket { bucket < buckets }
    requires upto { IsMapUpTo (LeadsAlone (slice_index walk.now.scan.words.now) walk.now.shard)
        (slice_index walk.now.scan.words.now) walk.now.shard table bucket (get nat_cmp map.old) }
    requires ordered { IsOrdered nat_cmp map.old }
    ensures ok { OnOk result (IsMapUpTo
        (LeadsAlone (slice_index walk.now.scan.words.now) walk.now.shard)
        (slice_index walk.now.scan.words.now) walk.now.shard table (bucket + 1)
        (get nat_cmp map.new)) }
    ensures ordered { OnOk result (IsOrdered nat_cmp map.new) }
    ensures err { IfErr result (TellsBad (slice_index walk.now.scan.words.now) walk.now.shard) }
{
    let mut at = table.first_word + bucket;
    loop {
        let node = match walk.node(table, bucket, walk.scan.words[at as usize]) {
            Lead::Null => return Ok(()),
            Lead::Astray => return Err(walk.fault(at)),
            Lead::To(node) => node,
        };
        if !walk.add(alloc, node, map)? {
            return Err(walk.fault(at));
        }
        at = node.first_word;
    }
}
