//! Images of empty heaps, what recovery makes of images, with the dictionary's filter, and why that
//! has a bad shard.
ghost use Rattle.std.specs.Prelude.{◌≤◌, ◌<◌, IfOk, Some, slice_index};
ghost use Rattle.heap_model.specs.Header.{HasKindsBelow};
ghost use Rattle.dict_model.specs.Links.{kind_count};

use dictionary::{DictFilter, MapFault, read_map, read_maps, root_kinds};
use heap_recover::{Recovered, recover};
use region_header::format;
use std::alloc::{AllocError, Global};
use std::test::Fail;

/// The image of an empty heap of up to sixteen superblocks.
#[tactic(auto, unfolding(heap_model::specs::Geometry::largest_capacity))]
pub fn empty(alloc: Global, capacity: u64) -> Result<Vec<u64>, AllocError>
    requires some { 1 ≤ capacity }
    requires small { capacity ≤ 16 }
{
    format(alloc, capacity)
}

pub fn recovered(alloc: Global, image: &[u64]) -> Result<Recovered, Fail>
    ensures { IfOk result (λ heap.
        HasKindsBelow (Some kind_count) (slice_index heap.heap.words)) }
{
    Ok(recover(alloc, image, &root_kinds(), &DictFilter)?)
}

/// What is told of the shard, if it is bad.
pub fn fault_in(alloc: Global, heap: &Recovered, shard: usize) -> Option<MapFault>
    requires shard { shard < 8 }
    requires kinds { HasKindsBelow (Some kind_count) (slice_index heap.now.heap.words) }
{
    read_map(alloc, heap, shard).err()
}

/// What is told of all shards, if one is bad.
pub fn first_fault_in(alloc: Global, heap: &Recovered) -> Option<MapFault>
    requires { HasKindsBelow (Some kind_count) (slice_index heap.now.heap.words) }
{
    read_maps(alloc, heap).err()
}
