//! A heap whose shards were read.
ghost use Rattle.std.specs.Prelude.{◌≡◌, Some, slice_index, IfOk, IfErr};
ghost use Rattle.heap_model.specs.Header.{HasKindsBelow, kinds_of};
ghost use Rattle.heap_model.specs.Rest.{IsReady};
ghost use Rattle.root_reach.specs.Reaching.{AreOrigins};
ghost use Rattle.dict_model.specs.Links.{shards, kind_count, dict_links};
ghost use Rattle.dictionary.specs.Mapped.{HaveMaps};
ghost use Rattle.dictionary.specs.Reading.{AreMaps, TellsLowest};

use crate::fault::MapFault;
use crate::read::trace_maps;
use region_header::Bytes;
use root_reach::Origins;
use std::alloc::Global;
use std::collections::BTreeMap;
use std::marker::Model;
use super_block::Ready;

/// A heap at rest each of whose shards has a map, with what reading these told, so that whoever
/// works on need not read or trace again. It has room for some six bytes for each word of the
/// image, besides the maps.
#[derive(Drop)]
pub struct MappedHeap {
    heap: Ready,
    maps: Vec<BTreeMap<u64, Bytes>>,
    origins: Origins,
}

impl Model for MappedHeap {
    ghost use Rattle.super_block.specs.Contents.{Contents};
    ghost use Rattle.dictionary.specs.Mapped.{IsMappedHeap};

    ghost Value = { Contents };

    ghost view = { λ a. a.heap };

    ghost invariant = { λ a. IsMappedHeap a.heap a.maps.items a.origins };
}

impl MappedHeap {
    /// Reads the shards of the heap. Where shards have no map the lowest of them is told.
    pub fn read(alloc: Global, heap: Ready) -> Result<MappedHeap, MapFault>
        requires { HasKindsBelow (Some kind_count) (slice_index heap.words) }
        ensures heap { IfOk result (λ mapped. mapped ≡ heap) }
        ensures ok { IfOk result (λ _. HaveMaps (slice_index heap.words)) }
        ensures err { IfErr result (TellsLowest (slice_index heap.words)) }
        ensures ready { IsReady heap.words heap.held }
    {
        let traced = trace_maps(alloc, &heap)?;
        Ok(MappedHeap {
            heap,
            maps: traced.maps,
            origins: traced.origins,
        })
    }

    /// The heap.
    pub fn heap(&self) -> &Ready
        ensures { result.now ≡ self.now }
    {
        &self.heap
    }

    /// Which roots reach each of its blocks.
    pub fn origins(&self) -> &Origins
        ensures { AreOrigins (slice_index self.now.words)
            (kinds_of (slice_index self.now.words)) dict_links result.now }
    {
        &self.origins
    }

    /// The heap and the maps of its shards. Which roots reach a block is forgotten, and its room
    /// given back.
    pub fn into_parts(self) -> (Ready, Vec<BTreeMap<u64, Bytes>>)
        ensures heap { result.0 ≡ self }
        ensures maps { AreMaps (slice_index self.words) shards result.1.items }
        ensures ready { IsReady self.words self.held }
    {
        let _words = self.heap.words();
        (self.heap, self.maps)
    }
}
