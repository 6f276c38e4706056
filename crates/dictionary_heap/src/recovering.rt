//! What a crash left, as a dictionary at rest with its maps.
ghost use Rattle.std.specs.Prelude.{◌≡◌, ◌*◌, Some, Err, length, slice_index, IfOk, OnOk, IfErr};
ghost use Rattle.heap_model.specs.declared.header.BadHeader.{BadHeader};
ghost use Rattle.heap_model.specs.Header.{header_fault};
ghost use Rattle.dict_model.specs.Links.{kind_count};
ghost use Rattle.dictionary_heap.specs.Images.{current_image, CanBeRecovered};
ghost use Rattle.dictionary_heap.specs.Opened.{IsDictionaryOf};
ghost use Rattle.dictionary_heap.specs.Faults.{TellsFault};

use crate::fault::OpenFault;
use dictionary::{DictFilter, read_maps, root_kinds};
use heap_recover::recover;
use region_header::Bytes;
use std::alloc::Global;
use std::collections::BTreeMap;
use super_block::Ready;

/// A dictionary at rest.
#[derive(Drop)]
pub struct RecoveredDictionary {
    /// The heap, in which exactly the blocks are held that its roots reach.
    pub heap: Ready,
    /// The maps of its eight shards, in order.
    pub maps: Vec<BTreeMap<u64, Bytes>>,
}

/// Recovers an image, with the filter of the dictionary's tables and nodes, and reads the maps of
/// its shards. An image of the old version, which stores no kinds for its roots, gets those that
/// `format` gives.
///
/// It is refused for the first fault of its header; then for a word that is outside; then for the
/// lowest shard that has no map. Memory may run out at any time.
pub fn recover_dictionary(alloc: Global, image: &[u64]) -> Result<RecoveredDictionary, OpenFault>
    // the answer
    ensures ok { IfOk result (IsDictionaryOf (current_image image.now)) }

    // when it comes, and what comes else
    ensures good { OnOk result (CanBeRecovered image.now) }
    ensures cause { IfErr result (TellsFault image.now) }
    ensures header { (cause : BadHeader)
        → header_fault (Some kind_count) (8 * length image.now) (slice_index image.now)
        ≡ Some cause
        → result ≡ Err (OpenFault.Header cause) }
{
    let recovered = recover(alloc, image, &root_kinds(), &DictFilter)?;
    let maps = read_maps(alloc, &recovered)?;
    Ok(RecoveredDictionary {
        heap: recovered.heap,
        maps,
    })
}
