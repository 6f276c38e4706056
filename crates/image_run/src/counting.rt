//! Opens an image, and makes what is printed.
ghost use Rattle.std.specs.Prelude.{◌≡◌, ◌↔◌, ◌*◌, Some, length, slice_index, IfOk, IfErr, IsTrue};
ghost use Rattle.heap_model.specs.Geometry.{clean};
ghost use Rattle.heap_model.specs.Header.{IsWellFormed, HasKindsBelow, state_of};
ghost use Rattle.dict_model.specs.Links.{dict_links, kind_count};
ghost use Rattle.heap_recover.specs.Fault.{TellsOutsideIn};
ghost use Rattle.image_run.specs.Counting.{IsOpenedText, IsOrderlyImage, TellsOpened};

use crate::conservative::unkeyed_text;
use dictionary::DictFilter;
use heap_recover::RecoverFault;
use quick_recover::{Path, Quick, quick_open_current};
use region_header::Bytes;
use std::alloc::{AllocError, Global};

/// The way by which an image of this version with a good header is opened, the report without keys
/// on its heap, and its map where that is asked for. It is known whether the image was closed. It is
/// opened by its own anchors where it is orderly, and else recovered. No shard is read.
///
/// The faults are those of recovery. `Outside` comes of an image alone that is not orderly, and
/// `Memory` may come at any image.
pub fn count_text(
    alloc: Global,
    words: Vec<u64>,
    closed: bool,
    with_map: bool,
) -> Result<Bytes, RecoverFault>
    requires formed { IsWellFormed (8 * length words.items) (slice_index words.items) }
    requires below { HasKindsBelow (Some kind_count) (slice_index words.items) }
    requires closed { IsTrue closed ↔ (state_of (slice_index words.items) ≡ clean) }
    ensures ok { IfOk result (TellsOpened words.items with_map) }
    ensures sure { IsOrderlyImage words.items
        → IfErr result (λ fault. fault ≡ RecoverFault.Memory) }
    ensures cause { IfErr result (TellsOutsideIn (slice_index words.items) dict_links) }
{
    let opened = quick_open_current(alloc, words, closed, &DictFilter)?;
    let text = opened_text(alloc, &opened, with_map)?;
    Ok(text)
}

// The line of the way, and the report on the heap.
fn opened_text(alloc: Global, opened: &Quick, with_map: bool) -> Result<Bytes, AllocError>
    ensures ok { IfOk result (IsOpenedText opened.now with_map) }
{
    let mut text = Vec::new(alloc);
    let way = match opened.path {
        Path::Quick => "quick\n",
        Path::Traced => "traced\n",
    };
    text.extend_from_slice(way.as_bytes())?;
    text.extend_from_slice(unkeyed_text(alloc, &opened.recovered, with_map)?.as_slice())?;
    Ok(Bytes::from_vec(text))
}
