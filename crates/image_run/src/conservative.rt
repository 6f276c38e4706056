//! Recovers an image with no filter, and makes what is printed.
ghost use Rattle.std.specs.Prelude.{◌≡◌, ◌↔◌, ◌*◌, length, slice_index, IfOk, IsTrue};
ghost use Rattle.heap_model.specs.Geometry.{clean};
ghost use Rattle.heap_model.specs.Header.{IsWellFormed, state_of};
ghost use Rattle.image_run.specs.Conservative.{IsHeapText, TellsByWords};

use crate::reporting::with_map_behind;
use heap_recover::Recovered;
use mixed_trace::recover_current_conservatively;
use region_header::Bytes;
use std::alloc::{AllocError, Global};
use trace_text::report_text;

/// The report without keys on an image of this version with a good header, which is recovered with
/// no filter, and its map where that is asked for. It is known whether the image was closed. No
/// shard is read: what looks like a table need not be one.
pub fn conservative_text(
    alloc: Global,
    words: Vec<u64>,
    closed: bool,
    with_map: bool,
) -> Result<Bytes, AllocError>
    requires formed { IsWellFormed (8 * length words.items) (slice_index words.items) }
    requires closed { IsTrue closed ↔ (state_of (slice_index words.items) ≡ clean) }
    ensures ok { IfOk result (TellsByWords (slice_index words.items) with_map) }
{
    let recovered = recover_current_conservatively(alloc, words, closed)?;
    unkeyed_text(alloc, &recovered, with_map)
}

/// The report without keys on a heap that was opened, whatever way, and its map where that is asked
/// for.
pub(crate) fn unkeyed_text(
    alloc: Global,
    recovered: &Recovered,
    with_map: bool,
) -> Result<Bytes, AllocError>
    ensures ok { IfOk result (IsHeapText recovered.now with_map) }
{
    let report = report_text(alloc, recovered, None, false)?;
    with_map_behind(alloc, report, recovered, with_map)
}
