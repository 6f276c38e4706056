//! The text on a recovered heap.
ghost use Rattle.std.specs.Prelude.{◌≡◌, ◌++◌, IfOk};
ghost use Rattle.heap_model.specs.Image.{Image};
ghost use Rattle.image_run.specs.Reporting.{IsRecoveredHeap, IsTextOf, TellsHeap, map_if};

use heap_recover::Recovered;
use region_header::Bytes;
use std::alloc::{AllocError, Global};
use std::collections::BTreeMap;
use trace_text::{map_text, report_text};

/// The report on a recovered heap and its keys, one by one or with `sum` summed up, and its map
/// where that is asked for.
pub fn recovered_text(
    alloc: Global,
    recovered: &Recovered,
    maps: &[BTreeMap<u64, Bytes>],
    with_sum: bool,
    with_map: bool,
) -> Result<Bytes, AllocError>
    ensures ok { IfOk result (IsTextOf recovered.now maps.now with_sum with_map) }
{
    let report = report_text(alloc, recovered, Some(maps), with_sum)?;
    with_map_behind(alloc, report, recovered, with_map)
}

/// The report on a heap, and behind it the heap's map where that is asked for.
pub(crate) fn with_map_behind(
    alloc: Global,
    report: Bytes,
    recovered: &Recovered,
    with_map: bool,
) -> Result<Bytes, AllocError>
    ensures ok { IfOk result (λ text. text ≡ report ++ map_if recovered.now with_map) }
{
    if !with_map {
        return Ok(report);
    }
    let mut text = report.into_vec();
    text.extend_from_slice(map_text(alloc, recovered)?.as_slice())?;
    Ok(Bytes::from_vec(text))
}

/// The report on a recovered heap, without its keys.
pub(crate) fn heap_text(alloc: Global, recovered: &Recovered) -> Result<Bytes, AllocError>
    ensures { IfOk result (λ text. (image : Image) → IsRecoveredHeap image recovered.now
        → TellsHeap image text) }
{
    report_text(alloc, recovered, None, false)
}
