//! Recovers the image that a command left, in its own room.
ghost use Rattle.std.specs.Prelude.{◌≡◌, ◌*◌, ℕ, length, slice_index, IfOk, IfErr, OnOk, Some, None};
ghost use Rattle.heap_model.specs.Geometry.{version, version_word};
ghost use Rattle.heap_model.specs.Header.{header_fault};
ghost use Rattle.dict_model.specs.Links.{kind_count};
ghost use Rattle.image_run.specs.Reporting.{IsRecoveredHeap, PointsOutside};
ghost use Rattle.image_run.specs.Replaying.{StopsReport};

use crate::fault::ReplayFault;
use dictionary::{DictFilter, root_kinds};
use heap_recover::{RecoverFault, Recovered, recover_owned};
use std::alloc::{AllocError, Global};

/// Recovers an image of this version with a good header.
pub(crate) fn recover_left(alloc: Global, words: Vec<u64>) -> Result<Recovered, ReplayFault>
    requires good { header_fault (Some kind_count) (8 * length words.items)
        (slice_index words.items) ≡ None }
    requires version { slice_index words.items version_word ≡ version }
    ensures ok { IfOk result (IsRecoveredHeap (slice_index words.items)) }
    ensures inside { OnOk result
        ((at : ℕ) → PointsOutside (slice_index words.items) at → ⊥) }
    ensures err { IfErr result (StopsReport (slice_index words.items)) }
{
    match recover_owned(alloc, words, &root_kinds(), &DictFilter) {
        Ok(recovered) => Ok(recovered),
        Err(RecoverFault::Memory) => Err(ReplayFault::Memory),
        Err(RecoverFault::Header(_)) => unreachable!(),
        Err(RecoverFault::Outside { at, value }) => Err(ReplayFault::Outside { at, value }),
    }
}

/// Recovers such an image in which nothing points outside, so that it is never refused.
pub(crate) fn recover_inside(alloc: Global, words: Vec<u64>) -> Result<Recovered, AllocError>
    requires good { header_fault (Some kind_count) (8 * length words.items)
        (slice_index words.items) ≡ None }
    requires version { slice_index words.items version_word ≡ version }
    requires inside { (at : ℕ) → PointsOutside (slice_index words.items) at → ⊥ }
    ensures { IfOk result (IsRecoveredHeap (slice_index words.items)) }
{
    match recover_left(alloc, words) {
        Ok(recovered) => Ok(recovered),
        Err(ReplayFault::Memory) => Err(AllocError),
        Err(ReplayFault::Outside { at: _, value: _ }) => unreachable!(),
    }
}
