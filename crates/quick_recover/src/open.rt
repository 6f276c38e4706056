//! The call that opens an image without a trace where it can.
ghost use Rattle.std.specs.Prelude.{◌≡◌, ◌↔◌, ◌<◌, ◌*◌, ◌^◌, ℕ, All, Some, Err, length, slice_index, IfOk, OnOk, IfErr, IsTrue};
ghost use Rattle.heap_model.specs.declared.header.BadHeader.{BadHeader};
ghost use Rattle.heap_model.specs.Geometry.{roots, clean};
ghost use Rattle.heap_model.specs.Header.{IsWellFormed, HasGoodHeader, HasKindsBelow, header_fault, state_of};
ghost use Rattle.heap_model.specs.Reach.{IsOutsideIn, IsReachedIn};
ghost use Rattle.region_header.specs.Migration.{current_words};
ghost use Rattle.heap_at_rest.specs.Orderly.{IsOrderly, IsHeldByAnchors};
ghost use Rattle.heap_recover.specs.Answer.{IsMadeOf};
ghost use Rattle.heap_recover.specs.Fault.{TellsFault, TellsOutsideIn};
ghost use Rattle.quick_recover.specs.Reopened.{IsReopenedAs};
ghost use Rattle.quick_recover.specs.Opened.{IsOpenedAs};

use crate::reading::read_anchors;
use crate::reopen::reopen;
use filter_trace::Filter;
use heap_recover::{InOrder, RecoverFault, Recovered, Was, current_copy, recover_current};
use region_header::{current, read_header};
use std::alloc::Global;

/// How an image was opened.
#[derive(Clone, Copy, PartialEq, Eq, Debug)]
pub enum Path {
    /// By its own anchors: it was closed, and tells what it holds.
    Quick,
    /// By a trace of what its roots reach, as by recovery.
    Traced,
}

/// An image that was opened.
#[derive(Drop)]
pub struct Quick {
    /// The heap, as recovery gives it.
    pub recovered: Recovered,
    /// How it was found.
    pub path: Path,
}

/// Opens an image: by its own anchors where it is orderly, with no look at roots and links, and
/// else by recovery. Of an orderly image exactly the blocks are held that its anchors hold. Those
/// are the reached ones where the program that closed it had freed all others. An image of the old
/// version is first migrated with `kinds`, and these have no other use.
///
/// The time of the quick way grows with the superblocks, the held blocks and the free blocks of
/// partial superblocks. The faults are those of recovery: `Header` with the first cause, and on the
/// traced way `Outside` where a root or link leads to no block. `Memory` may come at any image.
pub fn quick_open<F: Filter>(
    alloc: Global,
    words: &[u64],
    kinds: &[u32],
    filter: &F,
) -> Result<Quick, RecoverFault>
    requires roots { length kinds.now ≡ roots }
    requires kinds { All (λ kind. kind < F.KINDS) kinds.now }

    // which way
    ensures path { IfOk result (λ answer. (answer.path ≡ Path.Quick)
        ↔ IsOrderly (Some F.KINDS) (8 * length (current_words words.now kinds.now))
        (slice_index (current_words words.now kinds.now))) }
    ensures sure { HasGoodHeader (Some F.KINDS) (8 * length words.now) (slice_index words.now)
        → IsOrderly (Some F.KINDS) (8 * length (current_words words.now kinds.now))
        (slice_index (current_words words.now kinds.now))
        → IfErr result (λ fault. fault ≡ RecoverFault.Memory) }

    // the answer
    ensures quick { IfOk result (λ answer. answer.path ≡ Path.Quick
        → IsReopenedAs (current_words words.now kinds.now)
        (IsHeldByAnchors (slice_index (current_words words.now kinds.now))) answer.recovered) }
    ensures traced { IfOk result (λ answer. answer.path ≡ Path.Traced
        → IsMadeOf (current_words words.now kinds.now)
        (IsReachedIn (slice_index (current_words words.now kinds.now)) (F.links_of filter.now))
        answer.recovered) }
    ensures was { IfOk result (λ answer.
        (answer.recovered.was ≡ Was.Clean) ↔ (state_of (slice_index words.now) ≡ clean)) }
    ensures kinds { IfOk result (λ answer.
        HasKindsBelow (Some F.KINDS) (slice_index answer.recovered.heap.words)) }

    // when it comes, and what comes else
    ensures good { OnOk result
        (HasGoodHeader (Some F.KINDS) (8 * length words.now) (slice_index words.now)) }
    ensures formed { OnOk result (IsWellFormed (8 * length (current_words words.now kinds.now))
        (slice_index (current_words words.now kinds.now))) }
    ensures none { IfOk result (λ answer. answer.path ≡ Path.Traced → (at : ℕ)
        → IsOutsideIn (slice_index (current_words words.now kinds.now))
        (F.links_of filter.now) at → ⊥) }
    ensures cause { IfErr result (TellsFault (Some F.KINDS) words.now
        (current_words words.now kinds.now) (F.links_of filter.now)) }
    ensures header { (cause : BadHeader)
        → header_fault (Some F.KINDS) (8 * length words.now) (slice_index words.now) ≡ Some cause
        → result ≡ Err (RecoverFault.Header cause) }
{
    // A bad header is told before there is memory for a copy.
    let header = read_header(words, Some(F::KINDS))?;
    let current = current_copy(alloc, words, header.version, kinds)?;
    quick_open_current(alloc, current, header.clean, filter)
}

/// The same in the room of the image, which is gone where it is refused.
pub fn quick_open_owned<F: Filter>(
    alloc: Global,
    words: Vec<u64>,
    kinds: &[u32],
    filter: &F,
) -> Result<Quick, RecoverFault>
    requires roots { length kinds.now ≡ roots }
    requires kinds { All (λ kind. kind < F.KINDS) kinds.now }

    // which way
    ensures path { IfOk result (λ answer. (answer.path ≡ Path.Quick)
        ↔ IsOrderly (Some F.KINDS) (8 * length (current_words words.items kinds.now))
        (slice_index (current_words words.items kinds.now))) }
    ensures sure { HasGoodHeader (Some F.KINDS) (8 * length words.items) (slice_index words.items)
        → IsOrderly (Some F.KINDS) (8 * length (current_words words.items kinds.now))
        (slice_index (current_words words.items kinds.now))
        → IfErr result (λ fault. fault ≡ RecoverFault.Memory) }

    // the answer
    ensures quick { IfOk result (λ answer. answer.path ≡ Path.Quick
        → IsReopenedAs (current_words words.items kinds.now)
        (IsHeldByAnchors (slice_index (current_words words.items kinds.now))) answer.recovered) }
    ensures traced { IfOk result (λ answer. answer.path ≡ Path.Traced
        → IsMadeOf (current_words words.items kinds.now)
        (IsReachedIn (slice_index (current_words words.items kinds.now)) (F.links_of filter.now))
        answer.recovered) }
    ensures was { IfOk result (λ answer.
        (answer.recovered.was ≡ Was.Clean) ↔ (state_of (slice_index words.items) ≡ clean)) }
    ensures kinds { IfOk result (λ answer.
        HasKindsBelow (Some F.KINDS) (slice_index answer.recovered.heap.words)) }

    // when it comes, and what comes else
    ensures good { OnOk result
        (HasGoodHeader (Some F.KINDS) (8 * length words.items) (slice_index words.items)) }
    ensures formed { OnOk result (IsWellFormed (8 * length (current_words words.items kinds.now))
        (slice_index (current_words words.items kinds.now))) }
    ensures none { IfOk result (λ answer. answer.path ≡ Path.Traced → (at : ℕ)
        → IsOutsideIn (slice_index (current_words words.items kinds.now))
        (F.links_of filter.now) at → ⊥) }
    ensures cause { IfErr result (TellsFault (Some F.KINDS) words.items
        (current_words words.items kinds.now) (F.links_of filter.now)) }
    ensures header { (cause : BadHeader)
        → header_fault (Some F.KINDS) (8 * length words.items) (slice_index words.items)
        ≡ Some cause
        → result ≡ Err (RecoverFault.Header cause) }
{
    let header = read_header(&words, Some(F::KINDS))?;
    let current = current(words, kinds)?;
    quick_open_current(alloc, current, header.clean, filter)
}

/// Opens an image of this version with a good header, of which it is known whether it was closed.
pub fn quick_open_current<F: Filter>(
    alloc: Global,
    words: Vec<u64>,
    closed: bool,
    filter: &F,
) -> Result<Quick, RecoverFault>
    requires formed { IsWellFormed (8 * length words.items) (slice_index words.items) }
    requires below { HasKindsBelow (Some F.KINDS) (slice_index words.items) }
    requires few { F.KINDS < 2 ^ 32 }
    requires closed { IsTrue closed ↔ (state_of (slice_index words.items) ≡ clean) }
    ensures ok { IfOk result (IsOpenedAs (Some F.KINDS) words.items (F.links_of filter.now)) }
    ensures sure { IsOrderly (Some F.KINDS) (8 * length words.items) (slice_index words.items)
        → IfErr result (λ fault. fault ≡ RecoverFault.Memory) }
    ensures cause { IfErr result
        (TellsOutsideIn (slice_index words.items) (F.links_of filter.now)) }
{
    if !closed {
        return trace_current(alloc, words, closed, filter);
    }
    match read_anchors(alloc, &words)? {
        Some(found) => {
            let recovered = reopen(alloc, words, found)?;
            Ok(Quick {
                recovered,
                path: Path::Quick,
            })
        }
        None => trace_current(alloc, words, closed, filter),
    }
}

/// Opens an image that is not orderly.
fn trace_current<F: Filter>(
    alloc: Global,
    words: Vec<u64>,
    closed: bool,
    filter: &F,
) -> Result<Quick, RecoverFault>
    requires formed { IsWellFormed (8 * length words.items) (slice_index words.items) }
    requires below { HasKindsBelow (Some F.KINDS) (slice_index words.items) }
    requires few { F.KINDS < 2 ^ 32 }
    requires closed { IsTrue closed ↔ (state_of (slice_index words.items) ≡ clean) }
    requires disorderly { IsOrderly (Some F.KINDS) (8 * length words.items)
        (slice_index words.items) → ⊥ }
    ensures ok { IfOk result (IsOpenedAs (Some F.KINDS) words.items (F.links_of filter.now)) }
    ensures cause { IfErr result
        (TellsOutsideIn (slice_index words.items) (F.links_of filter.now)) }
{
    let recovered = recover_current(alloc, words, closed, filter, &InOrder)?;
    Ok(Quick {
        recovered,
        path: Path::Traced,
    })
}
