//! Recovery by modes.
ghost use Rattle.std.specs.Prelude.{◌≡◌, ◌↔◌, ◌*◌, ℕ, map, None, Some, Err, IsTrue, length, slice_index, IfOk, OnOk, IfErr};
ghost use Rattle.std.specs.List.{All};
ghost use Rattle.heap_model.specs.declared.header.BadHeader.{BadHeader};
ghost use Rattle.heap_model.specs.Geometry.{roots, clean};
ghost use Rattle.heap_model.specs.Header.{IsWellFormed, HasGoodHeader, header_fault, state_of};
ghost use Rattle.mixed_trace.specs.Reach.{modes_of, FitsBelow, IsReachedMixed, IsOutsideMixed};
ghost use Rattle.mixed_trace.specs.Recovery.{stored_kind, words_by_modes, TellsOutsideHere, TellsMixedFault};
ghost use Rattle.heap_recover.specs.Answer.{IsMadeOf};

use crate::mode::Mode;
use crate::worklist::trace_mixed;
use filter_trace::Filter;
use heap_recover::{InOrder, RecoverFault, Recovered, Was, current_copy, keep_marked};
use region_header::read_header;
use std::alloc::{AllocError, Global};

/// Recovers an image with these modes of what its roots lead to, which stand in place of the kinds
/// that it stores: exactly the blocks are held that the roots reach so. A kind that is stored and
/// that the filter has not is no fault. An image of the old version is first migrated with the
/// kinds of the modes, 0 where there is none.
pub fn recover_mixed<F: Filter>(
    alloc: Global,
    words: &[u64],
    modes: &[Mode],
    filter: &F,
) -> Result<Recovered, RecoverFault>
    requires roots { length modes.now ≡ roots }
    requires modes { All (FitsBelow F.KINDS) modes.now }

    // the answer
    ensures ok { IfOk result (IsMadeOf (words_by_modes words.now modes.now)
        (IsReachedMixed (slice_index (words_by_modes words.now modes.now)) (modes_of modes.now)
        (F.links_of filter.now))) }
    ensures was { IfOk result (λ answer.
        (answer.was ≡ Was.Clean) ↔ (state_of (slice_index words.now) ≡ clean)) }

    // when it comes, and what comes else
    ensures good { OnOk result
        (HasGoodHeader None (8 * length words.now) (slice_index words.now)) }
    ensures formed { OnOk result (IsWellFormed (8 * length (words_by_modes words.now modes.now))
        (slice_index (words_by_modes words.now modes.now))) }
    ensures none { OnOk result ((at : ℕ)
        → IsOutsideMixed (slice_index (words_by_modes words.now modes.now)) (modes_of modes.now)
        (F.links_of filter.now) at → ⊥) }
    ensures cause { IfErr result (TellsMixedFault words.now (words_by_modes words.now modes.now)
        (modes_of modes.now) (F.links_of filter.now)) }
    ensures header { (cause : BadHeader)
        → header_fault None (8 * length words.now) (slice_index words.now) ≡ Some cause
        → result ≡ Err (RecoverFault.Header cause) }
{
    // A bad header is told before there is memory for a copy.
    let header = read_header(words, None)?;
    let kinds = kinds_of(alloc, modes)?;
    let current = current_copy(alloc, words, header.version, &kinds)?;
    recover_current(alloc, current, header.clean, modes, filter)
}

/// Recovers an image of this version with a good header.
pub fn recover_current<F: Filter>(
    alloc: Global,
    words: Vec<u64>,
    closed: bool,
    modes: &[Mode],
    filter: &F,
) -> Result<Recovered, RecoverFault>
    requires formed { IsWellFormed (8 * length words.items) (slice_index words.items) }
    requires closed { IsTrue closed ↔ (state_of (slice_index words.items) ≡ clean) }
    requires roots { length modes.now ≡ roots }
    requires modes { All (FitsBelow F.KINDS) modes.now }
    ensures ok { IfOk result (IsMadeOf words.items
        (IsReachedMixed (slice_index words.items) (modes_of modes.now) (F.links_of filter.now))) }
    ensures none { OnOk result ((at : ℕ) → IsOutsideMixed (slice_index words.items)
        (modes_of modes.now) (F.links_of filter.now) at → ⊥) }
    ensures cause { IfErr result (TellsOutsideHere (slice_index words.items) (modes_of modes.now)
        (F.links_of filter.now)) }
{
    let marks = trace_mixed(alloc, &words, modes, filter)?;
    let recovered = keep_marked(alloc, words, &marks.marks, closed, &InOrder)?;
    Ok(recovered)
}

/// The kinds that an image stores for roots of these modes.
fn kinds_of(alloc: Global, modes: &[Mode]) -> Result<Vec<u32>, AllocError>
    ensures ok { IfOk result (λ kinds. kinds.items ≡ map stored_kind modes.now) }
{
    let mut kinds = Vec::new(alloc);
    for mode in modes.iter() {
        kinds.push(mode.stored_kind())?;
    }
    Ok(kinds)
}
