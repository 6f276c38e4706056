//! The call that recovers an image.
ghost use Rattle.std.specs.Prelude.{◌≡◌, ◌↔◌, ◌<◌, ◌*◌, ◌^◌, ℕ, All, None, Some, Err, length, slice_index, IfOk, OnOk, IfErr, IsTrue};
ghost use Rattle.heap_model.specs.declared.block.Block.{Block};
ghost use Rattle.heap_model.specs.declared.header.BadHeader.{BadHeader};
ghost use Rattle.heap_model.specs.Geometry.{roots, clean, version_word};
ghost use Rattle.heap_model.specs.Header.{IsWellFormed, HasGoodHeader, HasKindsBelow, header_fault, state_of};
ghost use Rattle.heap_model.specs.Blocks.{layout_of};
ghost use Rattle.heap_model.specs.Reach.{IsOutsideIn, IsReachedIn};
ghost use Rattle.heap_model.specs.Recovered.{IsFreeSuperblock, AreAscending};
ghost use Rattle.heap_model.specs.Recovery.{IsRecovered};
ghost use Rattle.super_block.specs.Division.{Describes};
ghost use Rattle.region_header.specs.Migration.{current_words};
ghost use Rattle.heap_recover.specs.Marked.{IsMarked, KeepsBlocks};
ghost use Rattle.heap_recover.specs.Fault.{IsRefusedFor, TellsFault, TellsOutsideIn, TellsStoredFault};
ghost use Rattle.heap_recover.specs.Answer.{IsMadeOf};

use crate::answer::{Recovered, Was};
use crate::chain_links::members;
use crate::fault::RecoverFault;
use crate::passes::rebuild;
use crate::taken::{InOrder, RebuildPass};
use filter_trace::{Filter, Marks, trace};
use heap_model::BadHeader;
use region_header::{current, migrate, read_header};
use std::alloc::{AllocError, Global};
use super_block::{FREE_LIST, OLD_VERSION, Ready};

/// Recovers an image: makes of any words a heap at rest in which exactly the blocks are held that
/// the roots reach through the links of the filter. The kinds of what the roots lead to are those
/// that the image stores; an image of the old version, which stores none, is first migrated with
/// `kinds`, and these have no other use. Time and memory grow with the image. It is Ralloc's
/// recovery: trace, then rebuild all else.
pub fn recover<F: Filter>(
    alloc: Global,
    words: &[u64],
    kinds: &[u32],
    filter: &F,
) -> Result<Recovered, RecoverFault>
    requires roots { length kinds.now ≡ roots }
    requires kinds { All (λ kind. kind < F.KINDS) kinds.now }

    // the answer
    ensures held { IfOk result (λ answer. AreAscending (λ (b : Block). b.first_word)
        (IsReachedIn (slice_index (current_words words.now kinds.now)) (F.links_of filter.now))
        answer.heap.held) }
    ensures free { IfOk result (λ answer. AreAscending (λ d. d)
        (IsFreeSuperblock (layout_of (slice_index (current_words words.now kinds.now)))
        (IsReachedIn (slice_index (current_words words.now kinds.now)) (F.links_of filter.now)))
        answer.free.items) }
    ensures was { IfOk result (λ answer.
        (answer.was ≡ Was.Clean) ↔ (state_of (slice_index words.now) ≡ clean)) }
    ensures long { IfOk result (λ answer.
        length answer.heap.words ≡ length (current_words words.now kinds.now)) }
    ensures words { IfOk result (λ answer.
        IsRecovered (slice_index (current_words words.now kinds.now))
        (slice_index answer.heap.words)
        (IsReachedIn (slice_index (current_words words.now kinds.now)) (F.links_of filter.now))) }
    ensures kinds { IfOk result (λ answer.
        HasKindsBelow (Some F.KINDS) (slice_index answer.heap.words)) }

    // when it comes, and what comes else
    ensures good { OnOk result
        (HasGoodHeader (Some F.KINDS) (8 * length words.now) (slice_index words.now)) }
    ensures formed { OnOk result (IsWellFormed (8 * length (current_words words.now kinds.now))
        (slice_index (current_words words.now kinds.now))) }
    ensures none { OnOk result ((at : ℕ)
        → IsOutsideIn (slice_index (current_words words.now kinds.now))
        (F.links_of filter.now) at → ⊥) }
    ensures cause { IfErr result (TellsFault (Some F.KINDS) words.now
        (current_words words.now kinds.now) (F.links_of filter.now)) }
    ensures header { (cause : BadHeader)
        → header_fault (Some F.KINDS) (8 * length words.now) (slice_index words.now) ≡ Some cause
        → result ≡ Err (RecoverFault.Header cause) }
{
    recover_by(alloc, words, kinds, filter, &InOrder)
}

/// Recovers an image of this version by the kinds that it stores for its roots. An image of the old
/// version stores none, and is refused by `Header(Version)` where its header is good.
pub fn recover_with_stored_kinds<F: Filter>(
    alloc: Global,
    words: &[u64],
    filter: &F,
) -> Result<Recovered, RecoverFault>
    // the answer
    ensures ok { IfOk result (IsMadeOf words.now
        (IsReachedIn (slice_index words.now) (F.links_of filter.now))) }
    ensures kinds { IfOk result (λ answer.
        HasKindsBelow (Some F.KINDS) (slice_index answer.heap.words)) }

    // when it comes, and what comes else
    ensures formed { OnOk result (IsWellFormed (8 * length words.now) (slice_index words.now)) }
    ensures below { OnOk result (HasKindsBelow (Some F.KINDS) (slice_index words.now)) }
    ensures none { OnOk result ((at : ℕ)
        → IsOutsideIn (slice_index words.now) (F.links_of filter.now) at → ⊥) }
    ensures cause { IfErr result
        (TellsStoredFault (Some F.KINDS) words.now (F.links_of filter.now)) }
    ensures header { (cause : BadHeader)
        → IsRefusedFor (Some F.KINDS) (8 * length words.now) (slice_index words.now) cause
        → result ≡ Err (RecoverFault.Header cause) }
{
    let header = read_header(words, Some(F::KINDS))?;
    if header.version == OLD_VERSION {
        return Err(RecoverFault::Header(BadHeader::Version));
    }
    let current = Vec::from_slice(alloc, words)?;
    recover_current(alloc, current, header.clean, filter, &InOrder)
}

/// The same in the room of the image, which is gone where it is refused.
pub fn recover_owned<F: Filter>(
    alloc: Global,
    words: Vec<u64>,
    kinds: &[u32],
    filter: &F,
) -> Result<Recovered, RecoverFault>
    requires roots { length kinds.now ≡ roots }
    requires kinds { All (λ kind. kind < F.KINDS) kinds.now }

    // the answer
    ensures ok { IfOk result (IsMadeOf (current_words words.items kinds.now)
        (IsReachedIn (slice_index (current_words words.items kinds.now)) (F.links_of filter.now))) }
    ensures was { IfOk result (λ answer.
        (answer.was ≡ Was.Clean) ↔ (state_of (slice_index words.items) ≡ clean)) }
    ensures kinds { IfOk result (λ answer.
        HasKindsBelow (Some F.KINDS) (slice_index answer.heap.words)) }

    // when it comes, and what comes else
    ensures good { OnOk result
        (HasGoodHeader (Some F.KINDS) (8 * length words.items) (slice_index words.items)) }
    ensures formed { OnOk result (IsWellFormed (8 * length (current_words words.items kinds.now))
        (slice_index (current_words words.items kinds.now))) }
    ensures none { OnOk result ((at : ℕ)
        → IsOutsideIn (slice_index (current_words words.items kinds.now))
        (F.links_of filter.now) at → ⊥) }
    ensures cause { IfErr result (TellsFault (Some F.KINDS) words.items
        (current_words words.items kinds.now) (F.links_of filter.now)) }
    ensures header { (cause : BadHeader)
        → header_fault (Some F.KINDS) (8 * length words.items) (slice_index words.items)
        ≡ Some cause
        → result ≡ Err (RecoverFault.Header cause) }
{
    recover_owned_by(alloc, words, kinds, filter, &InOrder)
}

/// The same, with this pass over the superblocks that have been taken.
pub fn recover_by<F: Filter, P: RebuildPass>(
    alloc: Global,
    words: &[u64],
    kinds: &[u32],
    filter: &F,
    pass: &P,
) -> Result<Recovered, RecoverFault>
    requires ready { P.ready pass.now }
    requires roots { length kinds.now ≡ roots }
    requires kinds { All (λ kind. kind < F.KINDS) kinds.now }

    // the answer
    ensures held { IfOk result (λ answer. AreAscending (λ (b : Block). b.first_word)
        (IsReachedIn (slice_index (current_words words.now kinds.now)) (F.links_of filter.now))
        answer.heap.held) }
    ensures free { IfOk result (λ answer. AreAscending (λ d. d)
        (IsFreeSuperblock (layout_of (slice_index (current_words words.now kinds.now)))
        (IsReachedIn (slice_index (current_words words.now kinds.now)) (F.links_of filter.now)))
        answer.free.items) }
    ensures was { IfOk result (λ answer.
        (answer.was ≡ Was.Clean) ↔ (state_of (slice_index words.now) ≡ clean)) }
    ensures long { IfOk result (λ answer.
        length answer.heap.words ≡ length (current_words words.now kinds.now)) }
    ensures words { IfOk result (λ answer.
        IsRecovered (slice_index (current_words words.now kinds.now))
        (slice_index answer.heap.words)
        (IsReachedIn (slice_index (current_words words.now kinds.now)) (F.links_of filter.now))) }
    ensures kinds { IfOk result (λ answer.
        HasKindsBelow (Some F.KINDS) (slice_index answer.heap.words)) }

    // when it comes, and what comes else
    ensures good { OnOk result
        (HasGoodHeader (Some F.KINDS) (8 * length words.now) (slice_index words.now)) }
    ensures formed { OnOk result (IsWellFormed (8 * length (current_words words.now kinds.now))
        (slice_index (current_words words.now kinds.now))) }
    ensures none { OnOk result ((at : ℕ)
        → IsOutsideIn (slice_index (current_words words.now kinds.now))
        (F.links_of filter.now) at → ⊥) }
    ensures cause { IfErr result (TellsFault (Some F.KINDS) words.now
        (current_words words.now kinds.now) (F.links_of filter.now)) }
    ensures header { (cause : BadHeader)
        → header_fault (Some F.KINDS) (8 * length words.now) (slice_index words.now) ≡ Some cause
        → result ≡ Err (RecoverFault.Header cause) }
{
    // A bad header is told before there is memory for a copy.
    let header = read_header(words, Some(F::KINDS))?;
    let current = current_copy(alloc, words, header.version, kinds)?;
    recover_current(alloc, current, header.clean, filter, pass)
}

/// The same, with this pass over the superblocks that have been taken.
pub fn recover_owned_by<F: Filter, P: RebuildPass>(
    alloc: Global,
    words: Vec<u64>,
    kinds: &[u32],
    filter: &F,
    pass: &P,
) -> Result<Recovered, RecoverFault>
    requires ready { P.ready pass.now }
    requires roots { length kinds.now ≡ roots }
    requires kinds { All (λ kind. kind < F.KINDS) kinds.now }

    // the answer
    ensures ok { IfOk result (IsMadeOf (current_words words.items kinds.now)
        (IsReachedIn (slice_index (current_words words.items kinds.now)) (F.links_of filter.now))) }
    ensures was { IfOk result (λ answer.
        (answer.was ≡ Was.Clean) ↔ (state_of (slice_index words.items) ≡ clean)) }
    ensures kinds { IfOk result (λ answer.
        HasKindsBelow (Some F.KINDS) (slice_index answer.heap.words)) }

    // when it comes, and what comes else
    ensures good { OnOk result
        (HasGoodHeader (Some F.KINDS) (8 * length words.items) (slice_index words.items)) }
    ensures formed { OnOk result (IsWellFormed (8 * length (current_words words.items kinds.now))
        (slice_index (current_words words.items kinds.now))) }
    ensures none { OnOk result ((at : ℕ)
        → IsOutsideIn (slice_index (current_words words.items kinds.now))
        (F.links_of filter.now) at → ⊥) }
    ensures cause { IfErr result (TellsFault (Some F.KINDS) words.items
        (current_words words.items kinds.now) (F.links_of filter.now)) }
    ensures header { (cause : BadHeader)
        → header_fault (Some F.KINDS) (8 * length words.items) (slice_index words.items)
        ≡ Some cause
        → result ≡ Err (RecoverFault.Header cause) }
{
    let header = read_header(&words, Some(F::KINDS))?;
    let current = current(words, kinds)?;
    recover_current(alloc, current, header.clean, filter, pass)
}

/// A copy of the words of an image with a good header, in this version.
pub fn current_copy(
    alloc: Global,
    words: &[u64],
    version: u64,
    kinds: &[u32],
) -> Result<Vec<u64>, AllocError>
    requires good { HasGoodHeader None (8 * length words.now) (slice_index words.now) }
    requires version { version ≡ slice_index words.now version_word }
    requires roots { length kinds.now ≡ roots }
    ensures ok { IfOk result (λ new. new.items ≡ current_words words.now kinds.now) }
{
    if version == OLD_VERSION {
        migrate(alloc, words, kinds)
    } else {
        Vec::from_slice(alloc, words)
    }
}

/// Recovers an image of this version with a good header, of which it is known whether it was closed.
pub fn recover_current<F: Filter, P: RebuildPass>(
    alloc: Global,
    words: Vec<u64>,
    closed: bool,
    filter: &F,
    pass: &P,
) -> Result<Recovered, RecoverFault>
    requires ready { P.ready pass.now }
    requires formed { IsWellFormed (8 * length words.items) (slice_index words.items) }
    requires below { HasKindsBelow (Some F.KINDS) (slice_index words.items) }
    requires few { F.KINDS < 2 ^ 32 }
    requires closed { IsTrue closed ↔ (state_of (slice_index words.items) ≡ clean) }
    ensures ok { IfOk result (IsMadeOf words.items
        (IsReachedIn (slice_index words.items) (F.links_of filter.now))) }
    ensures kinds { IfOk result (λ answer.
        HasKindsBelow (Some F.KINDS) (slice_index answer.heap.words)) }
    ensures none { OnOk result ((at : ℕ) → IsOutsideIn (slice_index words.items)
        (F.links_of filter.now) at → ⊥) }
    ensures cause { IfErr result
        (TellsOutsideIn (slice_index words.items) (F.links_of filter.now)) }
{
    let stored = root_table::kinds(&words);
    let marks = trace(alloc, &words, &stored, filter)?;
    let recovered = keep_marked(alloc, words, &marks, closed, pass)?;
    Ok(recovered)
}

/// The heap that is left of the words where the marked blocks are kept.
pub fn keep_marked<P: RebuildPass>(
    alloc: Global,
    mut words: Vec<u64>,
    marks: &Marks,
    closed: bool,
    pass: &P,
) -> Result<Recovered, AllocError>
    requires ready { P.ready pass.now }
    requires formed { IsWellFormed (8 * length words.items) (slice_index words.items) }
    requires closed { IsTrue closed ↔ (state_of (slice_index words.items) ≡ clean) }
    requires keeps { KeepsBlocks (layout_of (slice_index words.items)) (IsMarked marks.now.pairs) }
    requires described { Describes marks.now.directory (layout_of (slice_index words.items)) }
    ensures ok { IfOk result (IsMadeOf words.items (IsMarked marks.now.pairs)) }
{
    let found = rebuild(alloc, &mut words, marks, pass)?;
    let free = members(alloc, &found.roles, FREE_LIST as u8)?;
    Ok(Recovered {
        heap: Ready::new(words, found.held),
        was: was(closed),
        free,
    })
}

/// How an image was left: closed, or not.
fn was(closed: bool) -> Was
    ensures { (result ≡ Was.Clean) ↔ IsTrue closed }
{
    if closed { Was::Clean } else { Was::Dirty }
}
