//! The calls that recover an image with the superblocks looked through by threads.
ghost use Rattle.std.specs.Prelude.{◌≡◌, ◌↔◌, ◌<◌, ◌*◌, ◌^◌, ℕ, All, Some, Err, IsTrue, length, slice_index, IfOk, OnOk, IfErr};
ghost use Rattle.heap_model.specs.declared.block.Block.{Block};
ghost use Rattle.heap_model.specs.declared.header.BadHeader.{BadHeader};
ghost use Rattle.heap_model.specs.Geometry.{roots, clean};
ghost use Rattle.heap_model.specs.Header.{IsWellFormed, HasGoodHeader, HasKindsBelow, header_fault, kinds_of, state_of};
ghost use Rattle.heap_model.specs.Blocks.{layout_of};
ghost use Rattle.heap_model.specs.Reach.{IsOutsideIn, IsReachedIn};
ghost use Rattle.heap_model.specs.Recovered.{IsFreeSuperblock, AreAscending};
ghost use Rattle.heap_model.specs.Recovery.{IsRecovered};
ghost use Rattle.region_header.specs.Migration.{current_words};
ghost use Rattle.super_block.specs.Division.{Describes};
ghost use Rattle.filter_trace.specs.Reached.{AreReached};
ghost use Rattle.heap_recover.specs.Fault.{TellsFault, TellsOutsideIn};
ghost use Rattle.heap_recover.specs.Answer.{IsMadeOf};

use crate::pass::InPieces;
use crate::room::{expected_blocks, room_for};
use filter_trace::{Filter, Marks, trace};
use heap_recover::{
    InOrder, RecoverFault, Recovered, Was, current_copy, keep_marked, recover_current,
};
use rayon::current_num_threads;
use region_header::{current, read_header};
use std::alloc::Global;
use std::cell::Cell;
use std::thread::{Threads, join};

/// Where fewer blocks than these are expected, one thread recovers the image: threads would cost more
/// than they bring.
const FEW_BLOCKS: usize = 1_048_576;

/// Recovers an image as `heap_recover::recover` does, with the same heap, the same answers and the
/// same causes. The trace runs in one thread; then each processor looks through a piece of the
/// superblocks that have been taken, neighbours with about the same number of blocks, and the
/// pieces are put together in order.
pub fn recover_par<R: Threads + Sync, F: Filter + Sync>(
    rt: &R,
    alloc: Global,
    words: &[u64],
    kinds: &[u32],
    filter: &F,
) -> Result<Recovered, RecoverFault>
    requires roots { length kinds.now ≡ roots }
    requires kinds { All (λ kind. kind < F.KINDS) kinds.now }

    // the answer
    ensures held { IfOk result (λ answer. AreAscending (λ (b : Block). b.first_word)
        (IsReachedIn (slice_index (current_words words.now kinds.now)) (F.links_of filter.now))
        answer.heap.held) }
    ensures free { IfOk result (λ answer. AreAscending (λ d. d)
        (IsFreeSuperblock (layout_of (slice_index (current_words words.now kinds.now)))
        (IsReachedIn (slice_index (current_words words.now kinds.now)) (F.links_of filter.now)))
        answer.free.items) }
    ensures was { IfOk result (λ answer.
        (answer.was ≡ Was.Clean) ↔ (state_of (slice_index words.now) ≡ clean)) }
    ensures long { IfOk result (λ answer.
        length answer.heap.words ≡ length (current_words words.now kinds.now)) }
    ensures words { IfOk result (λ answer.
        IsRecovered (slice_index (current_words words.now kinds.now))
        (slice_index answer.heap.words)
        (IsReachedIn (slice_index (current_words words.now kinds.now)) (F.links_of filter.now))) }
    ensures kinds { IfOk result (λ answer.
        HasKindsBelow (Some F.KINDS) (slice_index answer.heap.words)) }

    // when it comes, and what comes else
    ensures good { OnOk result
        (HasGoodHeader (Some F.KINDS) (8 * length words.now) (slice_index words.now)) }
    ensures formed { OnOk result (IsWellFormed (8 * length (current_words words.now kinds.now))
        (slice_index (current_words words.now kinds.now))) }
    ensures none { OnOk result ((at : ℕ)
        → IsOutsideIn (slice_index (current_words words.now kinds.now))
        (F.links_of filter.now) at → ⊥) }
    ensures cause { IfErr result (TellsFault (Some F.KINDS) words.now
        (current_words words.now kinds.now) (F.links_of filter.now)) }
    ensures header { (cause : BadHeader)
        → header_fault (Some F.KINDS) (8 * length words.now) (slice_index words.now) ≡ Some cause
        → result ≡ Err (RecoverFault.Header cause) }
{
    // A bad header is told before there is memory for a copy.
    let header = read_header(words, Some(F::KINDS))?;
    let current = current_copy(alloc, words, header.version, kinds)?;
    recover_current_par(rt, alloc, current, header.clean, filter)
}

/// The same in the room of the image, which is gone where it is refused.
pub fn recover_owned_par<R: Threads + Sync, F: Filter + Sync>(
    rt: &R,
    alloc: Global,
    words: Vec<u64>,
    kinds: &[u32],
    filter: &F,
) -> Result<Recovered, RecoverFault>
    requires roots { length kinds.now ≡ roots }
    requires kinds { All (λ kind. kind < F.KINDS) kinds.now }

    // the answer
    ensures ok { IfOk result (IsMadeOf (current_words words.items kinds.now)
        (IsReachedIn (slice_index (current_words words.items kinds.now)) (F.links_of filter.now))) }
    ensures was { IfOk result (λ answer.
        (answer.was ≡ Was.Clean) ↔ (state_of (slice_index words.items) ≡ clean)) }
    ensures kinds { IfOk result (λ answer.
        HasKindsBelow (Some F.KINDS) (slice_index answer.heap.words)) }

    // when it comes, and what comes else
    ensures good { OnOk result
        (HasGoodHeader (Some F.KINDS) (8 * length words.items) (slice_index words.items)) }
    ensures formed { OnOk result (IsWellFormed (8 * length (current_words words.items kinds.now))
        (slice_index (current_words words.items kinds.now))) }
    ensures none { OnOk result ((at : ℕ)
        → IsOutsideIn (slice_index (current_words words.items kinds.now))
        (F.links_of filter.now) at → ⊥) }
    ensures cause { IfErr result (TellsFault (Some F.KINDS) words.items
        (current_words words.items kinds.now) (F.links_of filter.now)) }
    ensures header { (cause : BadHeader)
        → header_fault (Some F.KINDS) (8 * length words.items) (slice_index words.items)
        ≡ Some cause
        → result ≡ Err (RecoverFault.Header cause) }
{
    let header = read_header(&words, Some(F::KINDS))?;
    let current = current(words, kinds)?;
    recover_current_par(rt, alloc, current, header.clean, filter)
}

/// Recovers an image of this version with a good header, of which it is known whether it was closed.
pub fn recover_current_par<R: Threads + Sync, F: Filter + Sync>(
    rt: &R,
    alloc: Global,
    words: Vec<u64>,
    closed: bool,
    filter: &F,
) -> Result<Recovered, RecoverFault>
    requires formed { IsWellFormed (8 * length words.items) (slice_index words.items) }
    requires below { HasKindsBelow (Some F.KINDS) (slice_index words.items) }
    requires few { F.KINDS < 2 ^ 32 }
    requires closed { IsTrue closed ↔ (state_of (slice_index words.items) ≡ clean) }
    ensures ok { IfOk result (IsMadeOf words.items
        (IsReachedIn (slice_index words.items) (F.links_of filter.now))) }
    ensures kinds { IfOk result (λ answer.
        HasKindsBelow (Some F.KINDS) (slice_index answer.heap.words)) }
    ensures none { OnOk result ((at : ℕ) → IsOutsideIn (slice_index words.items)
        (F.links_of filter.now) at → ⊥) }
    ensures cause { IfErr result
        (TellsOutsideIn (slice_index words.items) (F.links_of filter.now)) }
{
    let expected = expected_blocks(&words);
    if current_num_threads(rt) == 1 || expected < FEW_BLOCKS {
        return recover_current(alloc, words, closed, filter, &InOrder);
    }
    let (room, marks) = join(
        rt,
        || room_for(alloc, expected),
        || -> Result<Marks, RecoverFault>
            requires { IsWellFormed (8 * length words.items) (slice_index words.items)
                × HasKindsBelow (Some F.KINDS) (slice_index words.items)
                × (F.KINDS < 2 ^ 32) }
        { trace_stored(alloc, &words, filter) },
    );
    let marks = marks?;
    let pass = InPieces {
        rt,
        room: Cell::new(room?),
    };
    let recovered = keep_marked(alloc, words, &marks, closed, &pass)?;
    Ok(recovered)
}

/// Traces an image by the kinds that it stores.
fn trace_stored<F: Filter>(alloc: Global, words: &[u64], filter: &F) -> Result<Marks, RecoverFault>
    requires formed { IsWellFormed (8 * length words.now) (slice_index words.now) }
    requires below { HasKindsBelow (Some F.KINDS) (slice_index words.now) }
    requires few { F.KINDS < 2 ^ 32 }
    ensures ok { IfOk result (λ marks. AreReached (slice_index words.now)
        (kinds_of (slice_index words.now)) (F.links_of filter.now) marks.pairs) }
    ensures described { IfOk result (λ marks.
        Describes marks.directory (layout_of (slice_index words.now))) }
    ensures none { OnOk result ((at : ℕ) → IsOutsideIn (slice_index words.now)
        (F.links_of filter.now) at → ⊥) }
    ensures cause { IfErr result
        (TellsOutsideIn (slice_index words.now) (F.links_of filter.now)) }
{
    let stored = root_table::kinds(words);
    let marks = trace(alloc, words, &stored, filter)?;
    Ok(marks)
}
