//! Recovery with no filter at all.
ghost use Rattle.std.specs.Prelude.{◌≡◌, ◌↔◌, ◌*◌, None, Some, Err, length, slice_index, IfOk, OnOk, IfErr, IsTrue};
ghost use Rattle.heap_model.specs.declared.header.BadHeader.{BadHeader};
ghost use Rattle.heap_model.specs.Geometry.{clean};
ghost use Rattle.heap_model.specs.Header.{HasGoodHeader, IsWellFormed, header_fault, state_of};
ghost use Rattle.heap_recover.specs.Answer.{IsMadeOf};
ghost use Rattle.mixed_trace.specs.Conservative.{IsReachedByWords, current_without_kinds, TellsHeader};

use crate::mode::Mode;
use crate::recovery::{recover_current, recover_mixed};
use filter_trace::Filter;
use heap_recover::{RecoverFault, Recovered, Was};
use std::alloc::{AllocError, Global};
use super_block::ROOTS;

/// Blocks of no kind, which is all that there are.
struct NoFilter;

impl Filter for NoFilter {
    const KINDS: u32 = 0;

    ghost use Rattle.mixed_trace.specs.Conservative.{no_links, no_links-inside, no_links-few};

    ghost KINDS = { 0 };

    ghost links_of = { λ _. no_links };

    fn links(&self, _kind: u32, _block: &[u64], _at: usize) -> Option<(usize, u32)> {
        None
    }

    ghost inside = { λ _. no_links-inside };

    ghost few = { λ _. no_links-few };
}

/// Recovers an image of which nobody says where its blocks hold pointers: every root and every word
/// of a reached block counts that names a block. Only a bad header is refused. What is held may be
/// more than a program can reach, since a word may look like a pointer and be none.
pub fn recover_conservatively(alloc: Global, words: &[u64]) -> Result<Recovered, RecoverFault>
    // the answer
    ensures ok { IfOk result (IsMadeOf (current_without_kinds words.now)
        (IsReachedByWords (slice_index (current_without_kinds words.now)))) }
    ensures was { IfOk result (λ answer.
        (answer.was ≡ Was.Clean) ↔ (state_of (slice_index words.now) ≡ clean)) }

    // when it comes, and what comes else
    ensures good { OnOk result
        (HasGoodHeader None (8 * length words.now) (slice_index words.now)) }
    ensures cause { IfErr result (TellsHeader words.now) }
    ensures header { (cause : BadHeader)
        → header_fault None (8 * length words.now) (slice_index words.now) ≡ Some cause
        → result ≡ Err (RecoverFault.Header cause) }
{
    let modes = [Mode::All; ROOTS as usize];
    recover_mixed(alloc, words, &modes, &NoFilter)
}

/// The same of an image of this version with a good header, in its own room. It is known whether
/// the image was closed. Nothing but want of memory is told.
pub fn recover_current_conservatively(
    alloc: Global,
    words: Vec<u64>,
    closed: bool,
) -> Result<Recovered, AllocError>
    requires formed { IsWellFormed (8 * length words.items) (slice_index words.items) }
    requires closed { IsTrue closed ↔ (state_of (slice_index words.items) ≡ clean) }
    ensures ok { IfOk result
        (IsMadeOf words.items (IsReachedByWords (slice_index words.items))) }
{
    let modes = [Mode::All; ROOTS as usize];
    match recover_current(alloc, words, closed, &modes, &NoFilter) {
        Ok(recovered) => Ok(recovered),
        Err(RecoverFault::Memory) => Err(AllocError),
        Err(RecoverFault::Outside { at: _, value: _ }) => unreachable!(),
        Err(RecoverFault::Header(_)) => unreachable!(),
    }
}
