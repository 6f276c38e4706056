//! The parts of a heap for one thread: words, caches and held blocks, and what was read last of the
//! words that threads share.
ghost use Rattle.std.specs.Prelude.{◌≡◌};
ghost use Rattle.block_heap.specs.Opening.{opened_look};

use crate::cache::Cache;
use crate::held::HeldBlocks;
use crate::medium::Medium;
use heap_seat::Look;
use line_memory::Chance;
use std::alloc::{AllocError, Global};
use super_block::{Geometry, HEAD_WORD, LISTS, Ready, USED_WORD};

/// An open heap without its counts of calls. It says of itself when it works; after a stop it is
/// used no more.
#[derive(Drop)]
pub(crate) struct Arena<C> {
    pub(crate) medium: Medium<C>,
    pub(crate) geometry: Geometry,
    /// By class; of number 0 there is none.
    pub(crate) caches: Vec<Cache>,
    pub(crate) held: HeldBlocks,
    /// How many superblocks were taken.
    pub(crate) taken: u64,
    pub(crate) used_look: Look,
    /// By list.
    pub(crate) head_looks: Vec<Look>,
}

impl<C: Chance> Arena<C> {
    ghost use Rattle.std.specs.Prelude.{◌<◌, ◌^◌, IfOk};
    ghost use Rattle.block_heap.specs.Parts.{parts_of};
    ghost use Rattle.block_heap.specs.Opening.{Opens};

    /// Opens a heap at rest.
    pub(crate) fn new(
        alloc: Global,
        ready: Ready,
        budget: u64,
        chance: C,
    ) -> Result<Arena<C>, AllocError>
        requires { budget < 2 ^ 40 }
        ensures { IfOk result (λ a. Opens ready.words ready.held budget (parts_of a)) }
    {
        let geometry = ready.geometry();
        let held = HeldBlocks::of(alloc, &ready)?;
        let (words, _) = ready.into_parts();
        let used_look = opening_look(words[USED_WORD as usize]);
        let mut head_looks = Vec::with_capacity(alloc, LISTS as usize)?;
        for list in 0..LISTS {
            head_looks.push(opening_look(words[(HEAD_WORD + list) as usize]))?;
        }
        let empty = Cache { first: 0, count: 0 };
        Ok(Arena {
            medium: Medium::new(alloc, words, budget, chance)?,
            geometry,
            caches: vec![in alloc; empty; LISTS as usize]?,
            held,
            taken: 0,
            used_look,
            head_looks,
        })
    }
}

/// A shared word as it was when the heap was opened.
fn opening_look(seen: u64) -> Look
    ensures { result ≡ opened_look seen }
{
    Look {
        seen,
        ticket: None,
        taken: 0,
    }
}
