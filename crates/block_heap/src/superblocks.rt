//! Superblocks that are taken for the first time, and how superblocks become one large block.
use crate::medium::Medium;
use line_memory::{Chance, Stopped};
use super_block::{Geometry, Info, USED_WORD};

/// What was read of the mark of taken superblocks, and the first of those that were taken, if there
/// was room.
#[derive(Clone, Copy)]
pub(crate) struct Fresh {
    pub(crate) used: u64,
    pub(crate) first: Option<u64>,
}

impl<C: Chance> Medium<C> {
    ghost use Rattle.std.specs.Prelude.{◌≡◌, ◌<◌, ◌≤◌, ◌+◌, IfOk, OnOk, IfErr, None};
    ghost use Rattle.heap_model.specs.Geometry.{used_word, info_word, largest_capacity};
    ghost use Rattle.heap_model.specs.Words.{large_info};
    ghost use Rattle.line_memory.specs.View.{volatile_at};
    ghost use Rattle.line_memory.specs.Crash.{MayLeaveStore};
    ghost use Rattle.block_heap.specs.MediumView.{medium_view};
    ghost use Rattle.block_heap.specs.Medium.{StoresOnly, StopsWithin, IsPersisted};
    ghost use Rattle.block_heap.specs.Links.{IsOpen, IsFresh};
    ghost use Rattle.block_heap.specs.AllocatorWords.{UsedFits};

    /// Takes so many superblocks that were never taken.
    pub(crate) fn take_fresh(&mut self, geometry: Geometry, count: u64) -> Result<Fresh, Stopped>
        requires open { IsOpen geometry.capacity (medium_view self.old) }
        requires used { volatile_at (medium_view self.old) used_word ≤ geometry.capacity }
        ensures ok { IfOk result (λ fresh.
            IsFresh geometry.capacity count fresh (medium_view self.old) (medium_view self.new)) }
        ensures one_look { IfOk result (λ fresh. fresh.first ≡ None
            → (medium_view self.new).drawn ≡ (medium_view self.old).drawn + 1) }
        ensures stopped { IfErr result (λ e. StopsWithin e.step 4
            (medium_view self.old) (medium_view self.new)) }
        ensures others { StoresOnly (λ word. word ≡ used_word)
            (medium_view self.old) (medium_view self.new) }
        ensures crash { MayLeaveStore used_word
            (volatile_at (medium_view self.old) used_word + count)
            (medium_view self.old) (medium_view self.new) }
        ensures fits { UsedFits geometry.capacity (medium_view self.old)
            → UsedFits geometry.capacity (medium_view self.new) }
    {
        let used = self.load(USED_WORD)?;
        if count > geometry.capacity() - used {
            return Ok(Fresh { used, first: None });
        }
        // Durable before a block there is handed out: a crash must not leave a root that leads to a
        // block above the mark, since such an offset names nothing.
        self.persist(USED_WORD, used + count)?;
        Ok(Fresh {
            used,
            first: Some(used),
        })
    }

    /// Makes the superblocks from `d` on, `count` of them, one large block.
    pub(crate) fn join(&mut self, geometry: Geometry, d: u64, count: u64) -> Result<(), Stopped>
        requires open { IsOpen geometry.capacity (medium_view self.old) }
        requires superblock { d < geometry.capacity }
        requires count { count ≤ largest_capacity }
        ensures ok { OnOk result (IsPersisted (info_word d) (large_info count)
            (medium_view self.old) (medium_view self.new)) }
        ensures stopped { IfErr result (λ e. StopsWithin e.step 3
            (medium_view self.old) (medium_view self.new)) }
        ensures others { StoresOnly (λ word. word ≡ info_word d)
            (medium_view self.old) (medium_view self.new) }
    {
        // Durable before the block is handed out: a crash must not leave a root that leads to it
        // while its first superblock has another info.
        self.persist(geometry.info(d), Info::Large(count).pack())
    }
}
