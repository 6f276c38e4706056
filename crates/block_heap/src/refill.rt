//! Where a request of a class finds blocks when its cache is empty.
use crate::arena::Arena;
use crate::cache::Cache;
use heap_seat::Look;
use line_memory::{Chance, Stopped};
use size_table::{SizeClass, blocks_of};
use super_block::{FREE_LIST, block_words};

/// What was found first in the list of a class.
#[derive(Clone, Copy)]
pub(crate) enum Found {
    /// A superblock with blocks in use, whose free blocks are in the cache now.
    Blocks,
    /// A superblock with none in use, which is in the free list now.
    Recycled,
    /// The list is empty.
    Nothing,
}

impl<C: Chance> Arena<C> {
    ghost use Rattle.std.specs.Prelude.{◌≡◌, ◌≢◌, ℕ, ◌+◌, ◌*◌, ◌/◌, ◌<◌, ◌≤◌, IfOk, OnOk, OnErr, IfErr, if◌then◌else◌, length, true};
    ghost use Rattle.heap_model.specs.Counting.{one_if};
    ghost use Rattle.heap_model.specs.Geometry.{used_word, lists, largest_capacity};
    ghost use Rattle.heap_at_rest.specs.Draining.{HasNoHeld};
    ghost use Rattle.line_memory.specs.Marks.{IsMarked};
    ghost use Rattle.block_heap.specs.Medium.{StoresOnly, RunsWithin, StopsWithin};
    ghost use Rattle.block_heap.specs.Divide.{IsDivideWord};
    ghost use Rattle.block_heap.specs.Begun.{superblock_marks};
    ghost use Rattle.block_heap.specs.Links.{IsOpen};
    ghost use Rattle.block_heap.specs.Parts.{parts_of, held_in, image_of, cache_at};
    ghost use Rattle.block_heap.specs.Running.{IsRunning, LeavesHeld};
    ghost use Rattle.block_heap.specs.Lists.{IsEmptyList};
    ghost use Rattle.block_heap.specs.Steps.{IsRefilling, FindsFirst, Spends, used_up};
    ghost use Rattle.block_heap.specs.Order.{RefillsFrom, OrdersFirst, OrdersPartial, OrdersFree, OrdersFresh};
    ghost use Rattle.block_heap.specs.Refill.{Cuts, SameBut, FindsFree, FindsFresh, FindsPartial, Refills};
    ghost use Rattle.block_heap.specs.Draws.{most_cut_draws, most_refill_draws};

    /// Fills the empty cache of the class; `false` where there is no room.
    pub(crate) fn refill(&mut self, class: SizeClass) -> Result<bool, Stopped>
        requires running { IsRunning (parts_of self.old) }
        requires empty { (cache_at (parts_of self.old).caches class.number).count ≡ 0 }
        ensures ok { IfOk result (λ some. Refills class.number some
            (parts_of self.old) (parts_of self.new)) }
        ensures order { IfOk result (λ some. some ≡ true → RefillsFrom class.number
            (parts_of self.old) (parts_of self.new)) }
        ensures refilling { OnOk result (IsRefilling class.number
            (parts_of self.old) (parts_of self.new)) }
        ensures left { IfOk result (λ some. Spends (one_if some) class.number
            (parts_of self.old) (parts_of self.new)) }
        ensures runs_within { OnOk result (RunsWithin most_refill_draws
            (parts_of self.old).words (parts_of self.new).words) }
        ensures stopped { IfErr result (λ e. StopsWithin e.step most_refill_draws
            (parts_of self.old).words (parts_of self.new).words) }
        ensures leaves_held { LeavesHeld (held_in (parts_of self.old))
            (parts_of self.old) (parts_of self.new) }
        ensures held { held_in (parts_of self.new) ≡ held_in (parts_of self.old) }
        ensures few { (parts_of self.new).taken ≤ (parts_of self.old).taken + 1 }
    {
        if self.take_partial(class)? || self.cut_free(class)? {
            return Ok(true);
        }
        self.cut_fresh(class)
    }

    /// Takes the free blocks of the first superblock in the list of the class that has some in use.
    /// Those before it, with none in use, go to the free list.
    fn take_partial(&mut self, class: SizeClass) -> Result<bool, Stopped>
        requires running { IsRunning (parts_of self.old) }
        requires empty { (cache_at (parts_of self.old).caches class.number).count ≡ 0 }
        ensures ok { IfOk result (λ some. FindsPartial class.number some
            (parts_of self.old) (parts_of self.new)) }
        ensures order { IfOk result (λ some. OrdersPartial class.number some
            (parts_of self.old) (parts_of self.new)) }
        ensures refilling { OnOk result (IsRefilling class.number
            (parts_of self.old) (parts_of self.new)) }
        ensures left { IfOk result (λ some. Spends (one_if some) class.number
            (parts_of self.old) (parts_of self.new)) }
        ensures runs_within { OnOk result (RunsWithin (8 * largest_capacity + 8)
            (parts_of self.old).words (parts_of self.new).words) }
        ensures stopped { IfErr result (λ e. StopsWithin e.step (8 * largest_capacity + 8)
            (parts_of self.old).words (parts_of self.new).words) }
        ensures leaves_held { LeavesHeld (held_in (parts_of self.old))
            (parts_of self.old) (parts_of self.new) }
        ensures held { held_in (parts_of self.new) ≡ held_in (parts_of self.old) }
        ensures taken { (parts_of self.new).taken ≡ (parts_of self.old).taken }
    {
        loop {
            match self.take_first(class)? {
                Found::Blocks => return Ok(true),
                Found::Recycled => {}
                Found::Nothing => return Ok(false),
            }
        }
    }

    /// Takes the first superblock off the list of the class, and its free blocks into the cache, or
    /// puts it into the free list if none of its blocks is in use.
    fn take_first(&mut self, class: SizeClass) -> Result<Found, Stopped>
        requires running { IsRunning (parts_of self.old) }
        requires empty { (cache_at (parts_of self.old).caches class.number).count ≡ 0 }
        ensures ok { IfOk result (λ found. FindsFirst class.number found
            (parts_of self.old) (parts_of self.new)) }
        ensures order { IfOk result (λ found. OrdersFirst class.number found
            (parts_of self.old) (parts_of self.new)) }
        ensures refilling { OnOk result (IsRefilling class.number
            (parts_of self.old) (parts_of self.new)) }
        ensures left { IfOk result (λ found. Spends (used_up found) class.number
            (parts_of self.old) (parts_of self.new)) }
        ensures runs_within { OnOk result (RunsWithin 8
            (parts_of self.old).words (parts_of self.new).words) }
        ensures stopped { IfErr result (λ e. StopsWithin e.step 8
            (parts_of self.old).words (parts_of self.new).words) }
        ensures leaves_held { LeavesHeld (held_in (parts_of self.old))
            (parts_of self.old) (parts_of self.new) }
        ensures held { held_in (parts_of self.new) ≡ held_in (parts_of self.old) }
        ensures taken { (parts_of self.new).taken ≡ (parts_of self.old).taken }
    {
        let ticket = self.medium.next_ticket();
        let popped = self.medium.pop(self.geometry, class.number as u64)?;
        self.head_looks[class.number as usize] = Look::by(popped.head, ticket, self.taken);
        let Some(d) = popped.first else {
            return Ok(Found::Nothing);
        };
        if let Some(cache) = self.medium.take_blocks(self.geometry, d, class)? {
            self.caches[class.number as usize] = cache;
            return Ok(Found::Blocks);
        }
        self.medium.push(self.geometry, FREE_LIST, d)?;
        Ok(Found::Recycled)
    }

    /// Cuts the first free superblock for the class.
    fn cut_free(&mut self, class: SizeClass) -> Result<bool, Stopped>
        requires running { IsRunning (parts_of self.old) }
        requires empty { (cache_at (parts_of self.old).caches class.number).count ≡ 0 }
        ensures ok { IfOk result (λ some. FindsFree class.number some
            (parts_of self.old) (parts_of self.new)) }
        ensures order { IfOk result (λ some. OrdersFree class.number some
            (parts_of self.old) (parts_of self.new)) }
        ensures refilling { OnOk result (IsRefilling class.number
            (parts_of self.old) (parts_of self.new)) }
        ensures left { IfOk result (λ some. Spends (one_if some) class.number
            (parts_of self.old) (parts_of self.new)) }
        ensures runs_within { OnOk result (RunsWithin (most_cut_draws + 3)
            (parts_of self.old).words (parts_of self.new).words) }
        ensures stopped { IfErr result (λ e. StopsWithin e.step (most_cut_draws + 3)
            (parts_of self.old).words (parts_of self.new).words) }
        ensures leaves_held { LeavesHeld (held_in (parts_of self.old))
            (parts_of self.old) (parts_of self.new) }
        ensures held { held_in (parts_of self.new) ≡ held_in (parts_of self.old) }
        ensures taken { (parts_of self.new).taken ≡ (parts_of self.old).taken }
    {
        let ticket = self.medium.next_ticket();
        let popped = self.medium.pop(self.geometry, FREE_LIST)?;
        self.head_looks[FREE_LIST as usize] = Look::by(popped.head, ticket, self.taken);
        let Some(d) = popped.first else {
            return Ok(false);
        };
        self.cut(d, class)?;
        Ok(true)
    }

    /// Cuts a superblock that was never taken for the class.
    fn cut_fresh(&mut self, class: SizeClass) -> Result<bool, Stopped>
        requires running { IsRunning (parts_of self.old) }
        requires empty { (cache_at (parts_of self.old).caches class.number).count ≡ 0 }
        ensures ok { IfOk result (λ some. FindsFresh class.number some
            (parts_of self.old) (parts_of self.new)) }
        ensures order { IfOk result (λ some. OrdersFresh class.number some
            (parts_of self.old) (parts_of self.new)) }
        ensures refilling { OnOk result (IsRefilling class.number
            (parts_of self.old) (parts_of self.new)) }
        ensures left { IfOk result (λ some. Spends (one_if some) class.number
            (parts_of self.old) (parts_of self.new)) }
        ensures runs_within { OnOk result (RunsWithin (most_cut_draws + 4)
            (parts_of self.old).words (parts_of self.new).words) }
        ensures stopped { IfErr result (λ e. StopsWithin e.step (most_cut_draws + 4)
            (parts_of self.old).words (parts_of self.new).words) }
        ensures leaves_held { LeavesHeld (held_in (parts_of self.old))
            (parts_of self.old) (parts_of self.new) }
        ensures held { held_in (parts_of self.new) ≡ held_in (parts_of self.old) }
        ensures few { (parts_of self.new).taken ≤ (parts_of self.old).taken + 1 }
    {
        let ticket = self.medium.next_ticket();
        let fresh = self.medium.take_fresh(self.geometry, 1)?;
        self.used_look = Look::by(fresh.used, ticket, self.taken);
        let Some(d) = fresh.first else {
            return Ok(false);
        };
        self.taken += 1;
        self.cut(d, class)?;
        Ok(true)
    }

    /// Cuts superblock `d` into blocks of the class, which are all cached.
    fn cut(&mut self, d: u64, class: SizeClass) -> Result<(), Stopped>
        requires open { IsOpen (parts_of self.old).capacity (parts_of self.old).words }
        requires superblock { d < (parts_of self.old).capacity }
        requires caches { length (parts_of self.old).caches ≡ lists }
        requires sizes { length (parts_of self.old).blocks.words.items
            ≡ (parts_of self.old).capacity }
        requires none { (mark : ℕ) → IsMarked (parts_of self.old).blocks.marks.items mark
            → mark / superblock_marks ≢ d }
        ensures ok { OnOk result (Cuts class.number d (parts_of self.old) (parts_of self.new)) }
        ensures stopped { IfErr result (λ e. StopsWithin e.step most_cut_draws
            (parts_of self.old).words (parts_of self.new).words) }
        ensures others { StoresOnly (IsDivideWord (parts_of self.old).capacity d)
            (parts_of self.old).words (parts_of self.new).words }
        ensures same { SameBut (parts_of self.old) (parts_of self.new) }
    {
        self.medium.divide(self.geometry, d, class)?;
        self.held.divide(d, block_words(class));
        self.caches[class.number as usize] = Cache {
            first: self.geometry.start(d),
            count: blocks_of(class.number),
        };
        Ok(())
    }
}
