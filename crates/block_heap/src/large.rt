//! Blocks that take superblocks of their own.
use crate::arena::Arena;
use heap_model::Block;
use heap_seat::Look;
use line_memory::{Chance, Stopped};
use super_block::{FREE_LIST, SUPERBLOCK_WORDS};

impl<C: Chance> Arena<C> {
    ghost use Rattle.std.specs.Prelude.{◌≡◌, ◌≢◌, ℕ, ◌+◌, ◌*◌, ◌<◌, ◌≤◌, Contains, IfOk, OnOk, IfErr, OnErr};
    ghost use Rattle.heap_model.specs.Geometry.{superblock_words, start_word, largest_capacity};
    ghost use Rattle.heap_model.specs.Sizes.{IsClass, words_of_class};
    ghost use Rattle.heap_shape.specs.Moves.{TakesFrom};
    ghost use Rattle.block_heap.specs.Accounts.{AreAccounted, GivesUse};
    ghost use Rattle.block_heap.specs.Draws.{most_join_draws};
    ghost use Rattle.block_heap.specs.Medium.{RunsWithin, StopsWithin};
    ghost use Rattle.block_heap.specs.Parts.{parts_of, held_in};
    ghost use Rattle.block_heap.specs.Running.{IsRunning, CachesAreShort, LeavesHeld};
    ghost use Rattle.block_heap.specs.Large.{JoinsAs, IsDropped};
    ghost use Rattle.block_heap.specs.Returns.{FreesLarge, FreesOne};

    /// A block of so many superblocks, if as many were never taken.
    pub(crate) fn alloc_large(&mut self, count: u64) -> Result<Option<Block>, Stopped>
        requires some { 1 ≤ count }
        requires running { IsRunning (parts_of self.old) }
        ensures ok { IfOk result (λ answer. JoinsAs count answer
            (parts_of self.old) (parts_of self.new)) }
        ensures running { OnOk result (IsRunning (parts_of self.new)) }
        ensures runs_within { OnOk result (RunsWithin most_join_draws
            (parts_of self.old).words (parts_of self.new).words) }
        ensures stopped { IfErr result (λ e. StopsWithin e.step most_join_draws
            (parts_of self.old).words (parts_of self.new).words) }
        ensures leaves_held { LeavesHeld (held_in (parts_of self.old))
            (parts_of self.old) (parts_of self.new) }
        ensures held { OnErr result
            (held_in (parts_of self.new) ≡ held_in (parts_of self.old)) }
        ensures caches { (parts_of self.new).caches ≡ (parts_of self.old).caches }
        ensures few { (parts_of self.new).taken ≤ (parts_of self.old).taken + count }
        ensures accounted { OnOk result (AreAccounted (parts_of self.old)
            → AreAccounted (parts_of self.new)) }
    {
        let ticket = self.medium.next_ticket();
        let fresh = self.medium.take_fresh(self.geometry, count)?;
        self.used_look = Look::by(fresh.used, ticket, self.taken);
        let Some(d) = fresh.first else {
            return Ok(None);
        };
        self.taken += count;
        self.medium.join(self.geometry, d, count)?;
        self.held.divide(d, SUPERBLOCK_WORDS * count);
        let first_word = self.geometry.start(d);
        self.held.add(first_word);
        Ok(Some(self.held.at(first_word)))
    }

    /// Frees a held large block: each of its superblocks is free then.
    pub(crate) fn free_large(&mut self, b: Block) -> Result<(), Stopped>
        requires running { IsRunning (parts_of self.old) }
        requires holds { Contains (held_in (parts_of self.old)) b }
        requires large { (class : ℕ) → IsClass class → b.words ≢ words_of_class class }
        ensures running { OnOk result (IsRunning (parts_of self.new)) }
        ensures runs_within { OnOk result (RunsWithin (4 * largest_capacity)
            (parts_of self.old).words (parts_of self.new).words) }
        ensures stopped { IfErr result (λ e. StopsWithin e.step (4 * largest_capacity)
            (parts_of self.old).words (parts_of self.new).words) }
        ensures freed { TakesFrom b (held_in (parts_of self.old)) (held_in (parts_of self.new)) }
        ensures order { OnOk result (FreesLarge b (parts_of self.old) (parts_of self.new)) }
        ensures leaves_held { LeavesHeld (held_in (parts_of self.new))
            (parts_of self.old) (parts_of self.new) }
        ensures caches { (parts_of self.new).caches ≡ (parts_of self.old).caches }
        ensures taken { (parts_of self.new).taken ≡ (parts_of self.old).taken }
        ensures accounted { OnOk result (AreAccounted (parts_of self.old)
            → AreAccounted (parts_of self.new)) }
    {
        self.held.remove(b.first_word);
        let first = self.geometry.superblock_of(b.first_word);
        for d in first..first + b.words / SUPERBLOCK_WORDS {
            self.split(d)?;
        }
        Ok(())
    }

    /// A superblock of a large block that is held no more goes to the free list. Its info stays
    /// until it is cut: it names no block then that overlaps another.
    fn split(&mut self, d: u64) -> Result<(), Stopped>
        requires running { IsRunning (parts_of self.old) }
        requires within { d < (parts_of self.old).capacity }
        requires dropped { IsDropped (parts_of self.old) d }
        ensures running { OnOk result (IsRunning (parts_of self.new)) }
        ensures others { OnOk result ((e : ℕ) → e ≢ d → IsDropped (parts_of self.old) e
            → IsDropped (parts_of self.new) e) }
        ensures gives { OnOk result (GivesUse d (parts_of self.old) (parts_of self.new)) }
        ensures order { OnOk result (FreesOne d (parts_of self.old) (parts_of self.new)) }
        ensures runs_within { OnOk result (RunsWithin 4
            (parts_of self.old).words (parts_of self.new).words) }
        ensures stopped { IfErr result (λ e. StopsWithin e.step 4
            (parts_of self.old).words (parts_of self.new).words) }
        ensures held { (parts_of self.new).blocks ≡ (parts_of self.old).blocks }
        ensures leaves_held { LeavesHeld (held_in (parts_of self.old))
            (parts_of self.old) (parts_of self.new) }
        ensures caches { (parts_of self.new).caches ≡ (parts_of self.old).caches }
        ensures taken { (parts_of self.new).taken ≡ (parts_of self.old).taken }
    {
        self.medium.store(self.geometry.anchor(d), 0)?;
        self.medium.push(self.geometry, FREE_LIST, d)
    }
}
