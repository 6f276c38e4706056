//! Blocks of a class: handed out from the cache, freed into it, and given back to their superblocks
//! where it has as many as one superblock.
use crate::anchors::Batch;
use crate::arena::Arena;
use crate::cache::Cache;
use anchor_word::State;
use heap_model::Block;
use line_memory::{Chance, Stopped};
use size_table::{SizeClass, blocks_of};
use super_block::{FREE_LIST, block_words};

/// A prefix of a cache, whose blocks lie in superblock `d`, and the cache behind it.
#[derive(Clone, Copy)]
pub(crate) struct CachePrefix {
    pub(crate) d: u64,
    pub(crate) batch: Batch,
    pub(crate) rest: Cache,
}

impl<C: Chance> Arena<C> {
    ghost use Rattle.std.specs.Prelude.{◌≡◌, ◌<◌, ◌≤◌, ◌+◌, ◌-◌, ◌*◌, Contains, IfOk, OnOk, IfErr, OnErr};
    ghost use Rattle.heap_model.specs.Sizes.{words_of_class};
    ghost use Rattle.heap_shape.specs.Moves.{TakesFrom};
    ghost use Rattle.block_heap.specs.Accounts.{AreAccounted};
    ghost use Rattle.block_heap.specs.Medium.{RunsWithin, StopsWithin};
    ghost use Rattle.block_heap.specs.Parts.{parts_of, held_in, cache_at};
    ghost use Rattle.block_heap.specs.Running.{IsRunning, CachesAreShort, LeavesHeld};
    ghost use Rattle.block_heap.specs.Steps.{PopsBlock};
    ghost use Rattle.block_heap.specs.Flush.{IsCachePrefix, KeepsAll, GivesBack};
    ghost use Rattle.block_heap.specs.Returns.{FreesSmall, Flushes, IsLongest, GivesPrefix, GivesTo};
    ghost use Rattle.block_heap.specs.Draws.{most_flush_draws, most_free_draws};

    /// Pops the first block of the cache, which has one, and holds it.
    pub(crate) fn pop_block(&mut self, class: SizeClass) -> Result<Block, Stopped>
        requires running { IsRunning (parts_of self.old) }
        requires some { 1 ≤ (cache_at (parts_of self.old).caches class.number).count }
        ensures ok { IfOk result (λ b. PopsBlock class.number b
            (parts_of self.old) (parts_of self.new)) }
        ensures runs_within { OnOk result (RunsWithin 1
            (parts_of self.old).words (parts_of self.new).words) }
        ensures stopped { IfErr result (λ e. StopsWithin e.step 1
            (parts_of self.old).words (parts_of self.new).words) }
        ensures leaves_held { LeavesHeld (held_in (parts_of self.old))
            (parts_of self.old) (parts_of self.new) }
        ensures held { OnErr result
            (held_in (parts_of self.new) ≡ held_in (parts_of self.old)) }
        ensures taken { (parts_of self.new).taken ≡ (parts_of self.old).taken }
        ensures looks { ((parts_of self.new).used_look ≡ (parts_of self.old).used_look)
            × ((parts_of self.new).head_looks ≡ (parts_of self.old).head_looks) }
    {
        let cache = self.caches[class.number as usize];
        let next = self.medium.load(cache.first)?;
        self.caches[class.number as usize] = Cache {
            first: next,
            count: cache.count - 1,
        };
        self.held.add(cache.first);
        Ok(self.held.at(cache.first))
    }

    /// Frees a held block of the class.
    pub(crate) fn free_small(&mut self, b: Block, class: SizeClass) -> Result<(), Stopped>
        requires running { IsRunning (parts_of self.old) }
        requires short { CachesAreShort (parts_of self.old) 0 }
        requires holds { Contains (held_in (parts_of self.old)) b }
        requires size { b.words ≡ words_of_class class.number }
        ensures running { OnOk result (IsRunning (parts_of self.new)) }
        ensures short { OnOk result (CachesAreShort (parts_of self.new) 0) }
        ensures runs_within { OnOk result (RunsWithin most_free_draws
            (parts_of self.old).words (parts_of self.new).words) }
        ensures stopped { IfErr result (λ e. StopsWithin e.step most_free_draws
            (parts_of self.old).words (parts_of self.new).words) }
        ensures freed { TakesFrom b (held_in (parts_of self.old)) (held_in (parts_of self.new)) }
        ensures order { OnOk result (FreesSmall class.number b.first_word
            (parts_of self.old) (parts_of self.new)) }
        ensures leaves_held { LeavesHeld (held_in (parts_of self.new))
            (parts_of self.old) (parts_of self.new) }
        ensures taken { (parts_of self.new).taken ≡ (parts_of self.old).taken }
        ensures accounted { OnOk result (AreAccounted (parts_of self.old)
            → AreAccounted (parts_of self.new)) }
    {
        let cache = self.caches[class.number as usize];
        self.held.remove(b.first_word);
        self.medium.store(b.first_word, cache.first)?;
        self.caches[class.number as usize] = Cache {
            first: b.first_word,
            count: cache.count + 1,
        };
        if cache.count + 1 == blocks_of(class.number) {
            self.flush(class)?;
        }
        Ok(())
    }

    /// Gives all blocks of the cache back to their superblocks.
    fn flush(&mut self, class: SizeClass) -> Result<(), Stopped>
        requires { IsRunning (parts_of self.old) }
        ensures running { OnOk result (IsRunning (parts_of self.new)) }
        ensures empty { OnOk result ((cache_at (parts_of self.new).caches class.number).count ≡ 0) }
        ensures keeps { OnOk result (KeepsAll class.number
            (parts_of self.old) (parts_of self.new)) }
        ensures order { OnOk result (Flushes class.number (parts_of self.old) (parts_of self.new)) }
        ensures few { (parts_of self.new).words.drawn
            ≤ (parts_of self.old).words.drawn
            + 9 * (cache_at (parts_of self.old).caches class.number).count }
        ensures below { OnOk result ((parts_of self.new).words.drawn
            ≤ (parts_of self.new).words.budget) }
        ensures stopped { IfErr result (λ e. StopsWithin e.step most_flush_draws
            (parts_of self.old).words (parts_of self.new).words) }
        ensures held { held_in (parts_of self.new) ≡ held_in (parts_of self.old) }
        ensures leaves_held { LeavesHeld (held_in (parts_of self.old))
            (parts_of self.old) (parts_of self.new) }
        ensures taken { (parts_of self.new).taken ≡ (parts_of self.old).taken }
    {
        while self.caches[class.number as usize].count > 0 {
            let prefix = self.longest_prefix(class)?;
            self.give(class, prefix)?;
        }
        Ok(())
    }

    /// The longest prefix of the cache, which is not empty, that lies in one superblock.
    fn longest_prefix(&mut self, class: SizeClass) -> Result<CachePrefix, Stopped>
        requires running { IsRunning (parts_of self.old) }
        requires some { 1 ≤ (cache_at (parts_of self.old).caches class.number).count }
        ensures ok { IfOk result (λ prefix. IsCachePrefix class.number prefix (parts_of self.new)) }
        ensures longest { IfOk result (λ prefix. IsLongest prefix (parts_of self.new)) }
        ensures words { OnOk result ((parts_of self.new).words.volatile
            ≡ (parts_of self.old).words.volatile) }
        ensures running { OnOk result (IsRunning (parts_of self.new)) }
        ensures keeps { OnOk result (KeepsAll class.number
            (parts_of self.old) (parts_of self.new)) }
        ensures caches { (parts_of self.new).caches ≡ (parts_of self.old).caches }
        ensures runs_within { IfOk result (λ prefix. RunsWithin prefix.batch.count
            (parts_of self.old).words (parts_of self.new).words) }
        ensures stopped { IfErr result (λ e.
            StopsWithin e.step (cache_at (parts_of self.old).caches class.number).count
            (parts_of self.old).words (parts_of self.new).words) }
        ensures held { held_in (parts_of self.new) ≡ held_in (parts_of self.old) }
        ensures leaves_held { LeavesHeld (held_in (parts_of self.old))
            (parts_of self.old) (parts_of self.new) }
        ensures taken { (parts_of self.new).taken ≡ (parts_of self.old).taken }
    {
        let cache = self.caches[class.number as usize];
        let d = self.geometry.superblock_of(cache.first);
        let mut last = cache.first;
        let mut next = self.medium.load(last)?;
        let mut count = 1;
        while count < cache.count && self.geometry.superblock_of(next) == d {
            last = next;
            next = self.medium.load(last)?;
            count += 1;
        }
        let words = block_words(class);
        Ok(CachePrefix {
            d,
            batch: Batch {
                first: (cache.first - self.geometry.start(d)) / words,
                last,
                count,
            },
            rest: Cache {
                first: next,
                count: cache.count - count,
            },
        })
    }

    /// Gives the prefix of the cache back. A superblock that was full goes to a list: that of the
    /// free ones if all its blocks are given, else that of the class.
    fn give(&mut self, class: SizeClass, prefix: CachePrefix) -> Result<(), Stopped>
        requires running { IsRunning (parts_of self.old) }
        requires prefix { IsCachePrefix class.number prefix (parts_of self.old) }
        ensures running { OnOk result (IsRunning (parts_of self.new)) }
        ensures gives { OnOk result (GivesBack class.number prefix
            (parts_of self.old) (parts_of self.new)) }
        ensures order { OnOk result (GivesTo class.number prefix
            (parts_of self.old) (parts_of self.new)) }
        ensures in_front { OnOk result (GivesPrefix class.number prefix
            (parts_of self.old) (parts_of self.new)) }
        ensures runs_within { OnOk result (RunsWithin 6
            (parts_of self.old).words (parts_of self.new).words) }
        ensures stopped { IfErr result (λ e. StopsWithin e.step 6
            (parts_of self.old).words (parts_of self.new).words) }
        ensures held { held_in (parts_of self.new) ≡ held_in (parts_of self.old) }
        ensures leaves_held { LeavesHeld (held_in (parts_of self.old))
            (parts_of self.old) (parts_of self.new) }
        ensures taken { (parts_of self.new).taken ≡ (parts_of self.old).taken }
    {
        let anchor = self
            .medium
            .give_blocks(self.geometry, prefix.d, class, prefix.batch)?;
        self.caches[class.number as usize] = prefix.rest;
        if anchor.state == State::Full {
            let all = prefix.batch.count == blocks_of(class.number);
            let list = if all { FREE_LIST } else { class.number as u64 };
            self.medium.push(self.geometry, list, prefix.d)?;
        }
        Ok(())
    }
}
