//! Free blocks that are taken from a superblock, or given back to it, by its anchor.
ghost use Rattle.std.specs.Prelude.{◌≡◌, ◌<◌, ◌≤◌, ◌+◌, ◌*◌, ◌^◌};
ghost use Rattle.heap_model.specs.Geometry.{start_word};
ghost use Rattle.heap_model.specs.Sizes.{words_of_class};
ghost use Rattle.block_heap.specs.Batches.{given_to};
ghost use Rattle.block_heap.specs.Draws.{most_blocks};

use crate::cache::Cache;
use crate::medium::Medium;
use anchor_word::{Anchor, State, give, pack, take_all, unpack};
use line_memory::{Chance, Stopped};
use size_table::{SizeClass, blocks_of};
use super_block::{Geometry, block_words};

/// Free blocks of one superblock in a chain: the index of the first one, the first word of the last
/// one, and how many there are.
#[derive(Clone, Copy)]
pub(crate) struct Batch {
    pub(crate) first: u64,
    pub(crate) last: u64,
    pub(crate) count: u64,
}

impl<C: Chance> Medium<C> {
    ghost use Rattle.std.specs.Prelude.{◌≢◌, IfOk, OnOk, IfErr};
    ghost use Rattle.heap_model.specs.Geometry.{anchor_word, image_words};
    ghost use Rattle.heap_model.specs.Words.{anchor_state, anchor_count};
    ghost use Rattle.heap_model.specs.Sizes.{blocks_of};
    ghost use Rattle.anchor_word.specs.Anchor.{IsPackable};
    ghost use Rattle.block_heap.specs.Batches.{IsGiven, IsGiveWord, IsLinkedTo};
    ghost use Rattle.line_memory.specs.View.{volatile_at};
    ghost use Rattle.block_heap.specs.MediumView.{medium_view};
    ghost use Rattle.block_heap.specs.Medium.{StoresOnly, StopsWithin};
    ghost use Rattle.block_heap.specs.Links.{IsOpen};
    ghost use Rattle.block_heap.specs.Anchors.{IsTakenFrom, AnchorRead};

    /// Takes all free blocks of superblock `d`, where some are free and not all.
    pub(crate) fn take_blocks(
        &mut self,
        geometry: Geometry,
        d: u64,
        class: SizeClass,
    ) -> Result<Option<Cache>, Stopped>
        requires open { IsOpen geometry.capacity (medium_view self.old) }
        requires superblock { d < geometry.capacity }
        requires anchor { anchor_state (volatile_at (medium_view self.old) (anchor_word d)) ≢ 3 }
        ensures ok { IfOk result (λ taken.
            IsTakenFrom geometry.capacity class.number d taken
            (medium_view self.old) (medium_view self.new)) }
        ensures stopped { IfErr result (λ e. StopsWithin e.step 2
            (medium_view self.old) (medium_view self.new)) }
        ensures others { StoresOnly (λ word. word ≡ anchor_word d)
            (medium_view self.old) (medium_view self.new) }
    {
        let anchor = self.anchor(geometry, d)?;
        match anchor.state {
            State::Partial => {
                let full = pack(&take_all(&anchor));
                self.store(geometry.anchor(d), full)?;
                Ok(Some(Cache {
                    first: block_word(geometry, d, class, anchor.first),
                    count: anchor.count,
                }))
            }
            _ => Ok(None),
        }
    }

    /// Gives the blocks back to superblock `d`, and says what its anchor was.
    pub(crate) fn give_blocks(
        &mut self,
        geometry: Geometry,
        d: u64,
        class: SizeClass,
        batch: Batch,
    ) -> Result<Anchor, Stopped>
        requires open { IsOpen geometry.capacity (medium_view self.old) }
        requires superblock { d < geometry.capacity }
        requires anchor { anchor_state (volatile_at (medium_view self.old) (anchor_word d)) ≢ 3 }
        requires first { batch.first < blocks_of class.number }
        requires last { batch.last < image_words geometry.capacity }
        requires fits { batch.count
            + anchor_count (volatile_at (medium_view self.old) (anchor_word d))
            ≤ blocks_of class.number }
        ensures ok { IfOk result (λ anchor.
            IsGiven geometry.capacity class.number d batch anchor
            (medium_view self.old) (medium_view self.new)) }
        ensures stopped { IfErr result (λ e. StopsWithin e.step 3
            (medium_view self.old) (medium_view self.new)) }
        ensures others { StoresOnly (IsGiveWord d batch)
            (medium_view self.old) (medium_view self.new) }
    {
        let anchor = self.anchor(geometry, d)?;
        self.link_last(geometry, d, class, batch, anchor)?;
        let given = given_word(&anchor, batch, blocks_of(class.number));
        self.store(geometry.anchor(d), given)?;
        Ok(anchor)
    }

    /// Links the last block of the batch to the chain of the anchor, where there is one.
    fn link_last(
        &mut self,
        geometry: Geometry,
        d: u64,
        class: SizeClass,
        batch: Batch,
        anchor: Anchor,
    ) -> Result<(), Stopped>
        requires open { IsOpen geometry.capacity (medium_view self.old) }
        requires superblock { d < geometry.capacity }
        requires anchor { IsPackable anchor }
        requires last { batch.last < image_words geometry.capacity }
        ensures ok { OnOk result (IsLinkedTo geometry.capacity class.number d batch anchor
            (medium_view self.old) (medium_view self.new)) }
        ensures stopped { IfErr result (λ e. StopsWithin e.step 1
            (medium_view self.old) (medium_view self.new)) }
        ensures others { StoresOnly (λ word. word ≡ batch.last)
            (medium_view self.old) (medium_view self.new) }
    {
        if anchor.count == 0 {
            return Ok(());
        }
        self.store(batch.last, block_word(geometry, d, class, anchor.first))
    }

    /// The anchor of superblock `d`.
    fn anchor(&mut self, geometry: Geometry, d: u64) -> Result<Anchor, Stopped>
        requires open { IsOpen geometry.capacity (medium_view self.old) }
        requires superblock { d < geometry.capacity }
        requires anchor { anchor_state (volatile_at (medium_view self.old) (anchor_word d)) ≢ 3 }
        ensures ok { IfOk result (λ anchor. AnchorRead d anchor
            (medium_view self.old) (medium_view self.new)) }
        ensures stopped { IfErr result (λ e. StopsWithin e.step 1
            (medium_view self.old) (medium_view self.new)) }
        ensures unchanged { StoresOnly (λ _. ⊥) (medium_view self.old) (medium_view self.new) }
    {
        let word = self.load(geometry.anchor(d))?;
        match unpack(word) {
            Some(anchor) => Ok(anchor),
            None => unreachable!(),
        }
    }
}

/// The first word of block `index` of superblock `d`, if there were so many.
fn block_word(geometry: Geometry, d: u64, class: SizeClass, index: u64) -> u64
    requires superblock { d < geometry.capacity }
    requires index { index < 2 ^ 31 }
    ensures { result ≡ start_word geometry.capacity d + index * words_of_class class.number }
{
    geometry.start(d) + index * block_words(class)
}

/// The word of the anchor once the blocks are given back, of a superblock of `max` blocks.
fn given_word(anchor: &Anchor, batch: Batch, max: u64) -> u64
    requires fits { batch.count + anchor.now.count ≤ max }
    requires first { batch.first < max }
    requires max { max ≤ most_blocks }
    ensures { result ≡ given_to anchor.now batch max }
{
    let given = give(anchor, batch.first, batch.count, max);
    pack(&given)
}
