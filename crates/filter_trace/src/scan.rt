//! The steps of a trace: where a word leads, and what the roots and the links of a block add.
ghost use Rattle.std.specs.Prelude.{◌≡◌, ℕ, ◌+◌, ◌*◌, ◌<◌, ◌≤◌, ◌^◌, List, length, slice_index, OnOk, IfErr, IsErr};
ghost use Rattle.std.specs.List.{All};
ghost use Rattle.heap_model.specs.declared.block.Block.{Block};
ghost use Rattle.heap_model.specs.Geometry.{roots};
ghost use Rattle.heap_model.specs.Blocks.{layout_of, IsBlock};
ghost use Rattle.heap_model.specs.Reach.{Reach, words_in};
ghost use Rattle.super_block.specs.Division.{Describes};
ghost use Rattle.filter_trace.specs.Steps.{IsImage, IsSetOf, HasSamePairs, FollowsWord, FollowsAllRoots, HasFound, FollowsAllLinks};
ghost use Rattle.filter_trace.specs.Reached.{TellsOutside};
ghost use Rattle.filter_trace.specs.Trace.{LeadsTo, TellsOfWord, TellsOfRoots};

use crate::fault::TraceFault;
use crate::filter::Filter;
use crate::pairs::PairSet;
use heap_model::Block;
use offset_ptr::{Ptr, decode};
use super_block::{Directory, ROOT_WORD};

/// Where a word leads.
#[derive(Clone, Copy)]
pub enum Target {
    /// It is null.
    Null,
    /// To a block.
    To(Block),
    /// It is neither null nor a pointer to a block's first byte.
    Nowhere,
}

/// An image, and where its blocks are.
#[derive(Clone, Copy)]
pub struct Scan<'a> {
    pub words: &'a [u64],
    pub directory: &'a Directory,
}

impl Scan<'_> {
    /// Where the word leads.
    pub fn target_of(&self, word: u64) -> Target
        requires { Describes self.now.directory.now (layout_of (slice_index self.now.words.now)) }
        ensures { LeadsTo (slice_index self.now.words.now) word result }
    {
        match decode(word) {
            Ptr::Null => Target::Null,
            Ptr::At(offset) => match self.directory.name(offset) {
                Some(block) => Target::To(block),
                None => Target::Nowhere,
            },
            Ptr::Alien => Target::Nowhere,
        }
    }

    /// The words of the block.
    #[tactic(auto, using(heap_model::specs::Geometry::largest_capacity_fits))]
    pub fn words_of(&self, block: Block) -> &[u64]
        requires formed { IsImage self.now.words.now }
        requires block { IsBlock (layout_of (slice_index self.now.words.now)) block }
        ensures words { result.now ≡ words_in (slice_index self.now.words.now) block }
        ensures within { block.first_word + length result.now ≤ length self.now.words.now }
        ensures short { length self.now.words.now < 2 ^ 32 }
    {
        let first = block.first_word as usize;
        &self.words[first..first + block.words as usize]
    }

    /// Adds what the word at the index leads to, as one of the kind. An answer that is an error leaves
    /// the set as it was.
    pub fn follow(&self, at: usize, kind: u32, found: &mut PairSet) -> Result<(), TraceFault>
        requires at { at < length self.now.words.now }
        requires described { Describes self.now.directory.now
            (layout_of (slice_index self.now.words.now)) }
        requires kind { kind < found.old.kinds }
        requires marked { IsSetOf self.now.words.now found.old }
        ensures kinds { found.new.kinds ≡ found.old.kinds }
        ensures ok { OnOk result (FollowsWord self.now.words.now at kind found.old found.new) }
        ensures err { IfErr result (TellsOfWord (slice_index self.now.words.now) at) }
        ensures unchanged { IsErr result → HasSamePairs found.old found.new }
    {
        let value = self.words[at];
        match self.target_of(value) {
            Target::Null => Ok(()),
            Target::To(block) => {
                found.insert(block, kind)?;
                Ok(())
            }
            Target::Nowhere => Err(TraceFault::Outside {
                at: at as u64,
                value,
            }),
        }
    }

    /// Adds what the roots lead to, each as one of the root's kind, to the empty set.
    pub(crate) fn follow_roots(&self, kinds: &[u32], found: &mut PairSet) -> Result<(), TraceFault>
        requires formed { IsImage self.now.words.now }
        requires described { Describes self.now.directory.now
            (layout_of (slice_index self.now.words.now)) }
        requires roots { length kinds.now ≡ roots }
        requires kinds { All (λ kind. kind < found.old.kinds) kinds.now }
        requires empty { length found.old.pairs.items ≡ 0 }
        requires marked { IsSetOf self.now.words.now found.old }
        ensures kinds { found.new.kinds ≡ found.old.kinds }
        ensures ok { OnOk result (FollowsAllRoots self.now.words.now kinds.now found.old.kinds
            found.new) }
        ensures err { IfErr result (TellsOfRoots (slice_index self.now.words.now)) }
    {
        for (root, kind) in kinds.iter().enumerate() {
            self.follow(ROOT_WORD as usize + root, *kind, found)?;
        }
        Ok(())
    }

    /// Adds what the links of a block lead to, which has been reached as one of the kind.
    pub(crate) fn follow_links<F: Filter>(
        &self,
        kinds: &[u32],
        filter: &F,
        block: Block,
        kind: u32,
        found: &mut PairSet,
    ) -> Result<(), TraceFault>
        requires formed { IsImage self.now.words.now }
        requires described { Describes self.now.directory.now
            (layout_of (slice_index self.now.words.now)) }
        requires kinds { found.old.kinds ≡ F.KINDS }
        requires reached { Reach (slice_index self.now.words.now) (slice_index kinds.now)
            (F.links_of filter.now) block kind }
        requires found { HasFound self.now.words.now kinds.now (F.links_of filter.now) F.KINDS
            found.old }
        ensures kinds { found.new.kinds ≡ found.old.kinds }
        ensures ok { OnOk result (FollowsAllLinks self.now.words.now kinds.now
            (F.links_of filter.now) F.KINDS block kind found.old found.new) }
        ensures err { IfErr result (TellsOutside (slice_index self.now.words.now)
            (slice_index kinds.now) (F.links_of filter.now)) }
    {
        let first = block.first_word as usize;
        let inside = self.words_of(block);
        let mut at = 0;
        while let Some((position, to)) = filter.links(kind, inside, at) {
            self.follow(first + position, to, found)?;
            at += 1;
        }
        Ok(())
    }
}
