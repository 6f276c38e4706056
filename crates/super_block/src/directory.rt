//! How each superblock of an image is divided, read once, so that the block of an offset, or of an
//! index, is found in constant time.

ghost use Rattle.std.specs.Prelude.{◌*◌, length, slice_index, IfOk, IfSome, IfNone};
ghost use Rattle.heap_model.specs.declared.block.Block.{Block};
ghost use Rattle.heap_model.specs.Header.{IsWellFormed};
ghost use Rattle.heap_model.specs.Blocks.{Layout, layout_of, NamesIn};
ghost use Rattle.super_block.specs.Division.{Describes, DividesTaken, FitsIn};
ghost use Rattle.super_block.specs.Index.{HasIndex};

use crate::division::{Division, division_at};
use crate::layout::{CAPACITY_WORD, USED_WORD};
use crate::naming::{block_in, place_of, start_of};
use heap_model::Block;
use std::alloc::{AllocError, Global};
use std::marker::Model;

/// What each superblock that has been taken begins.
#[derive(Drop)]
pub struct Directory {
    capacity: u64,
    divisions: Vec<Option<Division>>,
}

impl Model for Directory {
    ghost use Rattle.std.specs.Prelude.{◌≤◌, All, IfSome};
    ghost use Rattle.heap_model.specs.Geometry.{largest_capacity};
    ghost use Rattle.super_block.specs.Division.{Divisions, AreDivisions};

    ghost Value = { Divisions };

    ghost view = { λ a. record { capacity = a.capacity; of = a.divisions.items } };

    ghost invariant = { λ a. AreDivisions a.capacity a.divisions.items };
}

impl Directory {
    /// The directory of the image, whose header is well formed. One pass over the descriptors.
    pub fn of(alloc: Global, words: &[u64]) -> Result<Directory, AllocError>
        requires { IsWellFormed (8 * length words.now) (slice_index words.now) }
        ensures ok { IfOk result (λ directory.
            Describes directory (layout_of (slice_index words.now))) }
    {
        let used = words[USED_WORD as usize];
        let mut divisions = Vec::with_capacity(alloc, used as usize)?;
        for d in 0..used {
            divisions.push(division_at(words, d))?;
        }
        Ok(Directory {
            capacity: words[CAPACITY_WORD as usize],
            divisions,
        })
    }

    /// The block that the byte offset names, or `None` where it names nothing.
    pub fn name(&self, offset: u64) -> Option<Block>
        ensures some { (l : Layout) → Describes self.now l → IfSome result (NamesIn l offset) }
        ensures none { (l : Layout) → Describes self.now l
            → IfNone result ((b : Block) → NamesIn l offset b → ⊥) }
    {
        let Some(place) = place_of(self.capacity, offset) else {
            return None;
        };
        let Some(division) = self.division(place.superblock) else {
            return None;
        };
        block_in(self.capacity, place, division)
    }

    /// The block with the index among those that the superblock begins, counted from 0, or `None`
    /// where the superblock has not been taken or begins no such block. A large block has index 0 in
    /// the first of its superblocks.
    pub fn block(&self, superblock: u64, index: u64) -> Option<Block>
        ensures some { (l : Layout) → Describes self.now l
            → IfSome result (HasIndex l superblock index) }
        ensures none { (l : Layout) → Describes self.now l
            → IfNone result ((b : Block) → HasIndex l superblock index b → ⊥) }
    {
        let Some(division) = self.division(superblock) else {
            return None;
        };
        if index >= division.count {
            return None;
        }
        Some(Block {
            first_word: start_of(self.capacity, superblock) + index * division.words,
            words: division.words,
        })
    }

    /// What the superblock begins, or `None` where it has not been taken or begins no block.
    fn division(&self, superblock: u64) -> Option<Division>
        ensures divided { (l : Layout) → Describes self.now l → DividesTaken l superblock result }
        ensures room { IfSome result (FitsIn self.now.capacity superblock) }
    {
        if superblock >= self.divisions.len() as u64 {
            return None;
        }
        self.divisions[superblock as usize]
    }
}
