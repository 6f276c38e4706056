//! What a trace has reached.
ghost use Rattle.std.specs.Prelude.{◌≡◌, ℕ, ◌<◌, ◌^◌, ◌↔◌, IsTrue, Contains};
ghost use Rattle.heap_model.specs.declared.block.Block.{Block};
ghost use Rattle.heap_model.specs.Blocks.{Layout, IsBlock};
ghost use Rattle.super_block.specs.Division.{Describes};
ghost use Rattle.filter_trace.specs.Reached.{IsReachedAt};
ghost use Rattle.filter_trace.specs.Steps.{AreOfImage};

use crate::pairs::PairSet;
use heap_model::Block;
use std::marker::Model;
use super_block::{Directory, WORD_BYTES};

/// What a trace has reached: blocks, each with the kinds that it was reached with.
#[derive(Drop)]
pub struct Marks {
    pub(crate) directory: Directory,
    pub(crate) found: PairSet,
}

impl Model for Marks {
    ghost use Rattle.filter_trace.specs.Reached.{Traced};

    ghost Value = { Traced };

    ghost use Rattle.filter_trace.specs.MarksInside.{HasImage};

    ghost view = { λ m. record { directory = m.directory; pairs = m.found.pairs.items } };

    ghost invariant = { HasImage };
}

impl Marks {
    /// What a trace has reached whose pairs are these.
    pub fn of(directory: Directory, found: PairSet) -> Marks
        requires { AreOfImage directory found }
        ensures directory { result.directory ≡ directory }
        ensures pairs { result.pairs ≡ found.pairs.items }
    {
        Marks { directory, found }
    }

    /// Whether the block has been reached as one of the kind. Also a block that the image does not
    /// have may be asked for.
    pub fn has(&self, block: Block, kind: u32) -> bool
        ensures { IsTrue result ↔ Contains self.now.pairs (block, kind) }
    {
        if !is_block(&self.directory, block) {
            return false;
        }
        kind < self.found.kinds && self.found.has(block, kind)
    }

    /// Whether the block with the index in the superblock has been reached. The blocks of a class
    /// are counted from 0, and a large block has index 0 in its first superblock; where the
    /// superblock begins no such block the answer is no. Time grows with how many kinds there are.
    pub fn holds(&self, superblock: u64, index: u64) -> bool
        ensures { (l : Layout) → Describes self.now.directory l
            → (IsTrue result ↔ IsReachedAt l self.now.pairs superblock index) }
    {
        match self.directory.block(superblock, index) {
            Some(block) => self.found.holds_at(block.first_word),
            None => false,
        }
    }
}

/// Whether the image that the directory describes has the block.
fn is_block(directory: &Directory, block: Block) -> bool
    ensures yes { (l : Layout) → Describes directory.now l → IsTrue result → IsBlock l block }
    ensures no { (l : Layout) → Describes directory.now l → block.first_word < 2 ^ 32
        → IsBlock l block → IsTrue result }
{
    let Some(offset) = block.first_word.checked_mul(WORD_BYTES) else {
        return false;
    };
    match directory.name(offset) {
        Some(named) => named == block,
        None => false,
    }
}
