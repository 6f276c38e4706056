//! The pass over the superblocks that have been taken, in whatever way it is made.
ghost use Rattle.std.specs.Prelude.{◌≡◌, ◌*◌, ⊤, length, slice_index, IfOk};
ghost use Rattle.heap_model.specs.Header.{IsWellFormed, capacity_of, used_of};
ghost use Rattle.heap_model.specs.Blocks.{layout_of};
ghost use Rattle.super_block.specs.Division.{Describes};
ghost use Rattle.heap_recover.specs.Marked.{IsMarked, KeepsBlocks};
ghost use Rattle.heap_recover.specs.Rebuilt.{AreDone};

use crate::passes::rebuild_taken;
use crate::roles::Role;
use filter_trace::Marks;
use std::alloc::{AllocError, Global};
use super_block::{Block, Geometry};

/// What recovery finds in the superblocks of an image.
#[derive(Drop)]
pub struct Found {
    /// The kept blocks, in order.
    pub held: Vec<Block>,
    /// The role of each superblock that has been taken.
    pub roles: Vec<Role>,
}

/// A way to rebuild the superblocks that have been taken. All ways leave the same words.
pub trait RebuildPass {
    // What has to hold of the way for it to be taken.
    ghost ready: { Self → Type 0 };

    /// Rebuilds the `used` superblocks of an image that have been taken, each in its role.
    fn rebuild_taken(
        &self,
        alloc: Global,
        words: &mut [u64],
        geometry: &Geometry,
        used: u64,
        marks: &Marks,
    ) -> Result<Found, AllocError>
        requires ready { ready self.now }
        requires formed { IsWellFormed (8 * length words.old) (slice_index words.old) }
        requires capacity { geometry.now.capacity ≡ capacity_of (slice_index words.old) }
        requires used { used ≡ used_of (slice_index words.old) }
        requires keeps { KeepsBlocks (layout_of (slice_index words.old))
            (IsMarked marks.now.pairs) }
        requires described { Describes marks.now.directory (layout_of (slice_index words.old)) }
        ensures ok { IfOk result (λ found. AreDone (slice_index words.old) (slice_index words.new)
            (IsMarked marks.now.pairs) used found.held.items found.roles.items) };
}

/// One superblock after the other, from the lowest on.
pub struct InOrder;

impl RebuildPass for InOrder {
    ghost ready = { λ _. ⊤ };

    fn rebuild_taken(
        &self,
        alloc: Global,
        words: &mut [u64],
        geometry: &Geometry,
        used: u64,
        marks: &Marks,
    ) -> Result<Found, AllocError> {
        rebuild_taken(alloc, words, geometry, used, marks)
    }
}
