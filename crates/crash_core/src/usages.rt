//! What a seat has of a superblock, and where it has a block.

ghost use Rattle.std.specs.Prelude.{◌≡◌, ◌+◌, get_or};
ghost use Rattle.heap_model.specs.Counting.{one_if};
ghost use Rattle.seat_state.specs.Superblocks.{usage_for, no_superblock};
ghost use Rattle.crash_core.specs.Standing.{place_for, no_block, held_in, cached_in, batched_in};

use crate::owners::BlockPlace;
use crate::state::CoreState;
use seat_state::SuperblockUsage;

/// What the seat has of superblock `d`; nothing where there is no such superblock.
pub(crate) fn usage(core: &CoreState, seat: usize, d: u64) -> SuperblockUsage
    ensures { result ≡ usage_for seat (get_or core.now.superblocks.items d no_superblock) }
{
    if d >= core.superblocks.len() as u64 {
        return SuperblockUsage::Nothing;
    }
    let owner = core.superblocks[d as usize];
    if owner.seat == seat {
        owner.usage
    } else {
        SuperblockUsage::Nothing
    }
}

/// Where the seat has the block that begins at a word.
pub(crate) fn place(core: &CoreState, seat: usize, block: u64) -> BlockPlace
    ensures { result ≡ place_for seat (get_or core.now.blocks.items block no_block) }
{
    if block >= core.blocks.len() as u64 {
        return BlockPlace::Nowhere;
    }
    let owner = core.blocks[block as usize];
    if owner.seat == seat {
        owner.place
    } else {
        BlockPlace::Nowhere
    }
}

impl BlockPlace {
    /// Whether the seat holds the block.
    pub fn is_held(self) -> bool
        ensures { one_if result ≡ held_in self }
    {
        match self {
            BlockPlace::Held => true,
            BlockPlace::Nowhere | BlockPlace::Cached | BlockPlace::Batched => false,
        }
    }

    /// Whether the seat has the block at all.
    pub(crate) fn is_somewhere(self) -> bool
        ensures { one_if result ≡ held_in self + cached_in self + batched_in self }
    {
        match self {
            BlockPlace::Held | BlockPlace::Cached | BlockPlace::Batched => true,
            BlockPlace::Nowhere => false,
        }
    }
}
