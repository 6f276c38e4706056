//! What the core keeps of a heap at rest, as it is opened for some seats.

ghost use Rattle.std.specs.Prelude.{◌≡◌, ◌<◌, ◌≤◌, length, IfOk};
ghost use Rattle.heap_model.specs.Rest.{IsReady};
ghost use Rattle.core_model.specs.Opening.{AreOwners, setup_of, opened_state};
ghost use Rattle.crash_core.specs.OpenedOwners.{AreBlockOwners};
ghost use Rattle.crash_core.specs.Standing.{Represents};

use crate::owners::{BlockOwner, BlockPlace};
use crate::state::CoreState;
use seat_state::{NEW_SEAT, Owners, opened_table, superblock_owners};
use std::alloc::{AllocError, Global};
use super_block::{Ready, SUPERBLOCK_WORDS};

/// A block that nobody has.
const NO_BLOCK: BlockOwner = BlockOwner {
    seat: 0,
    place: BlockPlace::Nowhere,
};

/// The core of a heap at rest: each held block and each root belongs to one seat, and no seat has
/// done anything yet.
pub(crate) fn opened_core(
    alloc: Global,
    heap: &Ready,
    owners: &Owners,
    seats: usize,
    budget: u64,
) -> Result<CoreState, AllocError>
    requires owners { AreOwners heap.now.held seats owners.now.held owners.now.roots }
    requires seats { seats ≤ 8 }
    requires budget { budget < 1099511627776 }
    ensures ok { IfOk result (λ core. Represents core (setup_of heap.now.words budget seats)
        (opened_state (setup_of heap.now.words budget seats) heap.now.held
        owners.now.held owners.now.roots seats)) }
{
    Ok(CoreState {
        geometry: heap.geometry(),
        budget,
        words: opened_table(alloc, heap)?,
        seats: vec![in alloc; NEW_SEAT; seats]?,
        carriers: 0,
        blocks: block_owners(alloc, heap, owners.held())?,
        superblocks: superblock_owners(alloc, heap, owners.held())?,
        roots: Vec::from_slice(alloc, owners.roots())?,
    })
}

/// Whose each small block is, where the held blocks belong to these seats.
pub(crate) fn block_owners(
    alloc: Global,
    heap: &Ready,
    owners: &[u32],
) -> Result<Vec<BlockOwner>, AllocError>
    requires { length owners.now ≡ length heap.now.held }
    ensures ok { IfOk result (λ blocks. AreBlockOwners heap.now.words heap.now.held
        owners.now blocks.items) }
    ensures ready { IfOk result (λ blocks. IsReady heap.now.words heap.now.held) }
{
    let length = heap.geometry().length();
    let mut blocks = vec![in alloc; NO_BLOCK; length as usize]?;
    for (i, block) in heap.held().iter().enumerate() {
        if block.words < SUPERBLOCK_WORDS {
            blocks[block.first_word as usize] = BlockOwner {
                seat: owners[i] as usize,
                place: BlockPlace::Held,
            };
        }
    }
    Ok(blocks)
}
