//! Whose the superblocks of a heap at rest are, as it is opened for some seats.

ghost use Rattle.std.specs.Prelude.{◌≡◌, ◌+◌, ◌<◌, ◌≤◌, length, IfOk};
ghost use Rattle.seat_state.specs.OpenedSuperblocks.{AreSuperblockOwners, IsLargeGiven};
ghost use Rattle.seat_state.specs.Superblocks.{IsRange};

use crate::superblocks::{NO_SUPERBLOCK, SuperblockOwner, SuperblockUsage};
use std::alloc::{AllocError, Global};
use super_block::{Ready, SUPERBLOCK_WORDS};

/// Whose each superblock is, where the held blocks belong to these seats.
pub fn superblock_owners(
    alloc: Global,
    heap: &Ready,
    owners: &[u32],
) -> Result<Vec<SuperblockOwner>, AllocError>
    requires { length owners.now ≡ length heap.now.held }
    ensures ok { IfOk result (λ superblocks. AreSuperblockOwners heap.now.words heap.now.held
        owners.now superblocks.items) }
{
    let geometry = heap.geometry();
    let mut superblocks = vec![in alloc; NO_SUPERBLOCK; geometry.capacity() as usize]?;
    for (i, block) in heap.held().iter().enumerate() {
        if block.words >= SUPERBLOCK_WORDS {
            let d = geometry.superblock_of(block.first_word);
            let count = block.words / SUPERBLOCK_WORDS;
            give_large(&mut superblocks, owners[i] as usize, d, count);
        }
    }
    Ok(superblocks)
}

/// Gives a seat the superblocks of a large block, `count` of them from `d` on.
fn give_large(superblocks: &mut Vec<SuperblockOwner>, seat: usize, d: u64, count: u64)
    requires some { 0 < count }
    requires inside { d + count ≤ length superblocks.old.items }
    ensures { IsLargeGiven superblocks.old.items superblocks.new.items seat d count }
{
    let rest = SuperblockOwner {
        seat,
        usage: SuperblockUsage::Large { count: 0 },
    };
    give_range(superblocks, d, count, rest);
    superblocks[d as usize] = SuperblockOwner {
        seat,
        usage: SuperblockUsage::Large { count },
    };
}

/// Gives `n` superblocks from one on an owner.
pub fn give_range(owners: &mut Vec<SuperblockOwner>, from: u64, n: u64, owner: SuperblockOwner)
    requires { from + n ≤ length owners.old.items }
    ensures { IsRange owners.old.items owners.new.items from n owner }
{
    for d in from..from + n {
        owners[d as usize] = owner;
    }
}
