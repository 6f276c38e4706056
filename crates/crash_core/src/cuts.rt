//! How the blocks that were made of a superblock go into a cache.

ghost use Rattle.std.specs.Prelude.{◌≡◌, ◌<◌, ◌↔◌, length, true};
ghost use Rattle.heap_model.specs.Chains.{Walks};
ghost use Rattle.heap_model.specs.Geometry.{start_word};
ghost use Rattle.core_model.specs.Memory.{next};
ghost use Rattle.core_model.specs.Effects.{class_blocks};
ghost use Rattle.core_model.specs.ViewAfter.{after_cut};
ghost use Rattle.core_model.specs.Guards.{MayCut};
ghost use Rattle.crash_core.specs.Standing.{IsCore, Decides, Moves, memory_at};

use crate::anchor_exchanges::give_chain;
use crate::owners::{BlockOwner, BlockPlace};
use crate::reads::{durable_info, durable_used, info, next};
use crate::state::CoreState;
use crate::usages::usage;
use seat_state::{Cache, SeatNotes, Seen, SuperblockOwner, SuperblockUsage};
use size_table::{SizeClass, blocks_of};
use super_block::{LAST_CLASS, block_words};

/// Whether all blocks of the superblock may go into the cache of its class: the seat has made
/// them, the class is durable and so is the mark, and the cache is empty.
pub(crate) fn may_cut(core: &CoreState, seat: usize, d: u64) -> bool
    requires core { IsCore core.now }
    requires seat { seat < length core.now.seats.items }
    ensures { Decides core.now seat (λ m v. MayCut m v d) result }
{
    if !usage(core, seat, d).is_cutting() {
        return false;
    }
    if d >= durable_used(core) {
        return false;
    }
    let class = info(core, d);
    if class == 0 {
        return false;
    }
    if class > LAST_CLASS {
        return false;
    }
    if durable_info(core, d) != class {
        return false;
    }
    if core.seats[seat].caches[class as usize].count != 0 {
        return false;
    }
    is_linked(core, d, SizeClass::new(class as u8))
}

/// Whether each block of the superblock, when it is cut for the class, leads to the next one.
fn is_linked(core: &CoreState, d: u64, class: SizeClass) -> bool
    requires core { IsCore core.now }
    requires d { d < core.now.geometry.capacity }
    ensures { (result ≡ true) ↔ Walks (next (memory_at core.now))
        (start_word core.now.geometry.capacity d)
        (class_blocks core.now.geometry.capacity class.number d) }
{
    let words = block_words(class);
    let mut block = core.geometry.start(d);
    for _step in 1..blocks_of(class.number) {
        if next(core, block) != block + words {
            return false;
        }
        block += words;
    }
    true
}

/// Puts all blocks of a superblock that was made ready into the cache of its class.
pub(crate) fn cut(core: &mut CoreState, seat: usize, d: u64)
    requires core { IsCore core.old }
    requires seat { seat < length core.old.seats.items }
    requires may { Decides core.old seat (λ m v. MayCut m v d) true }
    ensures { Moves core.old seat (λ m v. after_cut m v d) core.new }
{
    let notes = core.seats[seat];
    let class = info(core, d);
    let first = core.geometry.start(d);
    let count = blocks_of(class as u8);
    let owner = BlockOwner {
        seat,
        place: BlockPlace::Cached,
    };
    give_chain(&core.words, &mut core.blocks, first, count, owner);
    core.superblocks[d as usize] = SuperblockOwner {
        seat,
        usage: SuperblockUsage::Nothing,
    };
    let mut caches = notes.caches;
    caches[class as usize] = Cache { first, count };
    core.seats[seat] = SeatNotes {
        caches,
        seen_anchor: Seen::cleared(notes.seen_anchor, d, 1),
        ..notes
    };
}
