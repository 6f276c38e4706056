//! How blocks go between what a seat holds, its caches and its batch.

ghost use Rattle.std.specs.Prelude.{◌≡◌, ◌<◌, ◌≤◌, length, get_or, true};
ghost use Rattle.heap_model.specs.Geometry.{start_word, superblocks_end, superblock_of};
ghost use Rattle.core_model.specs.Memory.{info};
ghost use Rattle.core_model.specs.ViewAfter.{after_alloc, after_free, after_lift};
ghost use Rattle.core_model.specs.Guards.{MayAlloc, MayFree, MayLift};
ghost use Rattle.crash_core.specs.Standing.{IsCore, Decides, Moves, memory_at, held_in, place_for, no_block};

use crate::owners::{BlockOwner, BlockPlace};
use crate::reads::{info, next};
use crate::state::CoreState;
use crate::usages::place;
use seat_state::{BatchEnds, Cache, SeatNotes};
use super_block::LAST_CLASS;

/// Whether the seat may hold the first block of the cache.
pub(crate) fn may_alloc(core: &CoreState, seat: usize, class: u64) -> bool
    requires core { IsCore core.now }
    requires seat { seat < length core.now.seats.items }
    ensures { Decides core.now seat (λ m v. MayAlloc v class) result }
{
    if class == 0 {
        return false;
    }
    if class > LAST_CLASS {
        return false;
    }
    core.seats[seat].caches[class as usize].count > 0
}

/// Holds the first block of the cache.
pub(crate) fn alloc(core: &mut CoreState, seat: usize, class: u64)
    requires core { IsCore core.old }
    requires seat { seat < length core.old.seats.items }
    requires may { Decides core.old seat (λ m v. MayAlloc v class) true }
    ensures { Moves core.old seat (λ m v. after_alloc v class) core.new }
{
    let notes = core.seats[seat];
    let cache = notes.caches[class as usize];
    let first = next(core, cache.first);
    core.blocks[cache.first as usize] = BlockOwner {
        seat,
        place: BlockPlace::Held,
    };
    let mut caches = notes.caches;
    caches[class as usize] = Cache {
        first,
        count: cache.count - 1,
    };
    core.seats[seat] = SeatNotes { caches, ..notes };
}

/// The class of a held block.
fn held_class(core: &CoreState, seat: usize, block: u64) -> u64
    requires core { IsCore core.now }
    requires seat { seat < length core.now.seats.items }
    requires held { 0 < held_in (place_for seat (get_or core.now.blocks.items block no_block)) }
    ensures class { result
        ≡ info (memory_at core.now) (superblock_of core.now.geometry.capacity block) }
    ensures some { 1 ≤ result }
    ensures last { result ≤ LAST_CLASS }
    ensures from { start_word core.now.geometry.capacity 0 ≤ block }
    ensures until { block < superblocks_end core.now.geometry.capacity }
{
    let d = core.geometry.superblock_of(block);
    info(core, d)
}

/// Whether the seat may put the held block in front of the cache of its class.
pub(crate) fn may_free(core: &CoreState, seat: usize, block: u64) -> bool
    requires core { IsCore core.now }
    requires seat { seat < length core.now.seats.items }
    ensures decides { Decides core.now seat (λ m v. MayFree m v block) result }
    ensures held { result ≡ true
        → 0 < held_in (place_for seat (get_or core.now.blocks.items block no_block)) }
{
    if !place(core, seat, block).is_held() {
        return false;
    }
    let class = held_class(core, seat, block);
    let notes = core.seats[seat];
    let cache = notes.caches[class as usize];
    if cache.count == 0 {
        return true;
    }
    next(core, block) == cache.first
}

/// Puts the held block in front of the cache of its class.
pub(crate) fn free(core: &mut CoreState, seat: usize, block: u64)
    requires core { IsCore core.old }
    requires seat { seat < length core.old.seats.items }
    requires may { Decides core.old seat (λ m v. MayFree m v block) true }
    requires held { 0 < held_in (place_for seat (get_or core.old.blocks.items block no_block)) }
    ensures { Moves core.old seat (λ m v. after_free v
        (info m (superblock_of v.setup.capacity block)) block) core.new }
{
    let class = held_class(core, seat, block);
    let notes = core.seats[seat];
    let cache = notes.caches[class as usize];
    core.blocks[block as usize] = BlockOwner {
        seat,
        place: BlockPlace::Cached,
    };
    let mut caches = notes.caches;
    caches[class as usize] = Cache {
        first: block,
        count: cache.count + 1,
    };
    core.seats[seat] = SeatNotes { caches, ..notes };
}

/// Whether the first block of the cache may go behind the batch: the batch is empty, or of the
/// block's superblock, and its last block is still linked to the block.
pub(crate) fn may_lift(core: &CoreState, seat: usize, class: u64) -> bool
    requires core { IsCore core.now }
    requires seat { seat < length core.now.seats.items }
    ensures { Decides core.now seat (λ m v. MayLift m v class) result }
{
    if !may_alloc(core, seat, class) {
        return false;
    }
    let notes = core.seats[seat];
    let cache = notes.caches[class as usize];
    if notes.batch.count == 0 {
        return true;
    }
    if !notes.batch.linked {
        return false;
    }
    let d = core.geometry.superblock_of(cache.first);
    if notes.batch.descriptor != d {
        return false;
    }
    next(core, notes.batch.last) == cache.first
}

/// Moves the first block of the cache behind the batch.
pub(crate) fn lift(core: &mut CoreState, seat: usize, class: u64)
    requires core { IsCore core.old }
    requires seat { seat < length core.old.seats.items }
    requires may { Decides core.old seat (λ m v. MayLift m v class) true }
    ensures { Moves core.old seat (λ m v. after_lift v class) core.new }
{
    let notes = core.seats[seat];
    let cache = notes.caches[class as usize];
    let d = core.geometry.superblock_of(cache.first);
    let first = next(core, cache.first);
    core.blocks[cache.first as usize] = BlockOwner {
        seat,
        place: BlockPlace::Batched,
    };
    let mut caches = notes.caches;
    caches[class as usize] = Cache {
        first,
        count: cache.count - 1,
    };
    let batch = BatchEnds {
        descriptor: d,
        class,
        first: notes.batch.first_with(cache.first),
        last: cache.first,
        count: notes.batch.count + 1,
        linked: true,
    };
    core.seats[seat] = SeatNotes {
        caches,
        batch,
        ..notes
    };
}
