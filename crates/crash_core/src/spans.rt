//! How superblocks go between what a seat claims and its large blocks.

ghost use Rattle.std.specs.Prelude.{◌≡◌, ◌<◌, ◌≤◌, length, true};
ghost use Rattle.heap_model.specs.Geometry.{superblock_of};
ghost use Rattle.core_model.specs.ViewAfter.{after_large, after_split};
ghost use Rattle.core_model.specs.Guards.{MayHoldLarge, MaySplit};
ghost use Rattle.crash_core.specs.Standing.{IsCore, Decides, Moves, MayJoin};

use crate::anchors::{EMPTY, anchor_state};
use crate::reads::{anchor, durable_info, durable_used, info};
use crate::state::CoreState;
use crate::usages::usage;
use seat_state::{SeatNotes, Seen, SuperblockOwner, SuperblockUsage, give_range};
use super_block::{Info, SUPERBLOCK_WORDS};

/// Whether a large block that the seat holds begins at the word.
pub(crate) fn may_split(core: &CoreState, seat: usize, block: u64) -> bool
    requires core { IsCore core.now }
    requires seat { seat < length core.now.seats.items }
    ensures { Decides core.now seat (λ m v. MaySplit v block) result }
{
    let start = core.geometry.start(0);
    if block < start {
        return false;
    }
    if (block - start) % SUPERBLOCK_WORDS != 0 {
        return false;
    }
    usage(core, seat, core.geometry.superblock_of(block)).large_count() > 0
}

/// Claims the superblocks of a held large block.
pub(crate) fn split(core: &mut CoreState, seat: usize, block: u64)
    requires core { IsCore core.old }
    requires seat { seat < length core.old.seats.items }
    requires may { Decides core.old seat (λ m v. MaySplit v block) true }
    ensures { Moves core.old seat (λ m v. after_split v
        (superblock_of v.setup.capacity block)) core.new }
{
    let notes = core.seats[seat];
    let d = core.geometry.superblock_of(block);
    let count = usage(core, seat, d).large_count();
    let owner = SuperblockOwner {
        seat,
        usage: SuperblockUsage::Split,
    };
    give_range(&mut core.superblocks, d, count, owner);
    core.seats[seat] = SeatNotes {
        seen_anchor: Seen::cleared(notes.seen_anchor, d, count),
        ..notes
    };
}

/// Holds a large block that takes `n` claimed superblocks from `d` on.
pub(crate) fn hold_large(core: &mut CoreState, seat: usize, d: u64, n: u64)
    requires core { IsCore core.old }
    requires seat { seat < length core.old.seats.items }
    requires may { Decides core.old seat (λ m v. MayHoldLarge m v d n) true }
    ensures { Moves core.old seat (λ m v. after_large v d n) core.new }
{
    let notes = core.seats[seat];
    let rest = SuperblockOwner {
        seat,
        usage: SuperblockUsage::Large { count: 0 },
    };
    give_range(&mut core.superblocks, d, n, rest);
    core.superblocks[d as usize] = SuperblockOwner {
        seat,
        usage: SuperblockUsage::Large { count: n },
    };
    core.seats[seat] = SeatNotes {
        seen_anchor: Seen::cleared(notes.seen_anchor, d, n),
        ..notes
    };
}

/// Whether `n` superblocks from `d` on may become a large block.
pub(crate) fn may_hold_large(core: &CoreState, seat: usize, d: u64, n: u64) -> bool
    requires core { IsCore core.now }
    requires seat { seat < length core.now.seats.items }
    ensures { Decides core.now seat (λ m v. MayHoldLarge m v d n) result }
{
    if n == 0 {
        return false;
    }
    let mark = durable_used(core);
    if n > mark {
        return false;
    }
    if d > mark - n {
        return false;
    }
    for e in d..d + n {
        if !may_join(core, seat, d, n, e) {
            return false;
        }
    }
    true
}

/// Whether superblock `e` may be one of them.
fn may_join(core: &CoreState, seat: usize, d: u64, n: u64, e: u64) -> bool
    requires core { IsCore core.now }
    requires seat { seat < length core.now.seats.items }
    requires e { e < core.now.geometry.capacity }
    requires n { n ≤ core.now.geometry.capacity }
    ensures { Decides core.now seat (λ m v. MayJoin m v d n e) result }
{
    let wanted = if e == d { Info::Large(n).pack() } else { 0 };
    if info(core, e) != wanted {
        return false;
    }
    if durable_info(core, e) != wanted {
        return false;
    }
    match usage(core, seat, e) {
        SuperblockUsage::Split => true,
        SuperblockUsage::Raw => anchor_state(anchor(core, e)) == EMPTY,
        SuperblockUsage::Nothing => false,
        SuperblockUsage::Cutting => false,
        SuperblockUsage::Classed { .. } => false,
        SuperblockUsage::Large { .. } => false,
    }
}
