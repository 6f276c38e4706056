//! Blocks that go between seats: a seat offers a held block to a carrier.

ghost use Rattle.std.specs.Prelude.{◌≡◌, ◌<◌, get_or, length, true};
ghost use Rattle.core_model.specs.declared.answer.StepAnswer.TheVariants.{Done};
ghost use Rattle.core_model.specs.Guards.{MaySplit};
ghost use Rattle.crash_core.specs.Standing.{Decides, held_in, IsStanding, MayHandAt, no_block, Offers, place_for};

use crate::owners::{BlockOwner, BlockPlace};
use crate::spans::may_split;
use crate::state::CoreState;
use crate::usages::{place, usage};
use core_model::StepAnswer;
use seat_state::{SeatNotes, SuperblockOwner, SuperblockUsage, give_range};

/// Offers the held block that begins at a word to a new carrier, if the seat may do so now.
pub(crate) fn offer(core: &mut CoreState, seat: usize, block: u64) -> StepAnswer
    requires core { IsStanding core.old }
    requires seat { seat < length core.old.seats.items }
    ensures follows { Offers core.old seat block result core.new }
    ensures core { IsStanding core.new }
    ensures seats { length core.new.seats.items ≡ length core.old.seats.items }
{
    let notes = core.seats[seat];
    if let Some(step) = notes.stopped {
        return StepAnswer::Stopped { step };
    }
    if notes.ticket.is_none() {
        return StepAnswer::NotNow;
    }
    if place(core, seat, block).is_held() {
        offer_small(core, seat, block);
        return StepAnswer::Done;
    }
    if may_split(core, seat, block) {
        offer_large(core, seat, block);
        return StepAnswer::Done;
    }
    StepAnswer::NotNow
}

/// Offers a held small block.
fn offer_small(core: &mut CoreState, seat: usize, block: u64)
    requires core { IsStanding core.old }
    requires seat { seat < length core.old.seats.items }
    requires may { MayHandAt core.old seat }
    requires held { 0 < held_in (place_for seat (get_or core.old.blocks.items block no_block)) }
    ensures { Offers core.old seat block Done core.new }
{
    let notes = core.seats[seat];
    core.blocks[block as usize] = BlockOwner {
        seat: core.seats.len() + core.carriers,
        place: BlockPlace::Held,
    };
    core.carriers += 1;
    core.seats[seat] = SeatNotes {
        ticket: None,
        ..notes
    };
}

/// Offers a held large block.
fn offer_large(core: &mut CoreState, seat: usize, block: u64)
    requires core { IsStanding core.old }
    requires seat { seat < length core.old.seats.items }
    requires may { MayHandAt core.old seat }
    requires held { Decides core.old seat (λ m v. MaySplit v block) true }
    requires no_small { held_in (place_for seat (get_or core.old.blocks.items block no_block)) ≡ 0 }
    ensures { Offers core.old seat block Done core.new }
{
    let notes = core.seats[seat];
    let carrier = core.seats.len() + core.carriers;
    let d = core.geometry.superblock_of(block);
    let count = usage(core, seat, d).large_count();
    let rest = SuperblockOwner {
        seat: carrier,
        usage: SuperblockUsage::Large { count: 0 },
    };
    give_range(&mut core.superblocks, d, count, rest);
    core.superblocks[d as usize] = SuperblockOwner {
        seat: carrier,
        usage: SuperblockUsage::Large { count },
    };
    core.carriers += 1;
    core.seats[seat] = SeatNotes {
        ticket: None,
        ..notes
    };
}
