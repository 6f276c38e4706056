//! The step that takes superblocks that were never taken.

ghost use Rattle.std.specs.Prelude.{◌<◌, length};
ghost use Rattle.core_model.specs.declared.event.Event.TheVariants.{TakeFresh};
ghost use Rattle.crash_core.specs.Standing.{IsCore, Takes};

use crate::state::CoreState;
use core_model::StepAnswer;
use seat_state::{SeatNotes, Seen, SuperblockOwner, SuperblockUsage, give_range};
use super_block::USED_WORD;

/// Takes `n` superblocks that were never taken, if the mark is as it was read.
pub(crate) fn take_fresh(core: &mut CoreState, seat: usize, n: u64) -> StepAnswer
    requires core { IsCore core.old }
    requires seat { seat < length core.old.seats.items }
    ensures { Takes core.old seat (TakeFresh n) result core.new }
{
    let notes = core.seats[seat];
    let Some(used) = notes.seen_used else {
        return StepAnswer::NotNow;
    };
    let capacity = core.geometry.capacity();
    if n == 0 {
        return StepAnswer::NotNow;
    }
    if n > capacity {
        return StepAnswer::NotNow;
    }
    if used > capacity - n {
        return StepAnswer::NotNow;
    }
    if core.words[USED_WORD as usize] != used {
        return StepAnswer::NotNow;
    }
    core.words[USED_WORD as usize] = used + n;
    let owner = SuperblockOwner {
        seat,
        usage: SuperblockUsage::Raw,
    };
    give_range(&mut core.superblocks, used, n, owner);
    core.seats[seat] = SeatNotes {
        ticket: None,
        seen_used: Some(used + n),
        seen_anchor: Seen::cleared(notes.seen_anchor, used, n),
        ..notes
    };
    StepAnswer::Done
}
