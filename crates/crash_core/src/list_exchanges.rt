//! The steps that exchange the head of a list.

ghost use Rattle.std.specs.Prelude.{◌≡◌, ◌<◌, length, get_or, true};
ghost use Rattle.core_model.specs.declared.event.Event.TheVariants.{Pop, Push};
ghost use Rattle.seat_state.specs.declared.notes.SeatNotes.{SeatNotes};
ghost use Rattle.core_model.specs.Guards.{IsThere, MayPush};
ghost use Rattle.crash_core.specs.Standing.{IsCore, Takes, Decides};

use crate::anchors::{EMPTY, PARTIAL, anchor_state};
use crate::reads::{anchor, durable_used, info, link};
use crate::state::CoreState;
use crate::usages::usage;
use core_model::StepAnswer;
use seat_state::{
    SeatNotes, Seen, SuperblockOwner, SuperblockUsage, head_after_pop, head_after_push, head_first,
};
use super_block::HEAD_WORD;

/// Claims the first descriptor of the list whose head and link were seen.
pub(crate) fn pop(core: &mut CoreState, seat: usize) -> StepAnswer
    requires core { IsCore core.old }
    requires seat { seat < length core.old.seats.items }
    requires ticket { (t : SeatNotes) → get_or core.old.seats.items seat t ≡ t → IsThere t.ticket }
    ensures { Takes core.old seat Pop result core.new }
{
    let notes = core.seats[seat];
    let Some(head) = notes.seen_head else {
        return StepAnswer::NotNow;
    };
    let Some(link) = notes.seen_link else {
        return StepAnswer::NotNow;
    };
    let at = (HEAD_WORD + head.of) as usize;
    if core.words[at] != head.word {
        return StepAnswer::NotNow;
    }
    let d = head_first(head.word) - 1;
    core.words[at] = head_after_pop(head.word, link);
    core.superblocks[d as usize] = SuperblockOwner {
        seat,
        usage: SuperblockUsage::listed(head.of),
    };
    core.seats[seat] = SeatNotes {
        ticket: None,
        seen_head: None,
        seen_link: None,
        seen_anchor: Seen::cleared(notes.seen_anchor, d, 1),
        ..notes
    };
    StepAnswer::Done
}

/// Puts a claimed descriptor in front of the list whose head was seen.
pub(crate) fn push(core: &mut CoreState, seat: usize, d: u64) -> StepAnswer
    requires core { IsCore core.old }
    requires seat { seat < length core.old.seats.items }
    ensures { Takes core.old seat (Push d) result core.new }
{
    let notes = core.seats[seat];
    let Some(head) = notes.seen_head else {
        return StepAnswer::NotNow;
    };
    if !may_push(core, seat, d) {
        return StepAnswer::NotNow;
    }
    let at = (HEAD_WORD + head.of) as usize;
    if core.words[at] != head.word {
        return StepAnswer::NotNow;
    }
    core.words[at] = head_after_push(head.word, d);
    core.superblocks[d as usize] = SuperblockOwner {
        seat,
        usage: SuperblockUsage::Nothing,
    };
    core.seats[seat] = SeatNotes {
        ticket: None,
        seen_head: None,
        seen_anchor: Seen::cleared(notes.seen_anchor, d, 1),
        ..notes
    };
    StepAnswer::Done
}

/// Whether the superblock may go to the list whose head was seen.
fn may_push(core: &CoreState, seat: usize, d: u64) -> bool
    requires core { IsCore core.now }
    requires seat { seat < length core.now.seats.items }
    ensures decides { Decides core.now seat (λ m v. MayPush m v d) result }
    ensures below { result ≡ true → d < core.now.geometry.capacity }
{
    let Some(head) = core.seats[seat].seen_head else {
        return false;
    };
    if d >= core.geometry.capacity() {
        return false;
    }
    let usage = usage(core, seat, d);
    if !usage.is_freely_claimed() {
        return false;
    }
    if d >= durable_used(core) {
        return false;
    }
    if link(core, d) != head_first(head.word) {
        return false;
    }
    let state = anchor_state(anchor(core, d));
    if head.of == 0 {
        return state == EMPTY;
    }
    if !usage.is_classed() {
        return false;
    }
    if state > PARTIAL {
        return false;
    }
    info(core, d) == head.of
}
