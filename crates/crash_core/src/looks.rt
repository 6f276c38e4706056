//! The steps that read a shared word.

ghost use Rattle.std.specs.Prelude.{◌≡◌, ◌<◌, length, true};
ghost use Rattle.core_model.specs.declared.event.Event.TheVariants.{LookUsed, LookHead, LookLink, LookAnchor, KeepUsed};
ghost use Rattle.core_model.specs.Guards.{MayLookAt};
ghost use Rattle.crash_core.specs.Standing.{IsCore, Takes, Decides};

use crate::reads::anchor;
use crate::state::CoreState;
use crate::usages::usage;
use core_model::StepAnswer;
use seat_state::{SeatNotes, Seen, head_first};
use super_block::{HEAD_WORD, LISTS, USED_WORD};

/// Reads the mark below which superblocks have been taken.
pub(crate) fn look_used(core: &mut CoreState, seat: usize) -> StepAnswer
    requires core { IsCore core.old }
    requires seat { seat < length core.old.seats.items }
    ensures { Takes core.old seat LookUsed result core.new }
{
    let word = core.words[USED_WORD as usize];
    let notes = core.seats[seat];
    core.seats[seat] = SeatNotes {
        ticket: None,
        seen_used: Some(word),
        ..notes
    };
    StepAnswer::Done
}

/// Reads the head of a list.
pub(crate) fn look_head(core: &mut CoreState, seat: usize, list: u64) -> StepAnswer
    requires core { IsCore core.old }
    requires seat { seat < length core.old.seats.items }
    ensures { Takes core.old seat (LookHead list) result core.new }
{
    if list >= LISTS {
        return StepAnswer::NotNow;
    }
    let word = core.words[(HEAD_WORD + list) as usize];
    let notes = core.seats[seat];
    core.seats[seat] = SeatNotes {
        ticket: None,
        seen_head: Some(Seen { of: list, word }),
        seen_link: None,
        ..notes
    };
    StepAnswer::Done
}

/// Reads the link of the first descriptor of the list whose head was seen.
pub(crate) fn look_link(core: &mut CoreState, seat: usize) -> StepAnswer
    requires core { IsCore core.old }
    requires seat { seat < length core.old.seats.items }
    ensures { Takes core.old seat LookLink result core.new }
{
    let notes = core.seats[seat];
    let Some(head) = notes.seen_head else {
        return StepAnswer::NotNow;
    };
    let first = head_first(head.word);
    if first == 0 {
        return StepAnswer::NotNow;
    }
    let word = core.words[core.geometry.link(first - 1) as usize];
    core.seats[seat] = SeatNotes {
        ticket: None,
        seen_link: Some(word),
        ..notes
    };
    StepAnswer::Done
}

/// Makes the mark durable as far as it was read.
pub(crate) fn keep_used(core: &mut CoreState, seat: usize) -> StepAnswer
    requires core { IsCore core.old }
    requires seat { seat < length core.old.seats.items }
    ensures { Takes core.old seat KeepUsed result core.new }
{
    let notes = core.seats[seat];
    let Some(used) = notes.seen_used else {
        return StepAnswer::NotNow;
    };
    let at = (core.geometry.length() + USED_WORD) as usize;
    core.words[at] = core.words[at].max(used);
    core.seats[seat] = SeatNotes {
        ticket: None,
        ..notes
    };
    StepAnswer::Done
}

/// Reads the anchor of a superblock that is claimed, or that the batch is of.
pub(crate) fn look_anchor(core: &mut CoreState, seat: usize, d: u64) -> StepAnswer
    requires core { IsCore core.old }
    requires seat { seat < length core.old.seats.items }
    ensures { Takes core.old seat (LookAnchor d) result core.new }
{
    let notes = core.seats[seat];
    if !may_look_at(core, seat, d) {
        return StepAnswer::NotNow;
    }
    let word = anchor(core, d);
    core.seats[seat] = SeatNotes {
        ticket: None,
        seen_anchor: Some(Seen { of: d, word }),
        ..notes
    };
    StepAnswer::Done
}

/// Whether the seat may read the anchor.
fn may_look_at(core: &CoreState, seat: usize, d: u64) -> bool
    requires core { IsCore core.now }
    requires seat { seat < length core.now.seats.items }
    ensures decides { Decides core.now seat (λ m v. MayLookAt v d) result }
    ensures below { result ≡ true → d < core.now.geometry.capacity }
{
    let batch = core.seats[seat].batch;
    if d >= core.geometry.capacity() {
        return false;
    }
    if usage(core, seat, d).is_freely_claimed() {
        return true;
    }
    if batch.count == 0 {
        return false;
    }
    batch.descriptor == d
}
