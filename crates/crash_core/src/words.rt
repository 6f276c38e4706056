//! The steps on a seat's own words, and the draw of a ticket.

ghost use Rattle.std.specs.Prelude.{◌<◌, length, None};
ghost use Rattle.core_model.specs.declared.event.Event.TheVariants.{Tick, Load, Store, Settle};
ghost use Rattle.crash_core.specs.Standing.{IsCore, Takes};

use crate::own_words::is_own;
use crate::state::CoreState;
use core_model::StepAnswer;
use seat_state::{SeatNotes, ticket_place};

/// Loads a word of its own.
pub(crate) fn load(core: &mut CoreState, seat: usize, word: u64) -> StepAnswer
    requires core { IsCore core.old }
    requires seat { seat < length core.old.seats.items }
    ensures { Takes core.old seat (Load word) result core.new }
{
    let notes = core.seats[seat];
    if !is_own(core, seat, word) {
        return StepAnswer::NotNow;
    }
    core.seats[seat] = SeatNotes {
        ticket: None,
        ..notes
    };
    StepAnswer::Done
}

/// A word of its own becomes durable.
pub(crate) fn settle(core: &mut CoreState, seat: usize, word: u64) -> StepAnswer
    requires core { IsCore core.old }
    requires seat { seat < length core.old.seats.items }
    ensures { Takes core.old seat (Settle word) result core.new }
{
    if word >= core.geometry.length() {
        return StepAnswer::NotNow;
    }
    if !is_own(core, seat, word) {
        return StepAnswer::NotNow;
    }
    let at = (core.geometry.length() + word) as usize;
    core.words[at] = core.words[word as usize];
    StepAnswer::Done
}

/// Draws a ticket.
pub(crate) fn draw(core: &mut CoreState, seat: usize) -> StepAnswer
    requires core { IsCore core.old }
    requires seat { seat < length core.old.seats.items }
    ensures { Takes core.old seat (Tick None) result core.new }
{
    let notes = core.seats[seat];
    let at = ticket_place(core.geometry) as usize;
    let ticket = core.words[at];
    core.words[at] = ticket + 1;
    if ticket >= core.budget {
        core.seats[seat] = SeatNotes {
            ticket: None,
            stopped: Some(ticket),
            ..notes
        };
        return StepAnswer::Stopped { step: ticket };
    }
    core.seats[seat] = SeatNotes {
        ticket: Some(ticket),
        ..notes
    };
    StepAnswer::Done
}
