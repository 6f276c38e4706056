//! The draw of a ticket, with the change of a seat's parts that goes with it.

ghost use Rattle.std.specs.Prelude.{◌<◌, length, true, Some};
ghost use Rattle.core_model.specs.declared.event.Event.TheVariants.{Tick};
ghost use Rattle.core_model.specs.ViewAfter.{shifted};
ghost use Rattle.core_model.specs.Guards.{MayShift};
ghost use Rattle.crash_core.specs.Standing.{IsCore, Takes, Decides, Moves};

use crate::cuts::{cut, may_cut};
use crate::moves::{alloc, free, lift, may_alloc, may_free, may_lift};
use crate::spans::{hold_large, may_hold_large, may_split, split};
use crate::state::CoreState;
use crate::words::draw;
use core_model::{Shift, StepAnswer};
use seat_state::{SeatNotes, ticket_place};

/// Draws a ticket, and changes the seat's parts where there is something to change, and the
/// ticket is below the budget.
pub(crate) fn tick(core: &mut CoreState, seat: usize, shift: Option<Shift>) -> StepAnswer
    requires core { IsCore core.old }
    requires seat { seat < length core.old.seats.items }
    ensures { Takes core.old seat (Tick shift) result core.new }
{
    match shift {
        None => draw(core, seat),
        Some(shift) => draw_with(core, seat, shift),
    }
}

/// Draws a ticket, with a change.
fn draw_with(core: &mut CoreState, seat: usize, shift: Shift) -> StepAnswer
    requires core { IsCore core.old }
    requires seat { seat < length core.old.seats.items }
    ensures { Takes core.old seat (Tick (Some shift)) result core.new }
{
    let notes = core.seats[seat];
    if !may_shift(core, seat, shift) {
        return StepAnswer::NotNow;
    }
    let at = ticket_place(core.geometry) as usize;
    let ticket = core.words[at];
    if ticket >= core.budget {
        core.words[at] = ticket + 1;
        core.seats[seat] = SeatNotes {
            ticket: None,
            stopped: Some(ticket),
            ..notes
        };
        return StepAnswer::Stopped { step: ticket };
    }
    make_shift(core, seat, shift);
    core.words[at] = ticket + 1;
    let changed = core.seats[seat];
    core.seats[seat] = SeatNotes {
        ticket: Some(ticket),
        ..changed
    };
    StepAnswer::Done
}

/// Whether the seat's parts may be changed so.
fn may_shift(core: &CoreState, seat: usize, shift: Shift) -> bool
    requires core { IsCore core.now }
    requires seat { seat < length core.now.seats.items }
    ensures { Decides core.now seat (λ m v. MayShift m v (Some shift)) result }
{
    match shift {
        Shift::Cut { d } => may_cut(core, seat, d),
        Shift::Alloc { class } => may_alloc(core, seat, class),
        Shift::Free { block } => may_free(core, seat, block),
        Shift::Lift { class } => may_lift(core, seat, class),
        Shift::Large { d, n } => may_hold_large(core, seat, d, n),
        Shift::Split { block } => may_split(core, seat, block),
    }
}

/// Changes the seat's parts.
fn make_shift(core: &mut CoreState, seat: usize, shift: Shift)
    requires core { IsCore core.old }
    requires seat { seat < length core.old.seats.items }
    requires may { Decides core.old seat (λ m v. MayShift m v (Some shift)) true }
    ensures { Moves core.old seat (λ m v. shifted m v (Some shift)) core.new }
{
    match shift {
        Shift::Cut { d } => cut(core, seat, d),
        Shift::Alloc { class } => alloc(core, seat, class),
        Shift::Free { block } => free(core, seat, block),
        Shift::Lift { class } => lift(core, seat, class),
        Shift::Large { d, n } => hold_large(core, seat, d, n),
        Shift::Split { block } => split(core, seat, block),
    }
}
