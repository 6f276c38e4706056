//! One step of a seat, of whatever kind.

ghost use Rattle.std.specs.Prelude.{◌≡◌, ◌↔◌, ◌<◌, length, get_or, true};
ghost use Rattle.seat_state.specs.declared.notes.SeatNotes.{SeatNotes};
ghost use Rattle.crash_core.specs.Standing.{IsCore, IsStanding, Takes, Follows, HasTicketAt};

use crate::anchor_exchanges::{give, take_all};
use crate::fresh::take_fresh;
use crate::list_exchanges::{pop, push};
use crate::looks::{keep_used, look_anchor, look_head, look_link, look_used};
use crate::state::CoreState;
use crate::stores::store;
use crate::ticks::tick;
use crate::words::{load, settle};
use core_model::{Event, StepAnswer};

/// Takes a step of a seat, if it may be taken now.
pub(crate) fn step(core: &mut CoreState, seat: usize, event: Event) -> StepAnswer
    requires core { IsStanding core.old }
    requires seat { seat < length core.old.seats.items }
    ensures follows { Follows core.old seat event result core.new }
    ensures core { IsStanding core.new }
    ensures seats { length core.new.seats.items ≡ length core.old.seats.items }
{
    let notes = core.seats[seat];
    if let Some(step) = notes.stopped {
        return StepAnswer::Stopped { step };
    }
    if !has_ticket_for(notes.ticket, event) {
        return StepAnswer::NotNow;
    }
    take_step(core, seat, event)
}

/// Whether a ticket is there, where the event needs one.
fn has_ticket_for(ticket: Option<u64>, event: Event) -> bool
    ensures { (result ≡ true) ↔ HasTicketAt ticket event }
{
    match event {
        Event::Tick { .. } => true,
        Event::Settle { .. } => true,
        _ => ticket.is_some(),
    }
}

/// Takes the step of a seat that goes on, and has a ticket where the event needs one.
fn take_step(core: &mut CoreState, seat: usize, event: Event) -> StepAnswer
    requires core { IsCore core.old }
    requires seat { seat < length core.old.seats.items }
    requires ticket { (t : SeatNotes) → get_or core.old.seats.items seat t ≡ t
        → HasTicketAt t.ticket event }
    ensures { Takes core.old seat event result core.new }
{
    match event {
        Event::Tick { shift } => tick(core, seat, shift),
        Event::Load { word } => load(core, seat, word),
        Event::Store { word, value } => store(core, seat, word, value),
        Event::Settle { word } => settle(core, seat, word),
        Event::LookUsed => look_used(core, seat),
        Event::TakeFresh { n } => take_fresh(core, seat, n),
        Event::KeepUsed => keep_used(core, seat),
        Event::LookHead { list } => look_head(core, seat, list),
        Event::LookLink => look_link(core, seat),
        Event::Pop => pop(core, seat),
        Event::Push { d } => push(core, seat, d),
        Event::LookAnchor { d } => look_anchor(core, seat, d),
        Event::TakeAll { d } => take_all(core, seat, d),
        Event::Give { d } => give(core, seat, d),
    }
}
