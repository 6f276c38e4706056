//! The draw of a ticket, with the change of a seat's parts that goes with it.

ghost use Rattle.std.specs.Prelude.{◌≡◌, ℕ, Some, None};
ghost use Rattle.core_model.specs.declared.event.Event.TheVariants.{Tick};
ghost use Rattle.heap_rule.specs.Noted.{FitsChange, FitsNotes};
ghost use Rattle.heap_table.specs.Plays.{IsEvent};
ghost use Rattle.heap_rule.specs.Seated.{KeepsStores, IsSeatOf, TellsDraw};
ghost use Rattle.heap_rule.specs.Shown.{Can};

use crate::notes::note;
use crate::seat::Seat;
use core_model::{Event, Shift};
use heap_table::{Shared, draw};
use line_memory::Stopped;
use seat_index::Change;
use seat_state::ticket_place;

impl Seat {
    /// Draws a ticket, with a change of the seat's parts where there is one; a seat that has
    /// stopped, or stops at this draw, tells the step.
    pub fn tick(&mut self, shared: &Shared, shift: Option<Shift>) -> Result<(), Stopped>
        requires seat { IsSeatOf shared.now self.old }
        requires can { self.old.view.stopped ≡ None → Can self.old.view (Tick shift) }
        ensures event { self.old.view.stopped ≡ None
            → (found : ℕ) × IsEvent (Tick shift) self.old.view found self.new.view }
        ensures had_stopped { (step : ℕ) → self.old.view.stopped ≡ Some step
            → self.new ≡ self.old }
        ensures told { TellsDraw self.new.view result }
        ensures seat { IsSeatOf shared.now self.new }
        ensures stores { KeepsStores self.old self.new }
    {
        if let Some(step) = self.notes.stopped {
            return Err(Stopped { step });
        }
        match shift {
            None => self.draw_alone(shared),
            Some(shift) => self.draw_with(shared, shift),
        }
    }

    /// Draws a ticket, with no change.
    fn draw_alone(&mut self, shared: &Shared) -> Result<(), Stopped>
        requires seat { IsSeatOf shared.now self.old }
        requires can { Can self.old.view (Tick None) }
        ensures event { (found : ℕ) × IsEvent (Tick None) self.old.view found self.new.view }
        ensures told { TellsDraw self.new.view result }
        ensures seat { IsSeatOf shared.now self.new }
        ensures stores { KeepsStores self.old self.new }
    {
        let place = ticket_place(self.geometry);
        let ticket = draw(
            shared,
            &mut self.table_seat,
            place,
            Event::Tick { shift: None },
        );
        if ticket >= self.budget {
            self.notes.ticket = None;
            self.notes.stopped = Some(ticket);
            return Err(Stopped { step: ticket });
        }
        self.notes.ticket = Some(ticket);
        Ok(())
    }

    /// Draws a ticket, with a change.
    fn draw_with(&mut self, shared: &Shared, shift: Shift) -> Result<(), Stopped>
        requires seat { IsSeatOf shared.now self.old }
        requires can { Can self.old.view (Tick (Some shift)) }
        ensures event { (found : ℕ)
            × IsEvent (Tick (Some shift)) self.old.view found self.new.view }
        ensures told { TellsDraw self.new.view result }
        ensures seat { IsSeatOf shared.now self.new }
        ensures stores { KeepsStores self.old self.new }
    {
        let change = self.change_by(shared, shift);
        self.draw_changing(shared, shift, change)
    }

    /// Draws a ticket, and changes the seat's parts, where the ticket is below the budget.
    fn draw_changing(
        &mut self,
        shared: &Shared,
        shift: Shift,
        change: Change,
    ) -> Result<(), Stopped>
        requires seat { IsSeatOf shared.now self.old }
        requires can { Can self.old.view (Tick (Some shift)) }
        requires notes { FitsNotes change self.old.view (Some shift) }
        requires change { FitsChange change self.old.view (Some shift) }
        ensures event { (found : ℕ)
            × IsEvent (Tick (Some shift)) self.old.view found self.new.view }
        ensures told { TellsDraw self.new.view result }
        ensures seat { IsSeatOf shared.now self.new }
        ensures stores { KeepsStores self.old self.new }
    {
        let place = ticket_place(self.geometry);
        let event = Event::Tick { shift: Some(shift) };
        let ticket = draw(shared, &mut self.table_seat, place, event);
        if ticket >= self.budget {
            self.notes.ticket = None;
            self.notes.stopped = Some(ticket);
            return Err(Stopped { step: ticket });
        }
        note(&mut self.notes, self.geometry, change);
        self.notes.ticket = Some(ticket);
        self.owned.change(self.geometry, change);
        Ok(())
    }
}
