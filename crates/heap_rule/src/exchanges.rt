//! The exchange of a word that a seat has looked at, with its lost branch.
//!
//! A lost race changes nothing of the heap: the ticket and the look are used up, the word that was
//! found is told, and the caller draws and looks again.

ghost use Rattle.std.specs.Prelude.{◌≡◌, ℕ, MatchResult, None};
ghost use Rattle.core_model.specs.Effects.{place_of};
ghost use Rattle.core_model.specs.Memory.{table_index};
ghost use Rattle.heap_table.specs.SeatViews.{view_in};
ghost use Rattle.heap_table.specs.Plays.{IsEvent, May};
ghost use Rattle.heap_table.specs.AtTable.{IsAt, IsExchange};
ghost use Rattle.heap_rule.specs.Noted.{forgotten};
ghost use Rattle.heap_rule.specs.Seated.{Tells};

use core_model::Event;
use heap_table::{Shared, TableSeat, exchange};
use seat_state::SeatNotes;

/// Exchanges a word, if it is as it was seen; else tells it, and nothing is noted of it any more.
pub(crate) fn exchange_seen(
    shared: &Shared,
    table_seat: &mut TableSeat,
    notes: &mut SeatNotes,
    place: u64,
    seen: u64,
    new: u64,
    event: Event,
) -> Result<(), u64>
    requires at { IsAt shared.now table_seat.old.table_id table_seat.old.me
        (view_in table_seat.old.me.0) }
    requires may { May (view_in table_seat.old.me.0) event }
    requires place { place ≡ table_index (view_in table_seat.old.me.0).setup.capacity
        (place_of (view_in table_seat.old.me.0) event) }
    requires exchange { IsExchange event (view_in table_seat.old.me.0) seen new }
    ensures at { IsAt shared.now table_seat.new.table_id table_seat.new.me
        (view_in table_seat.new.me.0) }
    ensures event { (found : ℕ)
        × IsEvent event (view_in table_seat.old.me.0) found (view_in table_seat.new.me.0)
        × Tells seen found result }
    ensures notes { MatchResult result (λ _. notes.new ≡ record notes.old { ticket = None })
        (λ _. notes.new ≡ forgotten event (record notes.old { ticket = None })) }
{
    let found = exchange(shared, table_seat, place, seen, new, event);
    notes.ticket = None;
    if found != seen {
        forget(notes, event);
        return Err(found);
    }
    Ok(())
}

/// Forgets the word that an exchange was to change.
fn forget(notes: &mut SeatNotes, event: Event)
    ensures { notes.new ≡ forgotten event notes.old }
{
    match event {
        Event::Pop | Event::Push { .. } => notes.seen_head = None,
        Event::TakeAll { .. } | Event::Give { .. } => notes.seen_anchor = None,
        Event::TakeFresh { .. } => notes.seen_used = None,
        _ => {}
    }
}
