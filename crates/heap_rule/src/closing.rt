//! Closes a shared heap.

ghost use Rattle.std.specs.Prelude.{◌≡◌, ◌++◌, Contains, IfOk, length};
ghost use Rattle.heap_rule.specs.Carried.{AreAllOf, AreCarriers, carried_views, CarrierView, HasSeatsBefore};
ghost use Rattle.heap_rule.specs.Seats.{AreAtTable, views_of};
ghost use Rattle.heap_table.specs.AtTable.{IsClosedReached, IsClosedSound};
ghost use Rattle.heap_table.specs.Rule.{setup_for};

use crate::carrier::Carrier;
use crate::seat::Seat;
use heap_table::{Shared, TableSeat, close_table, fresh_seat, join};
use line_memory::Closed;
use std::alloc::{AllocError, Global};

/// Closes a shared heap, once all its seats are back, in any order and whether they have stopped or
/// not, and all carriers that no seat accepted. It leaves the two values of each word. It fails only
/// where memory runs out.
pub fn close_shared(
    alloc: Global,
    shared: Shared,
    seats: Vec<Seat>,
    carriers: Vec<Carrier>,
) -> Result<Closed, AllocError>
    requires { AreAllOf shared seats.items carriers.items }
    ensures sound { IfOk result (λ c. IsClosedSound (setup_for shared.opening) c.now c.kept
        (views_of seats.items ++ carried_views carriers.items)) }
    ensures reached { IfOk result (λ c. IsClosedReached shared.opening c.now c.kept
        (views_of seats.items ++ carried_views carriers.items)) }
{
    let last = gather_carriers(&shared, carriers);
    let last = gather_seats(&shared, seats, last);
    close_table(alloc, shared, last)
}

/// A seat of the table that stands for all the carriers.
fn gather_carriers(shared: &Shared, mut carriers: Vec<Carrier>) -> TableSeat
    requires carriers { (c : CarrierView) → Contains carriers.items c → c.table ≡ shared.now.table }
    ensures table { result.table_id ≡ shared.now.table }
    ensures views { result.me.0 ≡ carried_views carriers.items }
    ensures counted { AreCarriers (length carriers.items) result.me.0 }
{
    let mut last = fresh_seat(shared);
    while let Some(carrier) = carriers.pop() {
        let Carrier {
            table_seat,
            block: _,
            holding: _,
        } = carrier;
        join(shared, &mut last, table_seat);
    }
    carriers.destroy_empty();
    last
}

/// The seat of the table takes in all the seats.
fn gather_seats(shared: &Shared, mut seats: Vec<Seat>, last: TableSeat) -> TableSeat
    requires seats { AreAtTable shared.now.table seats.items }
    requires table { last.table_id ≡ shared.now.table }
    ensures table { result.table_id ≡ shared.now.table }
    ensures views { result.me.0 ≡ views_of seats.items ++ last.me.0 }
    ensures counted { HasSeatsBefore (length seats.items) last.me.0 result.me.0 }
{
    let mut all = last;
    while let Some(seat) = seats.pop() {
        let Seat {
            table_seat,
            notes: _,
            geometry: _,
            budget: _,
            owned: _owned,
            recent: _recent,
            pending: _pending,
        } = seat;
        join(shared, &mut all, table_seat);
    }
    seats.destroy_empty();
    all
}
