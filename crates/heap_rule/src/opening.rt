//! Opens a heap at rest for several seats.

ghost use Rattle.std.specs.Prelude.{◌≡◌, ◌<◌, ◌≤◌, ℕ, [], get_or, length, IfOk};
ghost use Rattle.core_model.specs.Opening.{AreOwners, setup_of, opened_view};
ghost use Rattle.heap_model.specs.Geometry.{image_words};
ghost use Rattle.seat_index.specs.declared.owned_opening.Room.{Room};
ghost use Rattle.seat_index.specs.Owned.{parts_of};
ghost use Rattle.seat_index.specs.Rooms.{IsOpenedRoom};
ghost use Rattle.heap_table.specs.Rule.{IsOpened, opening_of, setup_for, opened_views, opened_view_of};
ghost use Rattle.heap_rule.specs.Seats.{AreOpenedSeats, dealt_seats};

use crate::seat::Seat;
use heap_table::{Shared, TableSeat, open_table, split_first};
use seat_index::{Room, opened_rooms};
use seat_state::{NEW_SEAT, Owners};
use std::alloc::{AllocError, Global};
use std::collections::VecDeque;
use super_block::{Geometry, Ready};

/// Shares a heap at rest between some seats: each held block and each root belongs to one of them.
/// At most `budget` steps are allowed to all of them together. It fails only where memory runs out.
pub fn open_shared(
    alloc: Global,
    heap: Ready,
    owners: &Owners,
    seats: usize,
    budget: u64,
) -> Result<(Shared, Vec<Seat>), AllocError>
    requires owners { AreOwners heap.held seats owners.now.held owners.now.roots }
    requires some { 1 ≤ seats }
    requires few { seats ≤ 8 }
    requires budget { budget < 1099511627776 }
    ensures opening { IfOk result (λ r. r.0.opening ≡ opening_of heap owners.now seats budget) }
    ensures count { IfOk result (λ r. r.0.opening.seats ≡ seats) }
    ensures seats { IfOk result (λ r. AreOpenedSeats r.0 (opened_view (setup_of heap.words budget seats)
        heap.held owners.now.held owners.now.roots) r.1.items) }
{
    let geometry = heap.geometry();
    let rooms = opened_rooms(alloc, &heap, owners, seats)?;
    let (shared, dealer) = open_table(alloc, heap, owners, seats, budget)?;
    let list = deal(alloc, &shared, dealer, geometry, budget, rooms)?;
    Ok((shared, list))
}

/// The seats, which are split off the first one of the table, in their order.
fn deal(
    alloc: Global,
    shared: &Shared,
    mut dealer: TableSeat,
    geometry: Geometry,
    budget: u64,
    mut rooms: VecDeque<Room>,
) -> Result<Vec<Seat>, AllocError>
    requires opened { IsOpened shared.now.opening }
    requires table { dealer.table_id ≡ shared.now.table }
    requires first { dealer.me ≡ (opened_views shared.now.opening, []) }
    requires seats { length rooms.items ≡ shared.now.opening.seats }
    requires rooms { (i : ℕ) (room : Room) → i < length rooms.items
        → get_or rooms.items i room ≡ room
        → IsOpenedRoom room (parts_of (opened_view_of shared.now.opening i)) }
    requires geometry { geometry.capacity ≡ (setup_for shared.now.opening).capacity }
    requires budget { budget ≡ (setup_for shared.now.opening).budget }
    ensures { IfOk result (λ list. list.items
        ≡ dealt_seats shared.now.table (opened_view_of shared.now.opening)
        (image_words geometry.capacity) shared.now.opening.seats) }
{
    let seats = rooms.len();
    let mut list = Vec::with_capacity(alloc, seats)?;
    for _i in 0..seats {
        let Some(room) = rooms.pop_front() else {
            unreachable!();
        };
        let table_seat = split_first(shared, &mut dealer);
        list.push_reserved(Seat {
            table_seat,
            notes: NEW_SEAT,
            geometry,
            budget,
            owned: room.owned,
            recent: room.recent,
            pending: room.pending,
        });
    }
    Ok(list)
}
