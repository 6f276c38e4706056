//! A seat of a shared heap: one thread's part of it.

use heap_table::TableSeat;
use line_memory::{Pending, RecentStores};
use seat_index::Owned;
use seat_state::SeatNotes;
use std::marker::Model;
use super_block::Geometry;

/// A seat of a shared heap.
#[derive(Drop)]
pub struct Seat {
    pub(crate) table_seat: TableSeat,
    pub(crate) notes: SeatNotes,
    pub(crate) geometry: Geometry,
    pub(crate) budget: u64,
    pub(crate) owned: Owned,
    pub(crate) recent: RecentStores,
    pub(crate) pending: Pending,
}

impl Model for Seat {
    ghost use Rattle.heap_table.specs.SeatViews.{view_in};
    ghost use Rattle.heap_rule.specs.Seated.{SeatView, IsWholeSeat};

    ghost Value = { SeatView };

    ghost view = { λ a. record {
      table = a.table_seat.table_id;
      view = view_in a.table_seat.me.0;
      stores = a.recent;
      marks = a.pending;
    } };

    ghost invariant = { λ a.
        IsWholeSeat a.table_seat.me a.notes a.owned a.pending a.geometry.capacity a.budget };
}
