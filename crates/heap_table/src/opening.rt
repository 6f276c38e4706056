//! Opens the table of a heap at rest, and deals its seats.

ghost use Rattle.std.specs.Prelude.{◌≡◌, ◌<◌, ◌≤◌, [], IfOk};
ghost use Rattle.core_model.specs.Opening.{AreOwners};
ghost use Rattle.heap_table.specs.Rule.{IsOpened, opening_of, opened_views};
ghost use Rattle.heap_table.specs.SeatViews.{first_view, other_views};

use crate::rule::{Known, OpenedHeap, TableSeat};
use crate::shared::Shared;
use atomic_table::{Split, Table};
use seat_state::{Owners, opened_table};
use std::alloc::{AllocError, Global};
use super_block::Ready;

/// A seat of the table is split: the new one has the first of the views.
pub struct First;

impl Split<Known> for First {
    ghost use Rattle.heap_table.specs.SeatViews.{first_view, other_views};

    ghost left = { other_views };

    ghost right = { first_view };
}

/// The table of a heap at rest, with its words as they are, and its first seat, which stands for
/// all seats of the heap. It fails only where memory runs out.
pub fn open_table(
    alloc: Global,
    heap: Ready,
    owners: &Owners,
    seats: usize,
    budget: u64,
) -> Result<(Shared, TableSeat), AllocError>
    requires owners { AreOwners heap.held seats owners.now.held owners.now.roots }
    requires few { seats ≤ 8 }
    requires budget { budget < 1099511627776 }
    ensures opening { IfOk result (λ t. t.0.opening ≡ opening_of heap owners.now seats budget) }
    ensures opened { IfOk result (λ t. IsOpened t.0.opening) }
    ensures table { IfOk result (λ t. t.1.table_id ≡ t.0.table) }
    ensures first { IfOk result (λ t. t.1.me ≡ (opened_views t.0.opening, [])) }
{
    let table_words = opened_table(alloc, &heap)?;
    let block_owners = Vec::from_slice(alloc, owners.held())?;
    let root_owners = Vec::from_slice(alloc, owners.roots())?;
    let length = heap.words().len();
    let (_, held) = heap.into_parts();
    let key = OpenedHeap {
        table_words,
        length,
        held,
        block_owners,
        root_owners,
        seats,
        budget,
    };
    let (table, dealer) = Table::of_words(alloc, key.table_words.as_slice(), &key)?;
    Ok((Shared { table }, dealer))
}

/// A new seat of the table, with the first of the views.
pub fn split_first(shared: &Shared, seat: &mut TableSeat) -> TableSeat
    requires table { seat.old.table_id ≡ shared.now.table }
    ensures table { seat.new.table_id ≡ seat.old.table_id }
    ensures rest { seat.new.me ≡ (other_views seat.old.me.0, seat.old.me.1) }
    ensures first_table { result.table_id ≡ seat.old.table_id }
    ensures first { result.me ≡ (first_view seat.old.me.0, []) }
{
    shared.table.shared.split_seat::<First>(seat)
}
