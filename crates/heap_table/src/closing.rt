//! Joins the seats of a table, and closes it.

ghost use Rattle.std.specs.Prelude.{◌≡◌, ◌≤◌, ◌+◌, [], length, IfOk};
ghost use lib.ListN.{take, drop};
ghost use Rattle.std.specs.Slots.{slots_items, slots_len, IsFull};
ghost use Rattle.heap_table.specs.AtTable.{AreAll, IsClosedReached, IsClosedSound};
ghost use Rattle.heap_table.specs.Rule.{setup_for};
ghost use Rattle.heap_table.specs.SeatViews.{joined_views};

use crate::rule::{Known, TableSeat};
use crate::shared::Shared;
use atomic_table::{Join, Play};
use line_memory::Closed;
use std::alloc::{AllocError, Global};

/// A seat of the table that stands for no seat of the heap yet.
pub struct Fresh;

impl Play<u8, Known> for Fresh {
    ghost use Rattle.std.specs.Prelude.{◌≡◌, []};

    ghost then = { λ _ _ _ after. after ≡ ([], []) };
}

/// A seat of the table takes in the views of another, and puts them before its own.
pub struct Together;

impl Join<Known> for Together {
    ghost use Rattle.std.specs.Prelude.{[]};
    ghost use Rattle.heap_table.specs.SeatViews.{joined_views};

    ghost both = { joined_views };

    ghost spent = { [] };
}

/// A seat of the table that stands for no seat of the heap, to join others in.
pub fn fresh_seat(shared: &Shared) -> TableSeat
    ensures table { result.table_id ≡ shared.now.table }
    ensures none { result.me ≡ ([], []) }
{
    let (_, seat) = shared.table.shared.load_new_seat::<Fresh>(0);
    seat
}

/// The seat takes in what another stands for.
pub fn join(shared: &Shared, seat: &mut TableSeat, other: TableSeat)
    requires table { seat.old.table_id ≡ shared.now.table }
    requires other_table { other.table_id ≡ shared.now.table }
    requires no_slots { other.me.1 ≡ [] }
    ensures table { seat.new.table_id ≡ seat.old.table_id }
    ensures views { seat.new.me ≡ (joined_views seat.old.me.0 other.me.0, seat.old.me.1) }
{
    shared.table.shared.join_seat::<Together>(seat, other);
}

/// Closes a table, once one seat stands for all seats of the heap, and for each
/// carrier that they made and that none took in. It leaves the two values of
/// each word. It fails only where memory runs out.
pub fn close_table(alloc: Global, shared: Shared, last: TableSeat) -> Result<Closed, AllocError>
    requires table { last.table_id ≡ shared.table }
    requires all { AreAll shared.opening.seats last.me.0 }
    ensures sound { IfOk result (λ c.
        IsClosedSound (setup_for shared.opening) c.now c.kept last.me.0) }
    ensures reached { IfOk result (λ c. IsClosedReached shared.opening c.now c.kept last.me.0) }
{
    let Shared { table } = shared;
    let length = table.word_count() / 2;
    let closed = table.close_with(last);
    let left = parts(alloc, &closed, length);
    closed.free();
    left
}

/// The volatile words of a closed table, and the durable ones.
fn parts(
    alloc: Global,
    closed: &atomic_table::Closed<u8, Global>,
    length: usize,
) -> Result<Closed, AllocError>
    requires full { IsFull closed.now.words }
    requires long { length + length ≤ slots_len closed.now.words }
    ensures { IfOk result (λ c. (c.now ≡ take length (slots_items closed.now.words))
        × (c.kept ≡ take length (drop length (slots_items closed.now.words)))) }
{
    Ok(Closed {
        now: part(alloc, closed, 0, length)?,
        kept: part(alloc, closed, length, length)?,
    })
}

/// So many words of a closed table, from one on.
fn part(
    alloc: Global,
    closed: &atomic_table::Closed<u8, Global>,
    from: usize,
    length: usize,
) -> Result<Vec<u64>, AllocError>
    requires full { IsFull closed.now.words }
    requires inside { from + length ≤ slots_len closed.now.words }
    ensures { IfOk result (λ v. v.items ≡ take length (drop from (slots_items closed.now.words))) }
{
    let mut words = Vec::with_capacity(alloc, length)?;
    for i in 0..length {
        words.push_reserved(closed.word(from + i));
    }
    Ok(words)
}
