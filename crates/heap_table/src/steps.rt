//! The steps of a seat at the table, each of which is one event.

ghost use Rattle.std.specs.Prelude.{◌≡◌, ◌<◌, ℕ, get_or, true, false};
ghost use Rattle.core_model.specs.Cells.{cell_at};
ghost use Rattle.core_model.specs.Effects.{place_of};
ghost use Rattle.core_model.specs.Guards.{IsOwn};
ghost use Rattle.core_model.specs.Memory.{table_index, table_length};
ghost use Rattle.heap_table.specs.SeatViews.{view_in};
ghost use Rattle.heap_table.specs.Plays.{HasReached, HasSoundState, IsEvent, May};
ghost use Rattle.heap_table.specs.Reached.{learned};
ghost use Rattle.heap_table.specs.AtTable.{IsAt, IsLook, IsDraw, IsRaise, IsExchange, IsStore, LearnsOwn, MayPut, DoesIfMay};

use crate::plays;
use crate::plays::{
    draw_as, exchange_as, find_as, learn_as, load_as, raise_as, read_as, recall_as, store_as,
};
use crate::rule::TableSeat;
use crate::shared::Shared;
use core_model::Event;
use std::marker::Brand;

/// Reads a word, and changes nothing.
pub fn read(shared: &Shared, seat: &mut TableSeat, place: u64) -> u64
    requires at { IsAt shared.now seat.old.table_id seat.old.me (view_in seat.old.me.0) }
    requires inside { place < table_length (view_in seat.old.me.0).setup.capacity }
    ensures same { seat.new.me ≡ seat.old.me }
    ensures table { seat.new.table_id ≡ seat.old.table_id }
    ensures found { (s : HasSoundState (view_in seat.old.me.0))
        × (result ≡ get_or s.words place 0) }
{
    read_as(&shared.table.shared, seat, place as usize)
}

/// Tells that the opened heap came to a state in which the seat has its view. It changes nothing,
/// and draws no ticket.
pub fn recall(shared: &Shared, seat: &mut TableSeat)
    requires at { IsAt shared.now seat.old.table_id seat.old.me (view_in seat.old.me.0) }
    ensures same { seat.new.me ≡ seat.old.me }
    ensures table { seat.new.table_id ≡ seat.old.table_id }
    ensures reached { HasReached shared.now.opening (view_in seat.old.me.0) }
{
    recall_as::<Brand>(&shared.table.shared, seat);
}

/// Reads a word of the seat's own, and records it in its view.
pub fn learn(shared: &Shared, seat: &mut TableSeat, word: u64) -> u64
    requires at { IsAt shared.now seat.old.table_id seat.old.me (view_in seat.old.me.0) }
    requires own { IsOwn (view_in seat.old.me.0)
        (cell_at (view_in seat.old.me.0).setup.capacity word) }
    ensures at { IsAt shared.now seat.new.table_id seat.new.me (view_in seat.new.me.0) }
    ensures view { view_in seat.new.me.0 ≡ learned (view_in seat.old.me.0) word result }
    ensures found { (s : HasSoundState (view_in seat.old.me.0)) × (result ≡ get_or s.words word 0) }
{
    learn_as(&shared.table.shared, seat, word as usize)
}

/// Loads the word of a look.
pub fn look(shared: &Shared, seat: &mut TableSeat, place: u64, event: Event) -> u64
    requires at { IsAt shared.now seat.old.table_id seat.old.me (view_in seat.old.me.0) }
    requires may { May (view_in seat.old.me.0) event }
    requires place { place ≡ table_index (view_in seat.old.me.0).setup.capacity
        (place_of (view_in seat.old.me.0) event) }
    requires look { IsLook event }
    ensures at { IsAt shared.now seat.new.table_id seat.new.me (view_in seat.new.me.0) }
    ensures event { IsEvent event (view_in seat.old.me.0) result (view_in seat.new.me.0) }
{
    load_as::<Brand>(&shared.table.shared, seat, place as usize, event)
}

/// Draws a ticket.
pub fn draw(shared: &Shared, seat: &mut TableSeat, place: u64, event: Event) -> u64
    requires at { IsAt shared.now seat.old.table_id seat.old.me (view_in seat.old.me.0) }
    requires may { May (view_in seat.old.me.0) event }
    requires place { place ≡ table_index (view_in seat.old.me.0).setup.capacity
        (place_of (view_in seat.old.me.0) event) }
    requires draw { IsDraw event }
    ensures at { IsAt shared.now seat.new.table_id seat.new.me (view_in seat.new.me.0) }
    ensures event { IsEvent event (view_in seat.old.me.0) result (view_in seat.new.me.0) }
{
    draw_as::<Brand>(&shared.table.shared, seat, place as usize, event)
}

/// Raises a word to a value, where it is less.
pub fn raise(shared: &Shared, seat: &mut TableSeat, place: u64, value: u64, event: Event) -> u64
    requires at { IsAt shared.now seat.old.table_id seat.old.me (view_in seat.old.me.0) }
    requires may { May (view_in seat.old.me.0) event }
    requires place { place ≡ table_index (view_in seat.old.me.0).setup.capacity
        (place_of (view_in seat.old.me.0) event) }
    requires raise { IsRaise event (view_in seat.old.me.0) value }
    ensures at { IsAt shared.now seat.new.table_id seat.new.me (view_in seat.new.me.0) }
    ensures event { IsEvent event (view_in seat.old.me.0) result (view_in seat.new.me.0) }
{
    raise_as::<Brand>(&shared.table.shared, seat, place as usize, value, event)
}

/// Exchanges a word that is still as it was seen, and tells what it was.
pub fn exchange(
    shared: &Shared,
    seat: &mut TableSeat,
    place: u64,
    seen: u64,
    new: u64,
    event: Event,
) -> u64
    requires at { IsAt shared.now seat.old.table_id seat.old.me (view_in seat.old.me.0) }
    requires may { May (view_in seat.old.me.0) event }
    requires place { place ≡ table_index (view_in seat.old.me.0).setup.capacity
        (place_of (view_in seat.old.me.0) event) }
    requires exchange { IsExchange event (view_in seat.old.me.0) seen new }
    ensures at { IsAt shared.now seat.new.table_id seat.new.me (view_in seat.new.me.0) }
    ensures event { IsEvent event (view_in seat.old.me.0) result (view_in seat.new.me.0) }
{
    exchange_as::<Brand>(&shared.table.shared, seat, place as usize, seen, new, event)
}

/// Stores to a word.
pub fn store(shared: &Shared, seat: &mut TableSeat, place: u64, value: u64, event: Event)
    requires at { IsAt shared.now seat.old.table_id seat.old.me (view_in seat.old.me.0) }
    requires may { May (view_in seat.old.me.0) event }
    requires place { place ≡ table_index (view_in seat.old.me.0).setup.capacity
        (place_of (view_in seat.old.me.0) event) }
    requires store { IsStore event (view_in seat.old.me.0) value }
    ensures at { IsAt shared.now seat.new.table_id seat.new.me (view_in seat.new.me.0) }
    ensures event { (found : ℕ) × IsEvent event (view_in seat.old.me.0) found
        (view_in seat.new.me.0) }
{
    store_as::<Brand>(&shared.table.shared, seat, place as usize, value, event);
}

/// Reads a word, and records it in the seat's view where it is its own.
pub fn learn_own(shared: &Shared, seat: &mut TableSeat, word: u64) -> u64
    requires at { IsAt shared.now seat.old.table_id seat.old.me (view_in seat.old.me.0) }
    requires inside { word < table_length (view_in seat.old.me.0).setup.capacity }
    ensures at { IsAt shared.now seat.new.table_id seat.new.me (view_in seat.new.me.0) }
    ensures learned { LearnsOwn word result (view_in seat.old.me.0) (view_in seat.new.me.0) }
{
    shared
        .table
        .shared
        .load::<plays::LearnsOwn>(seat, word as usize)
}

/// Whether a word has the value that a store would leave there: then that is the store, where the
/// seat may do it.
pub fn stands(shared: &Shared, seat: &mut TableSeat, place: u64, value: u64, event: Event) -> bool
    requires at { IsAt shared.now seat.old.table_id seat.old.me (view_in seat.old.me.0) }
    requires inside { place < table_length (view_in seat.old.me.0).setup.capacity }
    requires put { MayPut event (view_in seat.old.me.0) place value }
    ensures at { IsAt shared.now seat.new.table_id seat.new.me (view_in seat.new.me.0) }
    ensures there { result ≡ true
        → DoesIfMay event (view_in seat.old.me.0) (view_in seat.new.me.0) }
    ensures other { result ≡ false → view_in seat.new.me.0 ≡ view_in seat.old.me.0 }
{
    find_as::<Brand>(&shared.table.shared, seat, place as usize, value, event) == value
}
