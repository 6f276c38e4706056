//! What is so of two seats at once.

ghost use Rattle.std.specs.Prelude.{◌≡◌, ◌<◌, [], ◌∷◌};
ghost use Rattle.core_model.specs.View.{View};
ghost use Rattle.heap_table.specs.SeatViews.{view_in};
ghost use Rattle.heap_table.specs.AtTable.{IsAt};
ghost use Rattle.heap_table.specs.Plays.{AreInOneState, DidReadBoth};
ghost use Rattle.heap_table.specs.Rule.{setup_for};

use crate::closing::join;
use crate::opening::split_first;
use crate::rule::{Known, TableSeat, Words};
use crate::shared::Shared;
use atomic_table::Play;

/// What a read by a seat that stands for two tells its caller.
pub struct ReadsBoth;

impl Play<u8, Known> for ReadsBoth {
    ghost use Rattle.heap_table.specs.Plays.{DidReadBoth};

    ghost then = { λ _ me _ after. DidReadBoth me after };
}

/// Reads a word for two seats.
pub(crate) fn read_both_as(shared: &Words, seat: &mut TableSeat)
    requires table { seat.old.table_id ≡ shared.now.table_id }
    requires some { 0 < shared.now.table_id.words }
    requires both { (v : View) × (u : View) × (seat.old.me.0 ≡ u ∷ v ∷ [])
        × (v.setup ≡ setup_for shared.now.key) }
    ensures did { DidReadBoth seat.old.me seat.new.me }
    ensures table { seat.new.table_id ≡ seat.old.table_id }
{
    shared.load::<ReadsBoth>(seat, 0);
}

/// Both seats stay as they are: one sound state has both views.
pub fn read_both(shared: &Shared, one: &mut TableSeat, other: TableSeat) -> TableSeat
    requires at { IsAt shared.now one.old.table_id one.old.me (view_in one.old.me.0) }
    requires other_at { IsAt shared.now other.table_id other.me (view_in other.me.0) }
    ensures same { one.new.me ≡ one.old.me }
    ensures table { one.new.table_id ≡ one.old.table_id }
    ensures other_same { result.me ≡ other.me }
    ensures other_table { result.table_id ≡ other.table_id }
    ensures together { AreInOneState (view_in one.old.me.0) (view_in other.me.0) }
{
    join(shared, one, other);
    read_both_as(&shared.table.shared, one);
    split_first(shared, one)
}
