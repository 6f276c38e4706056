//! What a heap is closed with where no block went from seat to seat, as a function with nothing to
//! run: a caller cites its clause.

ghost use Rattle.std.specs.Prelude.{◌≡◌, List, [], Contains};
ghost use Rattle.core_model.specs.View.{no_role, role};
ghost use Rattle.heap_table.specs.AtTable.{SharedView};
ghost use Rattle.heap_rule.specs.Carried.{AreAllOf};
ghost use Rattle.heap_rule.specs.Seated.{SeatView};
ghost use Rattle.heap_rule.specs.Seats.{AreSeatsOf};

/// A heap whose seats have offered and accepted nothing is closed with them alone.
pub fn seats_that_hand_nothing_leave_no_carrier()
    ensures { (shared : SharedView) (seats : List SeatView) → AreSeatsOf shared seats
        → ((seat : SeatView) → Contains seats seat → role seat.view ≡ no_role)
        → AreAllOf shared seats [] }
{}
