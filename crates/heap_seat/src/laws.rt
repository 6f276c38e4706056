//! What follows from the definitions, as functions with nothing to run: a caller cites their
//! clauses.

ghost use Rattle.std.specs.Prelude.{ℕ, ◌+◌, ◌≤◌};
ghost use Rattle.heap_seat.specs.View.{View};
ghost use Rattle.heap_seat.specs.Calls.{IsSmallCall, IsLargeCall};
ghost use Rattle.heap_seat.specs.Rows.{IsRow};

/// Calls of a seat go together: each call is a row of one, and two rows are one whose bounds are
/// the sums of theirs.
pub fn rows_of_calls_go_together()
    ensures none { (v : View) → IsRow 0 0 0 v v }
    ensures small { (v w : View) → IsSmallCall v w → IsRow 1 0 0 v w }
    ensures large { (most : ℕ) (v w : View) → IsLargeCall most v w → IsRow 0 1 most v w }
    ensures more { (small large most smalls larges mosts : ℕ) (v w : View)
        → small ≤ smalls → large ≤ larges → most ≤ mosts
        → IsRow small large most v w → IsRow smalls larges mosts v w }
    ensures row { (small large most smalls larges mosts : ℕ) (v u w : View)
        → IsRow small large most v u → IsRow smalls larges mosts u w
        → IsRow (small + smalls) (large + larges) (most + mosts) v w }
{}
