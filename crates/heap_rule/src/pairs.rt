//! What is so of two seats at once, while others go on.

ghost use Rattle.std.specs.Prelude.{◌≡◌};
ghost use Rattle.heap_model.specs.declared.block.Block.{Block};
ghost use Rattle.core_model.specs.Held.{AreApart, IsHeld};
ghost use Rattle.heap_table.specs.Plays.{AreInOneState};
ghost use Rattle.heap_rule.specs.Seated.{IsSeatOf};

use crate::seat::Seat;
use heap_table::{Shared, read_both};

/// One sound state has the views of both seats, so no block that the one holds has a word of a block
/// that the other holds. Both come back as they were. It draws no ticket, and changes no word.
pub fn held_at_once(shared: &Shared, one: Seat, other: Seat) -> (Seat, Seat)
    requires one { IsSeatOf shared.now one }
    requires other { IsSeatOf shared.now other }
    ensures one { result.0 ≡ one }
    ensures other { result.1 ≡ other }
    ensures together { AreInOneState one.view other.view }
    ensures apart { (a b : Block) → IsHeld one.view a → IsHeld other.view b → AreApart a b }
{
    let mut one = one;
    let Seat {
        table_seat,
        notes,
        geometry,
        budget,
        owned,
        recent,
        pending,
    } = other;
    let table_seat = read_both(shared, &mut one.table_seat, table_seat);
    let other = Seat {
        table_seat,
        notes,
        geometry,
        budget,
        owned,
        recent,
        pending,
    };
    (one, other)
}
