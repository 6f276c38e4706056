//! A store for which a ticket is drawn.

ghost use Rattle.std.specs.Prelude.{◌≡◌, ◌≢◌, ℕ, None, OnOk, OnErr, IfErr};
ghost use Rattle.core_model.specs.declared.event.Event.TheVariants.{Store};
ghost use Rattle.heap_rule.specs.Seated.{IsSeatOf};
ghost use Rattle.heap_rule.specs.Shown.{IsShownFor};
ghost use Rattle.line_memory.specs.Marks.{IsMarked};
ghost use Rattle.seat_costs.specs.Asked.{HasAsked};
ghost use Rattle.seat_costs.specs.Costs.{one_draw};
ghost use Rattle.seat_costs.specs.Draws.{LeavesAsSettled};
ghost use Rattle.seat_costs.specs.Rows.{Row, SameLooks, Stops, StoringRow};
ghost use Rattle.seat_costs.specs.Stores.{HasStored};
ghost use Rattle.seat_costs.specs.Words.{IsHeldWord};

use crate::draws::draw;
use heap_rule::{Seat, Shared};
use line_memory::{Chance, Stopped};

/// Draws a ticket, and stores a value to an own word with it. A seat that stops stores nothing.
pub fn draw_and_store<C: Chance>(
    seat: &mut Seat,
    shared: &Shared,
    word: u64,
    value: u64,
    chance: &mut C,
) -> Result<(), Stopped>
    requires seat { IsSeatOf shared.now seat.old }
    requires may { IsShownFor seat.old.view (Store word value) }
    ensures stored { OnOk result (HasStored word value seat.old.view seat.new.view) }
    ensures stopped { IfErr result (λ e. Stops e.step seat.old.view seat.new.view) }
    ensures row { StoringRow word one_draw seat.old seat.new }
    ensures not_held { (IsHeldWord seat.old.view word → ⊥) → Row one_draw seat.old seat.new }
    ensures none { OnErr result (Row one_draw seat.old seat.new) }
    ensures looks { SameLooks seat.old.view seat.new.view }
    ensures losses { seat.new.view.losses ≡ seat.old.view.losses }
    ensures marks { (other : ℕ) → other ≢ word → IsMarked seat.old.marks other
        → IsMarked seat.new.marks other }
    ensures early { seat.old.view.stopped ≡ None
        → LeavesAsSettled C.draw_gives seat.old seat.new chance.old chance.new }
    ensures asked { HasAsked C.draw_gives seat.old.view seat.new.view chance.old chance.new }
    ensures seat { IsSeatOf shared.now seat.new }
{
    draw(seat, shared, chance)?;
    seat.store_word(shared, word, value);
    Ok(())
}
