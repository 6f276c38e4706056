//! A draw of a ticket with no change.

ghost use Rattle.heap_rule.specs.Seated.{IsSeatOf};
ghost use Rattle.std.specs.Prelude.{◌≡◌, ◌<◌, ℕ, None, Some, OnOk, IfErr};
ghost use Rattle.core_model.specs.declared.event.Event.TheVariants.{Tick};
ghost use Rattle.core_model.specs.View.{View};
ghost use Rattle.heap_table.specs.Plays.{IsEvent};
ghost use Rattle.heap_rule.specs.Fences.{SettlesEarly};
ghost use Rattle.heap_rule.specs.Seated.{KeepsStores, SeatView, TellsDraw};
ghost use Rattle.heap_rule.specs.Shown.{Can};
ghost use Rattle.seat_costs.specs.Asked.{HasAsked};
ghost use Rattle.seat_costs.specs.Draws.{LeavesAsSettled, Settles};
ghost use Rattle.seat_costs.specs.Costs.{one_draw};
ghost use Rattle.seat_costs.specs.Rows.{HasDrawn, Row, SameLooks, Stops, next_of};

use core_model::Shift;
use heap_rule::{Seat, Shared};
use line_memory::{Chance, Stopped};

/// Draws a ticket, with a change of the seat's parts where there is one, after some word may have
/// become durable by chance. Chance is asked once, and not at all where the seat had stopped.
pub fn draw_with<C: Chance>(
    seat: &mut Seat,
    shared: &Shared,
    shift: Option<Shift>,
    chance: &mut C,
) -> Result<(), Stopped>
    requires seat { IsSeatOf shared.now seat.old }
    requires can { seat.old.view.stopped ≡ None → Can seat.old.view (Tick shift) }
    ensures event { seat.old.view.stopped ≡ None → (early : View) × Settles seat.old.view early
        × (found : ℕ) × IsEvent (Tick shift) early found seat.new.view }
    ensures asked { seat.old.view.stopped ≡ None
        → (r : ℕ) × C.draw_gives chance.old r chance.new
        × ((early : SeatView) × SettlesEarly r seat.old early
        × (found : ℕ) × IsEvent (Tick shift) early.view found seat.new.view) }
    ensures had_stopped { (step : ℕ) → seat.old.view.stopped ≡ Some step → seat.new ≡ seat.old }
    ensures not_asked { (step : ℕ) → seat.old.view.stopped ≡ Some step → chance.new ≡ chance.old }
    ensures numbers { HasAsked C.draw_gives seat.old.view seat.new.view chance.old chance.new }
    ensures told { TellsDraw seat.new.view result }
    ensures drew { seat.old.view.stopped ≡ None → next_of seat.old.view < next_of seat.new.view }
    ensures losses { seat.new.view.losses ≡ seat.old.view.losses }
    ensures stores { KeepsStores seat.old seat.new }
    ensures seat { IsSeatOf shared.now seat.new }
{
    seat.draw(shared, shift, chance)
}

/// Draws a ticket, with no change of the seat's parts, unless the seat has stopped.
pub fn draw<C: Chance>(seat: &mut Seat, shared: &Shared, chance: &mut C) -> Result<(), Stopped>
    requires seat { IsSeatOf shared.now seat.old }
    ensures drawn { OnOk result (HasDrawn seat.old.view seat.new.view) }
    ensures stopped { IfErr result (λ e. Stops e.step seat.old.view seat.new.view) }
    ensures asked { seat.old.view.stopped ≡ None → (r : ℕ) × C.draw_gives chance.old r chance.new }
    ensures not_asked { (step : ℕ) → seat.old.view.stopped ≡ Some step → chance.new ≡ chance.old }
    ensures numbers { HasAsked C.draw_gives seat.old.view seat.new.view chance.old chance.new }
    ensures early { seat.old.view.stopped ≡ None
        → LeavesAsSettled C.draw_gives seat.old seat.new chance.old chance.new }
    ensures row { Row one_draw seat.old seat.new }
    ensures looks { SameLooks seat.old.view seat.new.view }
    ensures losses { seat.new.view.losses ≡ seat.old.view.losses }
    ensures stores { KeepsStores seat.old seat.new }
    ensures seat { IsSeatOf shared.now seat.new }
{
    seat.recall_soundness();
    draw_with(seat, shared, None, chance)
}
