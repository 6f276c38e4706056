//! The info of a claimed superblock says what becomes of it.

ghost use Rattle.heap_rule.specs.Seated.{IsSeatOf};
ghost use Rattle.std.specs.Prelude.{◌≡◌, ◌<◌, OnOk, IfErr};
ghost use Rattle.core_model.specs.View.{times_raw};
ghost use Rattle.seat_costs.specs.Asked.{HasAsked};
ghost use Rattle.seat_costs.specs.Costs.{one_draw};
ghost use Rattle.seat_costs.specs.Rows.{Row, Stops};
ghost use Rattle.large_block.specs.Infos.{HasInfo};

use heap_rule::{Seat, Shared};
use line_memory::{Chance, Stopped};
use seat_costs::draw_and_store;
use super_block::Geometry;

/// Stores the info of a superblock that is claimed without a class, and makes it durable. Pending
/// write-backs of held words stay: the info is settled alone, with no fence.
pub fn set_info<C: Chance>(
    seat: &mut Seat,
    shared: &Shared,
    d: u64,
    info: u64,
    chance: &mut C,
) -> Result<(), Stopped>
    requires seat { IsSeatOf shared.now seat.old }
    requires claimed { 0 < times_raw d seat.old.view }
    ensures set { OnOk result (HasInfo d info seat.old.view seat.new.view) }
    ensures stopped { IfErr result (λ e. Stops e.step seat.old.view seat.new.view) }
    ensures losses { seat.new.view.losses ≡ seat.old.view.losses }
    ensures row { Row one_draw seat.old seat.new }
    ensures asked { HasAsked C.draw_gives seat.old.view seat.new.view chance.old chance.new }
    ensures seat { IsSeatOf shared.now seat.new }
{
    seat.recall_soundness();
    let place = Geometry::new(seat.capacity(shared)).info(d);
    draw_and_store(seat, shared, place, info, chance)?;
    seat.settle(shared, place);
    Ok(())
}
