//! A look at an anchor.

ghost use Rattle.std.specs.Prelude.{◌<◌, IfOk, IfErr};
ghost use Rattle.core_model.specs.Guards.{MayLookAt};
ghost use Rattle.core_model.specs.View.{times_classed};
ghost use Rattle.heap_model.specs.Words.{anchor_state};
ghost use Rattle.heap_rule.specs.Seated.{IsSeatOf};
ghost use Rattle.seat_costs.specs.Asked.{HasAsked};
ghost use Rattle.seat_costs.specs.Costs.{one_draw};
ghost use Rattle.seat_costs.specs.Rows.{Row, Stops};
ghost use Rattle.superblock_lists.specs.Anchors.{HasSeenAnchor};

use heap_rule::{Seat, Shared};
use line_memory::{Chance, Stopped};
use seat_costs::draw;

/// Reads the anchor of a claimed superblock, or of the batch's, which it answers.
pub fn look_anchor<C: Chance>(
    seat: &mut Seat,
    shared: &Shared,
    d: u64,
    chance: &mut C,
) -> Result<u64, Stopped>
    requires seat { IsSeatOf shared.now seat.old }
    requires may { MayLookAt seat.old.view d }
    ensures seen { IfOk result (λ anchor. HasSeenAnchor d anchor
        seat.old.view seat.new.view) }
    ensures of_class { IfOk result (λ anchor. 0 < times_classed d seat.old.view.classed
        → anchor_state anchor < 2) }
    ensures stopped { IfErr result (λ e. Stops e.step seat.old.view seat.new.view) }
    ensures row { Row one_draw seat.old seat.new }
    ensures asked { HasAsked C.draw_gives seat.old.view seat.new.view chance.old chance.new }
    ensures seat { IsSeatOf shared.now seat.new }
{
    draw(seat, shared, chance)?;
    Ok(seat.look_anchor(shared, d))
}
