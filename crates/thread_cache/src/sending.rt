//! A seat offers a held block to a carrier, or accepts the block of one, each with its ticket.

ghost use Rattle.std.specs.Prelude.{◌≡◌, ◌<◌, None, IfErr, IfOk, OnErr, OnOk};
ghost use Rattle.core_model.specs.Held.{IsHeld};
ghost use Rattle.heap_rule.specs.Seated.{IsSeatOf};
ghost use Rattle.seat_costs.specs.Asked.{HasAsked};
ghost use Rattle.seat_costs.specs.Costs.{one_draw};
ghost use Rattle.seat_costs.specs.Rows.{Row, SameLooks, Stops, next_of};
ghost use Rattle.thread_cache.specs.Sending.{AcceptRow, ComesWith, GoesWith, HasAccepted, HasOffered, OfferRow};

use heap_rule::{Carrier, Seat, Shared};
use line_memory::{Chance, Stopped};
use seat_costs::draw;
use super_block::Block;

/// Gives a held block to a carrier. Where the seat stops it is still held.
pub(crate) fn offer<C: Chance>(
    seat: &mut Seat,
    shared: &Shared,
    block: Block,
    chance: &mut C,
) -> Result<Carrier, Stopped>
    requires seat { IsSeatOf shared.now seat.old }
    requires held { IsHeld seat.old.view block }
    ensures offered { IfOk result (λ carrier. HasOffered block carrier shared.now.table
        seat.old.view seat.new.view) }
    ensures sent { IfOk result (λ carrier. GoesWith carrier.view seat.old.view) }
    ensures row { OnOk result (OfferRow seat.old seat.new) }
    ensures stopped { IfErr result (λ e. Stops e.step seat.old.view seat.new.view) }
    ensures none { OnErr result (Row one_draw seat.old seat.new) }
    ensures drew { seat.old.view.stopped ≡ None
        → next_of seat.old.view < next_of seat.new.view }
    ensures looks { SameLooks seat.old.view seat.new.view }
    ensures losses { seat.new.view.losses ≡ seat.old.view.losses }
    ensures asked { HasAsked C.draw_gives seat.old.view seat.new.view chance.old chance.new }
    ensures seat { IsSeatOf shared.now seat.new }
{
    draw(seat, shared, chance)?;
    seat.recall_soundness();
    Ok(seat.offer(shared, block))
}

/// Takes the block of a carrier, which comes back where the seat stops.
pub(crate) fn accept<C: Chance>(
    seat: &mut Seat,
    shared: &Shared,
    carrier: Carrier,
    chance: &mut C,
) -> Result<Block, (Stopped, Carrier)>
    requires seat { IsSeatOf shared.now seat.old }
    requires carrier { carrier.table ≡ shared.now.table }
    ensures accepted { IfOk result (λ block. HasAccepted block carrier
        seat.old.view seat.new.view) }
    ensures brought { OnOk result (ComesWith carrier.view seat.new.view) }
    ensures row { OnOk result (AcceptRow seat.old seat.new) }
    ensures stopped { IfErr result (λ e. Stops e.0.step seat.old.view seat.new.view
        × (e.1 ≡ carrier)) }
    ensures none { OnErr result (Row one_draw seat.old seat.new) }
    ensures drew { seat.old.view.stopped ≡ None
        → next_of seat.old.view < next_of seat.new.view }
    ensures looks { SameLooks seat.old.view seat.new.view }
    ensures losses { seat.new.view.losses ≡ seat.old.view.losses }
    ensures asked { HasAsked C.draw_gives seat.old.view seat.new.view chance.old chance.new }
    ensures seat { IsSeatOf shared.now seat.new }
{
    match draw(seat, shared, chance) {
        Ok(()) => {
            seat.recall_soundness();
            let block = seat.accept(shared, carrier);
            seat.recall_soundness();
            Ok(block)
        }
        Err(stopped) => Err((stopped, carrier)),
    }
}
