//! Pop and push of the list of free superblocks.

ghost use Rattle.std.specs.Prelude.{◌≡◌, ◌≤◌, ◌<◌, ◌+◌, ◌-◌, ◌*◌, IfOk, OnOk, IfErr};
ghost use Rattle.core_model.specs.View.{times_claimed};
ghost use Rattle.heap_rule.specs.Seated.{IsSeatOf};
ghost use Rattle.heap_rule.specs.Shown.{CanList};
ghost use Rattle.seat_costs.specs.Asked.{HasAsked};
ghost use Rattle.seat_costs.specs.Costs.{one_push, one_win};
ghost use Rattle.seat_costs.specs.Rows.{Row, Stops};
ghost use Rattle.superblock_lists.specs.Hands.{IsInThisHandAlone};
ghost use Rattle.superblock_lists.specs.Pops.{Pops};
ghost use Rattle.superblock_lists.specs.Pushes.{HasPushed};

use heap_rule::{Seat, Shared};
use line_memory::{Chance, Stopped};
use seat_costs::a_row_bounds_its_draws;
use super_block::FREE_LIST;
use superblock_lists::{Pop, a_claimed_superblock_is_in_one_hand, pop_from, push_to};

/// Pops the first free superblock: it is in this hand alone. Where the list is empty, that is
/// answered, with the head that said so.
///
/// It reads the head, then the first one's link, and exchanges the head for that link and one pop
/// more. The exchange is where it takes effect; a pop of the empty list takes effect at its last
/// look at the head. Where another seat was faster, the exchange is lost, nothing has changed, and
/// it begins anew with a look at the head. Links are read of superblocks that another seat may have
/// popped by then; that does no harm, as no descriptor is ever given back. Nor can a stale link be
/// put into the head, though the same superblock may be first again: it was popped in between, so
/// the head's count has risen, and the exchange is lost.
pub fn pop<C: Chance>(seat: &mut Seat, shared: &Shared, chance: &mut C) -> Result<Pop, Stopped>
    requires seat { IsSeatOf shared.now seat.old }
    ensures done { IfOk result (λ pop. Pops 0 pop seat.old.view seat.new.view) }
    ensures alone { IfOk result (λ pop. IsInThisHandAlone pop seat.new.view) }
    ensures draws { seat.new.view.draws ≤ seat.old.view.draws + 4
        + 4 * (seat.new.view.losses - seat.old.view.losses) }
    ensures stopped { IfErr result (λ e. Stops e.step seat.old.view seat.new.view) }
    ensures row { Row (record one_win { draws = 3 }) seat.old seat.new }
    ensures asked { HasAsked C.draw_gives seat.old.view seat.new.view chance.old chance.new }
    ensures seat { IsSeatOf shared.now seat.new }
{
    a_row_bounds_its_draws();
    a_claimed_superblock_is_in_one_hand();
    pop_from(seat, shared, FREE_LIST, chance)
}

/// Pushes a free superblock that is in this hand: it is in this hand no more.
///
/// It reads the head, lets the superblock's link lead to the first one, and exchanges the head for
/// the superblock, with as many pops as before. The exchange is where it takes effect. Where
/// another seat was faster, it begins anew, and sets the link by the new head: until then the
/// superblock is in this hand alone, so no seat follows the link. A push leaves the count as it is:
/// whoever sees the same head finds the same first one, whose link no other seat sets.
pub fn push<C: Chance>(
    seat: &mut Seat,
    shared: &Shared,
    d: u64,
    chance: &mut C,
) -> Result<(), Stopped>
    requires seat { IsSeatOf shared.now seat.old }
    requires durable { d < seat.old.view.floor }
    requires can { CanList seat.old.view d 0 }
    ensures done { OnOk result (HasPushed 0 d 3 seat.old.view seat.new.view) }
    ensures free { OnOk result (times_claimed d seat.new.view ≡ 0) }
    ensures draws { seat.new.view.draws ≤ seat.old.view.draws + 4
        + 4 * (seat.new.view.losses - seat.old.view.losses) }
    ensures stopped { IfErr result (λ e. Stops e.step seat.old.view seat.new.view) }
    ensures row { Row (record one_push { draws = 3 }) seat.old seat.new }
    ensures asked { HasAsked C.draw_gives seat.old.view seat.new.view chance.old chance.new }
    ensures seat { IsSeatOf shared.now seat.new }
{
    push_to(seat, shared, FREE_LIST, d, chance)
}
