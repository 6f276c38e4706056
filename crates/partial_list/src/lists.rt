//! Pop and push of the list of superblocks of a class that have free blocks.

ghost use Rattle.std.specs.Prelude.{◌≡◌, ◌≤◌, ◌<◌, ◌+◌, ◌-◌, ◌*◌, IfOk, OnOk, IfErr};
ghost use Rattle.core_model.specs.View.{times_claimed};
ghost use Rattle.heap_model.specs.Sizes.{IsClass};
ghost use Rattle.heap_rule.specs.Seated.{IsSeatOf};
ghost use Rattle.heap_rule.specs.Shown.{CanList};
ghost use Rattle.seat_costs.specs.Asked.{HasAsked};
ghost use Rattle.seat_costs.specs.Costs.{one_push, one_win};
ghost use Rattle.seat_costs.specs.Rows.{Row, Stops};
ghost use Rattle.superblock_lists.specs.Hands.{IsInThisHandAlone};
ghost use Rattle.superblock_lists.specs.Pops.{Pops};
ghost use Rattle.superblock_lists.specs.Pushes.{HasPushed};

use heap_rule::{Seat, Shared};
use line_memory::{Chance, Stopped};
use seat_costs::a_row_bounds_its_draws;
use size_table::SizeClass;
use superblock_lists::{Pop, a_claimed_superblock_is_in_one_hand, pop_from, push_to};

/// Pops the first superblock of the class's list: it is claimed with the class, and in this hand
/// alone. Where the list is empty, that is answered, with the head that said so.
///
/// The superblock had free blocks when it was pushed, but others may have been given to it since:
/// all of its blocks may be free by now.
pub fn pop<C: Chance>(
    seat: &mut Seat,
    shared: &Shared,
    class: SizeClass,
    chance: &mut C,
) -> Result<Pop, Stopped>
    requires seat { IsSeatOf shared.now seat.old }
    ensures done { IfOk result (λ pop. Pops class.number pop seat.old.view seat.new.view) }
    ensures alone { IfOk result (λ pop. IsInThisHandAlone pop seat.new.view) }
    ensures draws { seat.new.view.draws ≤ seat.old.view.draws + 4
        + 4 * (seat.new.view.losses - seat.old.view.losses) }
    ensures stopped { IfErr result (λ e. Stops e.step seat.old.view seat.new.view) }
    ensures row { Row (record one_win { draws = 3 }) seat.old seat.new }
    ensures asked { HasAsked C.draw_gives seat.old.view seat.new.view chance.old chance.new }
    ensures seat { IsSeatOf shared.now seat.new }
{
    a_row_bounds_its_draws();
    a_claimed_superblock_is_in_one_hand();
    pop_from(seat, shared, class.number as u64, chance)
}

/// Pushes a superblock of the class that is in this hand: it is in this hand no more.
///
/// Whether it has free blocks is not asked: they may all be free by the time it is popped.
pub fn push<C: Chance>(
    seat: &mut Seat,
    shared: &Shared,
    class: SizeClass,
    d: u64,
    chance: &mut C,
) -> Result<(), Stopped>
    requires seat { IsSeatOf shared.now seat.old }
    requires durable { d < seat.old.view.floor }
    requires can { CanList seat.old.view d class.number }
    ensures done { OnOk result (HasPushed class.number d 3 seat.old.view seat.new.view) }
    ensures free { OnOk result (times_claimed d seat.new.view ≡ 0) }
    ensures draws { seat.new.view.draws ≤ seat.old.view.draws + 4
        + 4 * (seat.new.view.losses - seat.old.view.losses) }
    ensures stopped { IfErr result (λ e. Stops e.step seat.old.view seat.new.view) }
    ensures row { Row (record one_push { draws = 3 }) seat.old seat.new }
    ensures asked { HasAsked C.draw_gives seat.old.view seat.new.view chance.old chance.new }
    ensures seat { IsSeatOf shared.now seat.new }
{
    push_to(seat, shared, class.number as u64, d, chance)
}
