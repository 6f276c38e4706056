//! A claimed superblock is pushed on a list.
//!
//! Linearization point: the exchange of the head, from which on the superblock is in front of the
//! list, and the seat's no more. A lost race changes nothing of the heap: the push begins anew with
//! a look at the head, and stores the link by that; until it is won no other seat has the
//! superblock. A head that came back may be taken for the old one: the link leads to the first
//! superblock that this head names, which is all that a push needs.

ghost use Rattle.heap_rule.specs.Seated.{IsSeatOf};
ghost use Rattle.std.specs.Prelude.{◌≡◌, ◌<◌, ◌≤◌, ◌+◌, ◌-◌, ◌*◌, ℕ, IfOk, OnOk, IfErr};
ghost use Rattle.core_model.specs.Guards.{IsFreelyClaimed};
ghost use Rattle.core_model.specs.View.{times_claimed};
ghost use Rattle.heap_model.specs.Geometry.{lists};
ghost use Rattle.heap_rule.specs.Shown.{CanList};
ghost use Rattle.seat_costs.specs.Asked.{HasAsked};
ghost use Rattle.seat_costs.specs.Costs.{one_draw, one_push};
ghost use Rattle.seat_costs.specs.Rows.{Row, Stops};
ghost use Rattle.superblock_lists.specs.Pushes.{HasPushed, HasSetLink, Pushes, SeesLinked};

use crate::pops::look_list;
use heap_rule::{Seat, Shared};
use line_memory::{Chance, Stopped};
use seat_costs::{draw, draw_and_store};
use seat_state::head_first;
use super_block::Geometry;

/// The link of a claimed superblock leads to another superblock, by its number plus 1.
fn set_link<C: Chance>(
    seat: &mut Seat,
    shared: &Shared,
    d: u64,
    first: u64,
    chance: &mut C,
) -> Result<(), Stopped>
    requires seat { IsSeatOf shared.now seat.old }
    requires claimed { IsFreelyClaimed seat.old.view d }
    ensures linked { OnOk result (HasSetLink d first seat.old.view seat.new.view) }
    ensures stopped { IfErr result (λ e. Stops e.step seat.old.view seat.new.view) }
    ensures row { Row one_draw seat.old seat.new }
    ensures asked { HasAsked C.draw_gives seat.old.view seat.new.view chance.old chance.new }
    ensures seat { IsSeatOf shared.now seat.new }
{
    seat.recall_soundness();
    let link = Geometry::new(seat.capacity(shared)).link(d);
    draw_and_store(seat, shared, link, first, chance)
}

/// Pushes a claimed superblock that leads to the first one that was seen in the list.
fn push_seen<C: Chance>(
    seat: &mut Seat,
    shared: &Shared,
    d: u64,
    chance: &mut C,
) -> Result<bool, Stopped>
    requires seat { IsSeatOf shared.now seat.old }
    requires durable { d < seat.old.view.floor }
    requires listed { (list : ℕ) × SeesLinked list d seat.old.view
        × CanList seat.old.view d list }
    ensures done { IfOk result (λ won. (list : ℕ) → SeesLinked list d seat.old.view
        → CanList seat.old.view d list
        → Pushes list d 1 won seat.old.view seat.new.view) }
    ensures draws { seat.new.view.draws ≤ seat.old.view.draws + 1
        + 4 * (seat.new.view.losses - seat.old.view.losses) }
    ensures stopped { IfErr result (λ e. Stops e.step seat.old.view seat.new.view) }
    ensures row { Row (record one_push { draws = 1 }) seat.old seat.new }
    ensures asked { HasAsked C.draw_gives seat.old.view seat.new.view chance.old chance.new }
    ensures seat { IsSeatOf shared.now seat.new }
{
    seat.recall_soundness();
    draw(seat, shared, chance)?;
    Ok(seat.try_push(shared, d).is_ok())
}

/// Pushes a claimed superblock on a list, in one try: false where another seat was faster.
fn try_push_to<C: Chance>(
    seat: &mut Seat,
    shared: &Shared,
    list: u64,
    d: u64,
    chance: &mut C,
) -> Result<bool, Stopped>
    requires seat { IsSeatOf shared.now seat.old }
    requires list { list < lists }
    requires durable { d < seat.old.view.floor }
    requires can { CanList seat.old.view d list }
    ensures done { IfOk result (λ won. Pushes list d 3 won seat.old.view seat.new.view) }
    ensures draws { seat.new.view.draws ≤ seat.old.view.draws + 3
        + 4 * (seat.new.view.losses - seat.old.view.losses) }
    ensures stopped { IfErr result (λ e. Stops e.step seat.old.view seat.new.view) }
    ensures row { Row (record one_push { draws = 3 }) seat.old seat.new }
    ensures asked { HasAsked C.draw_gives seat.old.view seat.new.view chance.old chance.new }
    ensures seat { IsSeatOf shared.now seat.new }
{
    seat.recall_soundness();
    let head = look_list(seat, shared, list, chance)?;
    set_link(seat, shared, d, head_first(head), chance)?;
    push_seen(seat, shared, d, chance)
}

/// Pushes a claimed superblock on a list: it is not claimed any more.
pub fn push_to<C: Chance>(
    seat: &mut Seat,
    shared: &Shared,
    list: u64,
    d: u64,
    chance: &mut C,
) -> Result<(), Stopped>
    requires seat { IsSeatOf shared.now seat.old }
    requires list { list < lists }
    requires durable { d < seat.old.view.floor }
    requires can { CanList seat.old.view d list }
    ensures done { OnOk result (HasPushed list d 3 seat.old.view seat.new.view) }
    ensures free { OnOk result (times_claimed d seat.new.view ≡ 0) }
    ensures draws { seat.new.view.draws ≤ seat.old.view.draws + 3
        + 4 * (seat.new.view.losses - seat.old.view.losses) }
    ensures stopped { IfErr result (λ e. Stops e.step seat.old.view seat.new.view) }
    ensures row { Row (record one_push { draws = 3 }) seat.old seat.new }
    ensures asked { HasAsked C.draw_gives seat.old.view seat.new.view chance.old chance.new }
    ensures seat { IsSeatOf shared.now seat.new }
{
    seat.recall_soundness();
    while !try_push_to(seat, shared, list, d, chance)? {}
    Ok(())
}
