//! A superblock is popped from a list.
//!
//! Linearization point: the exchange of the head, from which on the superblock is the seat's; of
//! `Empty` the last look at the head. A lost race changes nothing of the heap: the pop begins anew
//! with a look at the head. A head counts its pops. Where one came back, nothing was popped since
//! it was seen: its first superblock is still in the list, and the link is as it was read.

ghost use Rattle.heap_rule.specs.Seated.{IsSeatOf};
ghost use Rattle.std.specs.Prelude.{◌≡◌, ◌<◌, ℕ, true, false, IfOk, OnOk, IfErr};
ghost use Rattle.core_model.specs.Guards.{MayLink};
ghost use Rattle.heap_model.specs.Geometry.{lists};
ghost use Rattle.seat_costs.specs.Asked.{HasAsked};
ghost use Rattle.seat_costs.specs.Costs.{one_draw, one_win};
ghost use Rattle.seat_costs.specs.Rows.{Row, Stops};
ghost use Rattle.superblock_lists.specs.Pops.{SeesHead, SeesLink, SeesFirst, Exchanges, TriesPop, Pops};

use heap_rule::{Seat, Shared};
use line_memory::{Chance, Stopped};
use seat_costs::draw;
use seat_state::head_first;

/// What a pop of a list gives.
#[derive(Clone, Copy, Debug, PartialEq, Eq)]
pub enum Pop {
    /// The superblock that was its first.
    Got(u64),
    /// The list was empty, as its head said.
    Empty { head: u64 },
}

/// Reads the head of a list, which it answers.
pub fn look_list<C: Chance>(
    seat: &mut Seat,
    shared: &Shared,
    list: u64,
    chance: &mut C,
) -> Result<u64, Stopped>
    requires seat { IsSeatOf shared.now seat.old }
    requires list { list < lists }
    ensures seen { IfOk result (λ head. SeesHead list head seat.old.view seat.new.view) }
    ensures stopped { IfErr result (λ e. Stops e.step seat.old.view seat.new.view) }
    ensures row { Row one_draw seat.old seat.new }
    ensures asked { HasAsked C.draw_gives seat.old.view seat.new.view chance.old chance.new }
    ensures seat { IsSeatOf shared.now seat.new }
{
    draw(seat, shared, chance)?;
    Ok(seat.look_head(shared, list))
}

/// Reads the link of the first superblock of the list whose head was seen.
fn look_link<C: Chance>(seat: &mut Seat, shared: &Shared, chance: &mut C) -> Result<(), Stopped>
    requires seat { IsSeatOf shared.now seat.old }
    requires some { MayLink seat.old.view }
    ensures seen { OnOk result (SeesLink seat.old.view seat.new.view) }
    ensures stopped { IfErr result (λ e. Stops e.step seat.old.view seat.new.view) }
    ensures row { Row one_draw seat.old seat.new }
    ensures asked { HasAsked C.draw_gives seat.old.view seat.new.view chance.old chance.new }
    ensures seat { IsSeatOf shared.now seat.new }
{
    draw(seat, shared, chance)?;
    seat.look_link(shared);
    Ok(())
}

/// Pops the superblock that was seen to be the first of a list, if the head is as it was seen.
fn pop_seen<C: Chance>(seat: &mut Seat, shared: &Shared, chance: &mut C) -> Result<bool, Stopped>
    requires seat { IsSeatOf shared.now seat.old }
    requires seen { (list : ℕ) × ((d : ℕ) × SeesFirst list d seat.old.view) }
    ensures done { IfOk result (λ won. (list d : ℕ) → SeesFirst list d seat.old.view
        → Exchanges list d won seat.old.view seat.new.view) }
    ensures stopped { IfErr result (λ e. Stops e.step seat.old.view seat.new.view) }
    ensures row { Row (record one_win { draws = 1 }) seat.old seat.new }
    ensures asked { HasAsked C.draw_gives seat.old.view seat.new.view chance.old chance.new }
    ensures seat { IsSeatOf shared.now seat.new }
{
    draw(seat, shared, chance)?;
    Ok(seat.try_pop(shared).is_ok())
}

/// Pops the first superblock of a list, in one try: none where another seat was faster.
fn try_pop_from<C: Chance>(
    seat: &mut Seat,
    shared: &Shared,
    list: u64,
    chance: &mut C,
) -> Result<Option<Pop>, Stopped>
    requires seat { IsSeatOf shared.now seat.old }
    requires list { list < lists }
    ensures done { IfOk result (λ pop. TriesPop list pop seat.old.view seat.new.view) }
    ensures stopped { IfErr result (λ e. Stops e.step seat.old.view seat.new.view) }
    ensures row { Row (record one_win { draws = 3 }) seat.old seat.new }
    ensures asked { HasAsked C.draw_gives seat.old.view seat.new.view chance.old chance.new }
    ensures seat { IsSeatOf shared.now seat.new }
{
    let head = look_list(seat, shared, list, chance)?;
    let first = head_first(head);
    if first == 0 {
        return Ok(Some(Pop::Empty { head }));
    }
    look_link(seat, shared, chance)?;
    if pop_seen(seat, shared, chance)? {
        return Ok(Some(Pop::Got(first - 1)));
    }
    Ok(None)
}

/// Pops the first superblock of a list: it is claimed then.
pub fn pop_from<C: Chance>(
    seat: &mut Seat,
    shared: &Shared,
    list: u64,
    chance: &mut C,
) -> Result<Pop, Stopped>
    requires seat { IsSeatOf shared.now seat.old }
    requires list { list < lists }
    ensures done { IfOk result (λ pop. Pops list pop seat.old.view seat.new.view) }
    ensures stopped { IfErr result (λ e. Stops e.step seat.old.view seat.new.view) }
    ensures row { Row (record one_win { draws = 3 }) seat.old seat.new }
    ensures asked { HasAsked C.draw_gives seat.old.view seat.new.view chance.old chance.new }
    ensures seat { IsSeatOf shared.now seat.new }
{
    loop {
        if let Some(pop) = try_pop_from(seat, shared, list, chance)? {
            return Ok(pop);
        }
    }
}
