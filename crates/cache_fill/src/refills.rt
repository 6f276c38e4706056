//! An empty cache is filled.

ghost use Rattle.std.specs.Prelude.{◌≡◌, ◌<◌, ◌≤◌, ◌+◌, ◌-◌, [], IfOk, IfErr};
ghost use Rattle.heap_model.specs.Sizes.{blocks_of};
ghost use Rattle.core_model.specs.View.{of_class};
ghost use Rattle.heap_rule.specs.Seated.{IsSeatOf};
ghost use Rattle.seat_costs.specs.Asked.{HasAsked};
ghost use Rattle.seat_costs.specs.Costs.{no_costs, one_win};
ghost use Rattle.seat_costs.specs.Idle.{IsIdle};
ghost use Rattle.seat_costs.specs.Rows.{Row, Stops};
ghost use Rattle.cache_fill.specs.Refills.{FillsFrom, Finds, HasSeenEmpty, IsFilledInOrder, KeepsClassLooks, Refills, TriesFrom};

use crate::cuts::cut;
use crate::takes::take_free_blocks;
use heap_rule::{Seat, Shared};
use heap_seat::Looks;
use large_block::{Take, take_fresh};
use line_memory::{Chance, Stopped};
use size_table::SizeClass;
use superblock_lists::Pop;

/// What the filling of an empty cache gives.
#[derive(Clone, Copy, Debug, PartialEq, Eq)]
pub enum Filling {
    /// There are blocks in the cache.
    Filled,
    /// There is no superblock to take blocks from: so these last looks said.
    Full(Looks),
}

/// What the list of a class gives to an empty cache.
#[derive(Clone, Copy)]
enum FromClass {
    /// There are blocks in the cache.
    Filled,
    /// The list was empty, as its head said.
    Empty { head: u64 },
}

/// Where a superblock without a class comes from.
#[derive(Clone, Copy)]
enum Found {
    /// The list of the free ones, or the mark.
    Got(u64),
    /// That list was empty, and the mark left no room.
    Nothing { free_head: u64, used: u64 },
}

/// Takes the free blocks of the first superblock in the list of the class. None where all of its
/// blocks are free: it goes to the list of the free ones.
fn try_fill_from_class<C: Chance>(
    seat: &mut Seat,
    shared: &Shared,
    class: SizeClass,
    chance: &mut C,
) -> Result<Option<FromClass>, Stopped>
    requires seat { IsSeatOf shared.now seat.old }
    requires uncached { of_class seat.old.view.caches class.number ≡ [] }
    ensures done { IfOk result (λ from. TriesFrom class.number from
        seat.old.view seat.new.view) }
    ensures stopped { IfErr result (λ e. Stops e.step seat.old.view seat.new.view) }
    ensures row { Row (record no_costs {
      draws = 7;
      wins = 2;
      moves = seat.new.view.moves - seat.old.view.moves;
    }) seat.old seat.new }
    ensures asked { HasAsked C.draw_gives seat.old.view seat.new.view chance.old chance.new }
    ensures seat { IsSeatOf shared.now seat.new }
{
    let pop = partial_list::pop(seat, shared, class, chance)?;
    seat.recall_soundness();
    match pop {
        Pop::Got(d) => {
            if take_free_blocks(seat, shared, d, class, chance)? {
                return Ok(Some(FromClass::Filled));
            }
            seat.recall_soundness();
            free_list::push(seat, shared, d, chance)?;
            Ok(None)
        }
        Pop::Empty { head } => Ok(Some(FromClass::Empty { head })),
    }
}

/// Takes the free blocks of a superblock in the list of the class, if there is one that has some
/// and some that are not.
fn fill_from_class<C: Chance>(
    seat: &mut Seat,
    shared: &Shared,
    class: SizeClass,
    chance: &mut C,
) -> Result<FromClass, Stopped>
    requires seat { IsSeatOf shared.now seat.old }
    requires uncached { of_class seat.old.view.caches class.number ≡ [] }
    ensures done { IfOk result (λ from. FillsFrom class.number from
        seat.old.view seat.new.view) }
    ensures stopped { IfErr result (λ e. Stops e.step seat.old.view seat.new.view) }
    ensures row { Row (record no_costs {
      draws = 7;
      wins = 2;
      moves = seat.new.view.moves - seat.old.view.moves;
    }) seat.old seat.new }
    ensures asked { HasAsked C.draw_gives seat.old.view seat.new.view chance.old chance.new }
    ensures seat { IsSeatOf shared.now seat.new }
{
    loop {
        if let Some(from) = try_fill_from_class(seat, shared, class, chance)? {
            return Ok(from);
        }
    }
}

/// Claims a superblock without a class: one that is free, or one that was never taken.
fn find_superblock<C: Chance>(
    seat: &mut Seat,
    shared: &Shared,
    chance: &mut C,
) -> Result<Found, Stopped>
    requires seat { IsSeatOf shared.now seat.old }
    requires idle { seat.old.view.raw ≡ [] }
    ensures done { IfOk result (λ found. Finds found seat.old.view seat.new.view) }
    ensures fresh { IfOk result (λ _. seat.old.view.taken < seat.new.view.taken
        → HasSeenEmpty 0 seat.old.view seat.new.view) }
    ensures others { IfOk result (λ _. KeepsClassLooks seat.old.view seat.new.view) }
    ensures stopped { IfErr result (λ e. Stops e.step seat.old.view seat.new.view) }
    ensures row { Row (record one_win { draws = 6; taken = 1 }) seat.old seat.new }
    ensures asked { HasAsked C.draw_gives seat.old.view seat.new.view chance.old chance.new }
    ensures seat { IsSeatOf shared.now seat.new }
{
    let free_head = match free_list::pop(seat, shared, chance)? {
        Pop::Got(d) => return Ok(Found::Got(d)),
        Pop::Empty { head } => head,
    };
    let take = take_fresh(seat, shared, 1, chance)?;
    seat.recall_soundness();
    match take {
        Take::Got(d) => Ok(Found::Got(d)),
        Take::Past { used } => Ok(Found::Nothing { free_head, used }),
    }
}

/// Fills the empty cache of a class: with the free blocks of a superblock of the class that has
/// some, or else with all blocks of one that was free or never taken. Where there is none of these,
/// the last looks are told that said so.
///
/// Superblocks of the class's list all of whose blocks are free go to the list of the free ones on
/// the way. A seat that stops may have a claimed superblock that no later call gives back.
pub fn refill<C: Chance>(
    seat: &mut Seat,
    shared: &Shared,
    class: SizeClass,
    chance: &mut C,
) -> Result<Filling, Stopped>
    requires seat { IsSeatOf shared.now seat.old }
    requires uncached { of_class seat.old.view.caches class.number ≡ [] }
    requires idle { IsIdle seat.old.view }
    ensures done { IfOk result (λ filling. Refills class.number filling
        seat.old.view seat.new.view) }
    ensures order { IfOk result (λ _. IsFilledInOrder class.number
        seat.old.view seat.new.view) }
    ensures light { IfOk result (λ _. seat.new.view.cuts ≡ seat.old.view.cuts
        → Row (record no_costs {
          draws = 9;
          wins = 2;
          moves = seat.new.view.moves - seat.old.view.moves;
        }) seat.old seat.new) }
    ensures stopped { IfErr result (λ e. Stops e.step seat.old.view seat.new.view) }
    ensures row { Row (record no_costs {
      draws = blocks_of class.number + 11;
      wins = 2;
      cuts = 1;
      taken = 1;
      moves = seat.new.view.moves - seat.old.view.moves;
    }) seat.old seat.new }
    ensures asked { HasAsked C.draw_gives seat.old.view seat.new.view chance.old chance.new }
    ensures seat { IsSeatOf shared.now seat.new }
{
    let class_head = match fill_from_class(seat, shared, class, chance)? {
        FromClass::Filled => return Ok(Filling::Filled),
        FromClass::Empty { head } => head,
    };
    match find_superblock(seat, shared, chance)? {
        Found::Got(d) => {
            cut(seat, shared, d, class, chance)?;
            Ok(Filling::Filled)
        }
        Found::Nothing { free_head, used } => Ok(Filling::Full(Looks {
            class_head,
            free_head,
            used,
        })),
    }
}
