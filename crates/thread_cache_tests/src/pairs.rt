//! Two seats of a heap that act by turns, in one thread. Blocks that are held at the opening are
//! theirs in turn.

ghost use Rattle.std.specs.Prelude.{All, IfOk, OnOk};
ghost use Rattle.seat_model.specs.CacheState.{heap_view};
ghost use Rattle.thread_cache_tests.specs.Holding.{HasBlocksOf, HaveBlocks, Holds, IsFreshSeatOf};

use crate::fixtures::{MANY, last_seat, open, recovered};
use crate::flushing::trade_all;
use crate::holders::{Halt, add_held};
use crate::order::Turn;
use crate::scripts::{Act, Dealt, act_of, perform};
use crate::walking::walk_and_end;
use heap_rule::{Seat, Shared};
use std::alloc::{AllocError, Global};
use std::test::Fail;
use super_block::Block;
use thread_cache::CacheSeat;

/// A seat of two, with the blocks that it was given.
#[derive(Drop)]
pub struct Holder<'a> {
    pub seat: CacheSeat<'a, Turn<'a>>,
    pub given: Vec<Block>,
}

/// What two seats do.
#[derive(Clone, Copy)]
pub enum Part<'a> {
    /// Acts in lines, behind `a` or `b`.
    Acts(&'a str),
    /// They trade blocks in each order.
    Orders,
    /// They walk at random, from this seed.
    Walk(u64),
}

/// Which of the blocks that were held at the opening belong to the seat of this number, of two.
fn own_blocks(
    alloc: Global,
    seat: &CacheSeat<'_, Turn<'_>>,
    held: &[Block],
    number: usize,
) -> Result<Vec<Block>, AllocError>
    requires { HasBlocksOf number 2 held.now seat.now.state.view }
    ensures { IfOk result (λ given. Holds (heap_view seat.now.state).held given.items) }
{
    let mut given = Vec::new(alloc);
    for (index, b) in held.iter().enumerate() {
        if index % 2 == number {
            add_held(seat, &mut given, *b)?;
        }
    }
    Ok(given)
}

/// The last one of the seats, with its blocks, whose chance gives this number.
fn last_holder<'a>(
    alloc: Global,
    shared: &'a Shared,
    seats: &mut Vec<Seat>,
    held: &[Block],
    drawn: u64,
) -> Result<Holder<'a>, Fail>
    requires fresh { All (IsFreshSeatOf shared.now) seats.old.items }
    requires blocks { HaveBlocks 2 held.now seats.old.items }
    ensures fresh { OnOk result (All (IsFreshSeatOf shared.now) seats.new.items) }
    ensures blocks { OnOk result (HaveBlocks 2 held.now seats.new.items) }
    ensures holds { IfOk result (λ h. Holds (heap_view h.seat.state).held h.given.items) }
{
    let Some(seat) = last_seat(shared, seats) else {
        return Err("no seat".into());
    };
    let seat = CacheSeat::new(shared, seat, Turn::new(None, true, drawn));
    let number = seats.len();
    let given = own_blocks(alloc, &seat, held, number)?;
    Ok(Holder { seat, given })
}

/// What a line tells: whether it is the first seat's, and the act.
fn line_of(line: &str) -> Option<(bool, Act)> {
    let (who, told) = line.split_once(' ').unwrap_or(("", line));
    let act = act_of(told)?;
    match who {
        "a" => Some((true, act)),
        "b" => Some((false, act)),
        _ => None,
    }
}

/// A seat does what it is told, and has no root.
fn perform_rootless(who: &mut Holder<'_>, act: Act) -> Result<(), Halt>
    requires { Holds (heap_view who.old.seat.state).held who.old.given.items }
    ensures { OnOk result (Holds (heap_view who.new.seat.state).held who.new.given.items) }
{
    let dealt = Dealt {
        number: 0,
        roots: &[],
    };
    perform(&mut who.seat, &mut who.given, dealt, act)
}

/// Two seats do what the lines tell, in their order.
pub fn play(a: &mut Holder<'_>, b: &mut Holder<'_>, lines: &str) -> Result<(), Halt>
    requires a { Holds (heap_view a.old.seat.state).held a.old.given.items }
    requires b { Holds (heap_view b.old.seat.state).held b.old.given.items }
{
    for line in lines.split('\n') {
        let Some((is_first, act)) = line_of(line) else {
            return Err(Halt::NoSuchAct);
        };
        if is_first {
            perform_rootless(a, act)?;
        } else {
            perform_rootless(b, act)?;
        }
    }
    Ok(())
}

/// Two seats do their part.
fn play_part(a: &mut Holder<'_>, b: &mut Holder<'_>, part: Part<'_>) -> Result<(), Fail>
    requires a { Holds (heap_view a.old.seat.state).held a.old.given.items }
    requires b { Holds (heap_view b.old.seat.state).held b.old.given.items }
{
    match part {
        Part::Acts(lines) => Ok(play(a, b, lines)?),
        Part::Orders => trade_all(a, b),
        Part::Walk(seed) => walk_and_end(a, b, seed),
    }
}

/// The two seats, which have these blocks in turn, do their part.
fn play_with(
    alloc: Global,
    shared: &Shared,
    mut seats: Vec<Seat>,
    held: &[Block],
    part: Part<'_>,
) -> Result<(), Fail>
    requires fresh { All (IsFreshSeatOf shared.now) seats.items }
    requires blocks { HaveBlocks 2 held.now seats.items }
{
    let mut b = last_holder(alloc, shared, &mut seats, held, 0)?;
    let mut a = last_holder(alloc, shared, &mut seats, held, 1)?;
    play_part(&mut a, &mut b, part)
}

/// The two seats of what recovery makes of an image of so many superblocks, with these words, do
/// their part.
pub fn play_over(alloc: Global, capacity: u64, words: &str, part: Part<'_>) -> Result<(), Fail> {
    let heap = recovered(alloc, capacity, words)?;
    let held = Vec::from_slice(alloc, heap.held())?;
    let (shared, seats) = open(alloc, heap, 2, MANY)?;
    play_with(alloc, &shared, seats, &held, part)
}

/// The two seats of an empty heap of so many superblocks do their part.
pub fn play_pair(alloc: Global, capacity: u64, part: Part<'_>) -> Result<(), Fail> {
    play_over(alloc, capacity, "", part)
}
