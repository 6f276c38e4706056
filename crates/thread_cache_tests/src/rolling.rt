//! Random acts of a seat: it frees a block, asks for one, or empties its caches.

ghost use Rattle.std.specs.Prelude.{◌≡◌, ◌<◌, Contains, OnOk, length};
ghost use Rattle.seat_model.specs.CacheState.{heap_view};
ghost use Rattle.thread_cache.specs.Keeps.{KeepsSeat};
ghost use Rattle.thread_cache_tests.specs.Holding.{anything, Holds};

use crate::dice::Dice;
use crate::holders::{Halt, give_back, take};
use crate::order::Turn;
use heap_seat::{HeapSeat, Spot};
use super_block::Block;
use thread_cache::CacheSeat;

/// The most blocks that a seat holds by these: it has as many roots.
const MOST: u64 = 8;

/// Stores the seat's number to the first word of its block.
fn mark<H: HeapSeat>(seat: &mut H, b: Block, number: u64) -> Result<(), Halt>
    requires { Contains (H.view seat.old).held b }
    ensures held { OnOk result ((H.view seat.new).held ≡ (H.view seat.old).held) }
    ensures kept { H.keeps seat.old seat.new }
{
    if b.words == 0 {
        return Err(Halt::NoBlock);
    }
    seat.store(Spot::InBlock(b, 0), number)?;
    Ok(())
}

/// The same of its last block, if it has one.
fn mark_last<H: HeapSeat>(seat: &mut H, given: &[Block], number: u64) -> Result<(), Halt>
    requires { Holds (H.view seat.old).held given.now }
    ensures held { OnOk result ((H.view seat.new).held ≡ (H.view seat.old).held) }
    ensures kept { H.keeps seat.old seat.new }
{
    match given.last() {
        Some(b) => mark(seat, *b, number),
        None => Ok(()),
    }
}

/// The number must be there still.
fn must_be_marked<H: HeapSeat>(seat: &mut H, b: Block, number: u64) -> Result<(), Halt>
    requires { Contains (H.view seat.old).held b }
    ensures held { OnOk result ((H.view seat.new).held ≡ (H.view seat.old).held) }
    ensures kept { H.keeps seat.old seat.new }
{
    if b.words == 0 {
        return Err(Halt::NoBlock);
    }
    if seat.load(Spot::InBlock(b, 0))? != number {
        return Err(Halt::Overwritten);
    }
    Ok(())
}

/// Frees one of the blocks, which has its number still.
fn give_back_marked<H: HeapSeat>(
    seat: &mut H,
    given: &mut Vec<Block>,
    index: usize,
    number: u64,
) -> Result<(), Halt>
    requires holds { Holds (H.view seat.old).held given.old.items }
    requires some { index < length given.old.items }
    ensures holds { OnOk result (Holds (H.view seat.new).held given.new.items) }
    ensures kept { H.keeps seat.old seat.new }
{
    must_be_marked(seat, given[index], number)?;
    give_back(seat, given, index)
}

/// Asks for so many bytes, and marks the block if it is given.
fn take_and_mark<H: HeapSeat>(
    seat: &mut H,
    given: &mut Vec<Block>,
    bytes: u64,
    number: u64,
) -> Result<(), Halt>
    requires { Holds (H.view seat.old).held given.old.items }
    ensures holds { OnOk result (Holds (H.view seat.new).held given.new.items) }
    ensures kept { H.keeps seat.old seat.new }
{
    match take(seat, given, bytes) {
        Ok(()) => mark_last(seat, given, number),
        Err(Halt::Refused(_)) => Ok(()),
        Err(halt) => Err(halt),
    }
}

/// A seat frees one of its blocks, or asks for one.
fn act<H: HeapSeat>(
    seat: &mut H,
    given: &mut Vec<Block>,
    dice: &mut Dice,
    number: u64,
) -> Result<(), Halt>
    requires { Holds (H.view seat.old).held given.old.items }
    ensures holds { OnOk result (Holds (H.view seat.new).held given.new.items) }
    ensures kept { H.keeps seat.old seat.new }
{
    let drawn = dice.below(MOST) as usize;
    if drawn < given.len() {
        give_back_marked(seat, given, drawn, number)
    } else {
        take_and_mark(seat, given, dice.size(), number)
    }
}

/// A seat's caches are emptied.
pub fn quiet(seat: &mut CacheSeat<'_, Turn<'_>>) -> Result<(), Halt>
    ensures held { (heap_view seat.new.state).held ≡ (heap_view seat.old.state).held }
    ensures kept { KeepsSeat anything seat.old seat.new }
{
    Ok(seat.quiet()?)
}

/// The same, or its caches are emptied.
pub fn roll(
    seat: &mut CacheSeat<'_, Turn<'_>>,
    given: &mut Vec<Block>,
    dice: &mut Dice,
    number: u64,
) -> Result<(), Halt>
    requires { Holds (heap_view seat.old.state).held given.old.items }
    ensures holds { OnOk result (Holds (heap_view seat.new.state).held given.new.items) }
    ensures kept { KeepsSeat anything seat.old seat.new }
{
    if dice.below(16) == 0 {
        quiet(seat)
    } else {
        act(seat, given, dice, number)
    }
}

/// So many of these, which follow from the seat's number.
pub fn roll_often(
    seat: &mut CacheSeat<'_, Turn<'_>>,
    given: &mut Vec<Block>,
    number: u64,
    count: u64,
) -> Result<(), Halt>
    requires { Holds (heap_view seat.old.state).held given.old.items }
    ensures holds { OnOk result (Holds (heap_view seat.new.state).held given.new.items) }
    ensures kept { KeepsSeat anything seat.old seat.new }
{
    let mut dice = Dice::new(number);
    for _turn in 0..count {
        roll(seat, given, &mut dice, number)?;
    }
    Ok(())
}
