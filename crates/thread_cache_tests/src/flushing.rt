//! A cache is flushed whose blocks are of several superblocks, in each order in which they can be
//! freed: other seats then find each of them.

ghost use Rattle.std.specs.Prelude.{OnOk};
ghost use Rattle.seat_model.specs.CacheState.{heap_view};
ghost use Rattle.thread_cache_tests.specs.Holding.{Holds};

use crate::holders::{Halt, give_back, give_back_last, take_all};
use crate::pairs::{Holder, Part, play_pair};
use std::test::Fail;
use super_block::Block;

/// A class with four blocks in a superblock.
const BYTES: u64 = 14_336;

/// How many blocks a superblock has, and how many superblocks the heap has.
const FOUR: u64 = 4;

/// The words of a superblock, and where the first one begins.
const WORDS: u64 = 8_192;

const FIRST_WORD: u64 = 1_064 + 8 * FOUR;

/// The first of the blocks that lies in a superblock, or none.
fn index_in(given: &[Block], d: u64) -> usize {
    let start = FIRST_WORD.wrapping_add(WORDS.wrapping_mul(d));
    given
        .iter()
        .position(|b| b.first_word.wrapping_sub(start) < WORDS)
        .unwrap_or(given.len())
}

/// Frees four blocks, each of the superblock that a digit of the number in base 4 tells.
fn free_in_order(who: &mut Holder<'_>, order: u64) -> Result<(), Halt>
    requires { Holds (heap_view who.old.seat.state).held who.old.given.items }
    ensures { OnOk result (Holds (heap_view who.new.seat.state).held who.new.given.items) }
{
    let mut rest = order;
    for _nth in 0..FOUR {
        let index = index_in(&who.given, rest % FOUR);
        give_back(&mut who.seat, &mut who.given, index)?;
        rest /= FOUR;
    }
    Ok(())
}

/// A seat takes so many blocks.
fn take_blocks(who: &mut Holder<'_>, count: u64) -> Result<(), Halt>
    requires { Holds (heap_view who.old.seat.state).held who.old.given.items }
    ensures { OnOk result (Holds (heap_view who.new.seat.state).held who.new.given.items) }
{
    take_all(&mut who.seat, &mut who.given, BYTES, count)
}

/// One seat has all sixteen blocks, and frees four in this order. The other one takes these, and
/// frees them: then the first one has all again.
fn trade(a: &mut Holder<'_>, b: &mut Holder<'_>, order: u64) -> Result<(), Halt>
    requires a { Holds (heap_view a.old.seat.state).held a.old.given.items }
    requires b { Holds (heap_view b.old.seat.state).held b.old.given.items }
    ensures a { OnOk result (Holds (heap_view a.new.seat.state).held a.new.given.items) }
    ensures b { OnOk result (Holds (heap_view b.new.seat.state).held b.new.given.items) }
{
    free_in_order(a, order)?;
    take_blocks(b, FOUR)?;
    give_back_last(&mut b.seat, &mut b.given, FOUR)?;
    take_blocks(a, FOUR)
}

/// Trades in each order. The first seat has all blocks then.
pub fn trade_all(a: &mut Holder<'_>, b: &mut Holder<'_>) -> Result<(), Fail>
    requires a { Holds (heap_view a.old.seat.state).held a.old.given.items }
    requires b { Holds (heap_view b.old.seat.state).held b.old.given.items }
{
    take_blocks(a, 16)?;
    for order in 0..256 {
        trade(a, b, order)?;
    }
    if a.given.len() != 16 {
        return Err("a block is lost".into());
    }
    Ok(())
}

#[test]
fn a_cache_is_flushed_in_every_order(rt: HostRuntime) -> Result<(), Fail> {
    play_pair(rt.alloc(), FOUR, Part::Orders)
}
