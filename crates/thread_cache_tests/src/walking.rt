//! A walk of two seats by turns, with blocks of random classes.

ghost use Rattle.std.specs.Prelude.{OnOk};
ghost use Rattle.seat_model.specs.CacheState.{heap_view};
ghost use Rattle.thread_cache_tests.specs.Holding.{Holds};

use crate::apart::last_is_apart;
use crate::dice::Dice;
use crate::holders::{Halt, give_back_last};
use crate::pairs::{Holder, Part, play, play_pair};
use crate::rolling::{quiet, roll};
use std::test::Fail;

/// How many steps the walk has.
const STEPS: u64 = 3_000;

/// A seat takes a step. The last block that it has is apart from all others.
fn step(who: &mut Holder<'_>, other: &Holder<'_>, number: u64, dice: &mut Dice) -> Result<(), Halt>
    requires { Holds (heap_view who.old.seat.state).held who.old.given.items }
    ensures { OnOk result (Holds (heap_view who.new.seat.state).held who.new.given.items) }
{
    roll(&mut who.seat, &mut who.given, dice, number)?;
    if !last_is_apart(&who.given, &other.given) {
        return Err(Halt::Twice);
    }
    Ok(())
}

/// Two seats go by turns.
fn walk(a: &mut Holder<'_>, b: &mut Holder<'_>, seed: u64) -> Result<(), Halt>
    requires a { Holds (heap_view a.old.seat.state).held a.old.given.items }
    requires b { Holds (heap_view b.old.seat.state).held b.old.given.items }
    ensures a { OnOk result (Holds (heap_view a.new.seat.state).held a.new.given.items) }
    ensures b { OnOk result (Holds (heap_view b.new.seat.state).held b.new.given.items) }
{
    let mut dice = Dice::new(seed);
    for _step in 0..STEPS {
        step(a, b, 1, &mut dice)?;
        step(b, a, 2, &mut dice)?;
    }
    Ok(())
}

/// A seat frees all its blocks, and its caches are emptied.
fn end(who: &mut Holder<'_>) -> Result<(), Halt>
    requires { Holds (heap_view who.old.seat.state).held who.old.given.items }
    ensures { OnOk result (Holds (heap_view who.new.seat.state).held who.new.given.items) }
{
    let count = who.given.len() as u64;
    give_back_last(&mut who.seat, &mut who.given, count)?;
    quiet(&mut who.seat)
}

/// All four superblocks were taken. One whose blocks are all free may be in the list of its class
/// still, which the next request of that class finds out. Then each serves any class.
const AFTER: &str = "a full 262144 4
a take 1024 1
a free 1
a take 1536 1
a free 1
a take 2048 1
a free 1
a take 3072 1
a free 1
a take 4096 1
a free 1
a take 6144 1
a free 1
a take 8192 1
a free 1
a take 12288 1
a free 1
a take 14336 1
a free 1
a take 14336 16
b full 14336 4
a full 262144 4";

/// A walk with these dice over an empty heap, and what the heap has then.
pub fn walk_and_end(a: &mut Holder<'_>, b: &mut Holder<'_>, seed: u64) -> Result<(), Fail>
    requires a { Holds (heap_view a.old.seat.state).held a.old.given.items }
    requires b { Holds (heap_view b.old.seat.state).held b.old.given.items }
{
    walk(a, b, seed)?;
    end(a)?;
    end(b)?;
    Ok(play(a, b, AFTER)?)
}

#[test]
fn two_seats_share_no_block(rt: HostRuntime) -> Result<(), Fail> {
    for seed in 1..=4 {
        play_pair(rt.alloc(), 4, Part::Walk(seed))?;
    }
    Ok(())
}
