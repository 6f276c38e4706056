//! Blocks that a seat offers to a carrier: what it answers, and what a crash leaves of one.

use crate::cores::{DRAW, held_after_a_crash, must_take, opened, take};
use crate::fixtures::{MANY, must_hold, recovered};
use crate::schedules::parse;
use crash_core::{Core, Event, StepAnswer};
use std::process::Abort;
use std::test::Fail;
use super_block::Block;
use test_images::number;

/// An image whose superblock 0 of two is free.
pub const ONE_FREE: &str = "used 1";

/// Seat 0 holds superblock 1 as a large block, and the first of four blocks of superblock 0; it has
/// no ticket in hand.
const HOLDS_TWO: &str = "0 tick, 0 look-used, 0 take 1, 0 keep, 0 store info:1 511, \
    0 settle info:1, 0 large 1 1, 0 head 0, 0 link, 0 pop, 0 store info:0 20, 0 settle info:0, \
    0 store anchor:0 2, 0 store 1080 2872, 0 store 2872 4664, 0 store 4664 6456, 0 cut 0, \
    0 alloc 20, 0 look-used";

/// Offers one after another: the seat, whether it draws a ticket before, the block and the answer.
const OFFERS: [(usize, bool, u64, StepAnswer); 8] = [
    (0, false, 1_080, StepAnswer::NotNow),
    (1, true, 1_080, StepAnswer::NotNow),
    (0, true, 2_872, StepAnswer::NotNow),
    (0, false, 9_273, StepAnswer::NotNow),
    (0, false, 1_080, StepAnswer::Done),
    (0, false, 9_272, StepAnswer::NotNow),
    (0, true, 1_080, StepAnswer::NotNow),
    (0, false, 9_272, StepAnswer::Done),
];

/// Takes all steps of seat 0.
pub fn hold_two(rt: &impl Abort, core: &mut Core) -> Result<(), Fail> {
    for line in HOLDS_TWO.split(", ") {
        must_take(rt, core, parse(line)?, line)?;
    }
    Ok(())
}

/// Offers a block, with a ticket that the seat draws for it where it is to.
pub fn offer(core: &mut Core, seat: usize, draws: bool, block: u64) -> Result<StepAnswer, Fail> {
    if draws {
        take(core, seat, DRAW)?;
    }
    if seat >= core.seats() {
        return Err("no such seat".into());
    }
    core.reserve(1)?;
    Ok(core.offer(seat, block))
}

#[test]
fn a_seat_offers_what_it_holds(rt: HostRuntime) -> Result<(), Fail> {
    let alloc = rt.alloc();
    let heap = recovered(alloc, 2, ONE_FREE)?;
    let mut core = opened(alloc, &heap, 2, MANY)?;
    hold_two(&rt, &mut core)?;
    for (seat, draws, block, answer) in OFFERS {
        assert!(rt; offer(&mut core, seat, draws, block)? == answer);
    }
    Ok(())
}

#[test]
fn a_crash_frees_what_no_root_meets(rt: HostRuntime) -> Result<(), Fail> {
    let alloc = rt.alloc();
    let heap = recovered(alloc, 2, ONE_FREE)?;
    let mut core = opened(alloc, &heap, 2, MANY)?;
    hold_two(&rt, &mut core)?;
    assert!(rt; offer(&mut core, 0, true, 1_080)? == StepAnswer::Done);
    assert!(rt; held_after_a_crash(alloc, &core)?.is_empty());
    let word = number("root:8")?;
    let value = number("@2872")?;
    must_take(&rt, &mut core, parse("0 alloc 20")?, "a second block")?;
    must_take(
        &rt,
        &mut core,
        (0, Event::Store { word, value }),
        "the store",
    )?;
    must_take(
        &rt,
        &mut core,
        (0, Event::Settle { word }),
        "the write-back",
    )?;
    assert!(rt; offer(&mut core, 0, true, 2_872)? == StepAnswer::Done);
    let held = Block {
        first_word: 2_872,
        words: 1_792,
    };
    let found = held_after_a_crash(alloc, &core)?;
    must_hold(&rt, found.as_slice() == [held].as_slice(), "it is held");
    Ok(())
}

#[test]
fn a_seat_that_has_stopped_offers_nothing(rt: HostRuntime) -> Result<(), Fail> {
    let alloc = rt.alloc();
    let heap = recovered(alloc, 2, ONE_FREE)?;
    let mut core = opened(alloc, &heap, 2, 0)?;
    let stopped = StepAnswer::Stopped { step: 0 };
    assert!(rt; take(&mut core, 1, DRAW)? == stopped);
    assert!(rt; offer(&mut core, 1, false, 1_080)? == stopped);
    Ok(())
}
