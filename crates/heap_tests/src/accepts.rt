//! Blocks that a seat accepts of a carrier: what it answers, and whose the block is then.

use crate::cores::{DRAW, opened, take, take_drawn};
use crate::fixtures::{MANY, must_hold, recovered};
use crate::offers::{ONE_FREE, hold_two, offer};
use crate::schedules::parse;
use crash_core::{Core, StepAnswer};
use std::process::Abort;
use std::test::Fail;
use test_images::number;

/// Steps behind those of `hold_two`, each with a ticket of its own; one that is not done has ` !`
/// behind it. The carriers of two seats have the numbers from 2 on. The small block goes to the
/// other seat, and by way of a carrier back to the same; the large one goes there and back.
const HANDED: &str = "0 accept 2 !, 0 offer 1080, 0 store 1081 7 !, 1 store 1081 7 !, \
    1 accept 0 !, 1 accept 1 !, 1 accept 3 !, 1 accept 2, 1 store 1081 7, 0 store 1081 8 !, \
    1 accept 2 !, 0 accept 2 !, 1 offer 1080, 1 accept 3, 1 store 1081 9, 0 offer 9272, \
    0 store 9273 7 !, 1 accept 4, 1 store 9273 7, 0 store 9273 8 !, 0 split 9272 !, 0 accept 4 !, \
    1 offer 9272, 0 accept 5, 0 split 9272, 1 accept 5 !";

/// Accepts what a carrier has, with a ticket that the seat draws for it where it is to.
fn accept(core: &mut Core, seat: usize, draws: bool, carrier: usize) -> Result<StepAnswer, Fail> {
    if draws {
        take(core, seat, DRAW)?;
    }
    if seat >= core.seats() {
        return Err("no such seat".into());
    }
    core.reserve(1)?;
    Ok(core.accept(seat, carrier))
}

/// Tries an offer, an accept or an event, as the text tells.
fn try_step(core: &mut Core, told: &str) -> Result<StepAnswer, Fail> {
    let (seat, step) = told.split_once(' ').ok_or("no step")?;
    let by = number(seat)? as usize;
    if let Some(block) = step.strip_prefix("offer ") {
        return offer(core, by, true, number(block)?);
    }
    if let Some(carrier) = step.strip_prefix("accept ") {
        return accept(core, by, true, number(carrier)? as usize);
    }
    let (seat, event) = parse(told)?;
    take_drawn(core, seat, event)
}

#[test]
fn a_block_goes_to_the_seat_that_accepts_it(rt: HostRuntime) -> Result<(), Fail> {
    let alloc = rt.alloc();
    let heap = recovered(alloc, 2, ONE_FREE)?;
    let mut core = opened(alloc, &heap, 2, MANY)?;
    hold_two(&rt, &mut core)?;
    for told in HANDED.split(", ") {
        let (step, wanted) = match told.strip_suffix(" !") {
            Some(step) => (step, StepAnswer::NotNow),
            None => (told, StepAnswer::Done),
        };
        must_hold(&rt, try_step(&mut core, step)? == wanted, told);
    }
    Ok(())
}

#[test]
fn an_accept_uses_a_ticket_up(rt: HostRuntime) -> Result<(), Fail> {
    let alloc = rt.alloc();
    let heap = recovered(alloc, 2, ONE_FREE)?;
    let mut core = opened(alloc, &heap, 2, MANY)?;
    hold_two(&rt, &mut core)?;
    assert!(rt; offer(&mut core, 0, true, 1_080)? == StepAnswer::Done);
    assert!(rt; offer(&mut core, 0, true, 9_272)? == StepAnswer::Done);
    assert!(rt; accept(&mut core, 1, false, 2)? == StepAnswer::NotNow);
    assert!(rt; accept(&mut core, 1, true, 2)? == StepAnswer::Done);
    assert!(rt; accept(&mut core, 1, false, 3)? == StepAnswer::NotNow);
    Ok(())
}

#[test]
fn a_seat_that_has_stopped_accepts_nothing(rt: HostRuntime) -> Result<(), Fail> {
    let alloc = rt.alloc();
    let heap = recovered(alloc, 2, ONE_FREE)?;
    let mut core = opened(alloc, &heap, 2, 0)?;
    let stopped = StepAnswer::Stopped { step: 0 };
    assert!(rt; take(&mut core, 1, DRAW)? == stopped);
    assert!(rt; accept(&mut core, 1, false, 2)? == stopped);
    Ok(())
}
