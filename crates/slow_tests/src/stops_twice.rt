//! A recovery of an image of one superblock of the last class, in which two blocks are held,
//! stopped at each of its steps; the recovery of what each stop left, stopped at each of its steps;
//! and the recovery of what that left.
use crate::calls::must_hold;
use crate::in_place::in_place;
use line_memory::ConstantChance;
use recovery_tests::{HELD, WORDS, holds, image, torn};
use std::process::Abort;
use std::test::Fail;

/// Recovers what a second crash left to its end.
fn is_recovered(
    rt: &(impl Abort + AllocGlobal),
    crashed: &[u64],
    chance: ConstantChance,
) -> Result<(), Fail> {
    let third = in_place(rt.alloc(), crashed, u64::MAX, chance)?;
    must_hold(
        rt,
        holds(&third.found, &HELD, &WORDS),
        "the blocks at the end",
    );
    must_hold(rt, !third.stopped, "it is done");
    Ok(())
}

/// Stops the recovery of what a crash left at this step, and makes that of what the stop left. The
/// answer is whether there was no stop.
fn stops_again_at(
    rt: &(impl Abort + AllocGlobal),
    crashed: &[u64],
    budget: u64,
    chance: ConstantChance,
) -> Result<bool, Fail> {
    let second = in_place(rt.alloc(), crashed, budget, chance)?;
    must_hold(
        rt,
        holds(&second.found, &HELD, &WORDS),
        "the blocks at the second stop",
    );
    let is_done = !second.stopped;
    is_recovered(rt, &torn(second.kept, 1), chance)?;
    Ok(is_done)
}

/// Stops the recovery of what a crash left at each step until it is done.
fn stops_again(
    rt: &(impl Abort + AllocGlobal),
    crashed: &[u64],
    chance: ConstantChance,
) -> Result<(), Fail> {
    for budget in 0..1_000u64 {
        if stops_again_at(rt, crashed, budget, chance)? {
            must_hold(rt, 9 < budget, "it takes steps");
            return Ok(());
        }
    }
    Err("it is never done".into())
}

/// Stops the recovery at this step, and that of what the stop left at each of its steps. The answer
/// is whether there was no stop.
fn stops_at(
    rt: &(impl Abort + AllocGlobal),
    image: &[u64],
    budget: u64,
    chance: ConstantChance,
) -> Result<bool, Fail> {
    let first = in_place(rt.alloc(), image, budget, chance)?;
    must_hold(
        rt,
        holds(&first.found, &HELD, &WORDS),
        "the blocks at the first stop",
    );
    let is_done = !first.stopped;
    stops_again(rt, &torn(first.kept, 1), chance)?;
    Ok(is_done)
}

/// Stops the recovery at each step until it is done.
fn stops_at_each_step(rt: &(impl Abort + AllocGlobal), chance: ConstantChance) -> Result<(), Fail> {
    let image = image(rt.alloc())?;
    for budget in 0..100u64 {
        if stops_at(rt, &image, budget, chance)? {
            // The four words that differ stand in four lines.
            must_hold(rt, budget == 9, "it takes nine steps");
            return Ok(());
        }
    }
    Err("it is never done".into())
}

#[test]
fn what_each_stop_left_may_be_stopped_at_each_step(rt: HostRuntime) -> Result<(), Fail> {
    stops_at_each_step(&rt, ConstantChance(0))?;
    stops_at_each_step(&rt, ConstantChance(1))
}
