//! Recovery made in place, stopped at each step, and recovery of what that leaves, stopped again
//! at a few. (The crate slow_tests takes every step of the second too.)
use crate::asserts::must_hold;
use crate::in_place::{InPlace, holds, recover_in_place, torn};
use crate::pairs::{Pairs, kinds};
use crate::two_blocks::{HELD, WORDS, image};
use heap_recover::Recovered;
use line_memory::ConstantChance;
use std::alloc::Global;
use std::process::Abort;
use std::test::Fail;

/// Recovers the image in place with so many steps, as one of pairs.
fn in_place(alloc: Global, image: &[u64], budget: u64, number: u64) -> Result<InPlace, Fail> {
    let kinds = kinds(alloc)?;
    recover_in_place(alloc, image, &kinds, &Pairs, budget, ConstantChance(number))
}

/// Whether the heap holds the two blocks, with their words.
fn holds_both(found: &Recovered) -> bool {
    holds(found, &HELD, &WORDS)
}

/// What a crash leaves of a recovery in place.
fn crashed(left: InPlace) -> Vec<u64> {
    torn(left.kept, 1)
}

/// Recovers what a crash left in place, stopped at this step, and what the stop leaves to its end.
fn recover_again(
    rt: &(impl Abort + AllocGlobal),
    image: &[u64],
    budget: u64,
    number: u64,
) -> Result<(), Fail> {
    let second = in_place(rt.alloc(), image, budget, number)?;
    must_hold(rt, holds_both(&second.found), "the second");
    recover_to_the_end(rt, &crashed(second), number)
}

/// Recovers what a crash left in place.
fn recover_to_the_end(
    rt: &(impl Abort + AllocGlobal),
    image: &[u64],
    number: u64,
) -> Result<(), Fail> {
    let third = in_place(rt.alloc(), image, u64::MAX, number)?;
    must_hold(rt, holds_both(&third.found), "the third");
    must_hold(rt, !third.stopped, "the third is done");
    Ok(())
}

/// Asserts that a recovery in place with so many steps holds the two blocks, and that it is done,
/// with the recovered words, or stopped.
fn must_go_on(rt: &impl Abort, first: &InPlace, budget: u64) {
    must_hold(rt, holds_both(&first.found), "the first");

    // The four words that differ stand in four lines, so it takes nine steps.
    must_hold(rt, first.stopped == (budget < 9), "how far it goes");
    let words = first.found.heap.words();
    let is_done = first.now.as_slice() == words && first.kept.as_slice() == words;
    must_hold(rt, first.stopped || is_done, "the words");
}

/// Stops a recovery in place at this step, and recovery of what is left at some.
fn stop_twice(
    rt: &(impl Abort + AllocGlobal),
    image: &[u64],
    budget: u64,
    number: u64,
) -> Result<(), Fail> {
    let first = in_place(rt.alloc(), image, budget, number)?;
    must_go_on(rt, &first, budget);
    stop_again(rt, &crashed(first), number)
}

/// Recovers what a crash left in place, stopped at some steps.
fn stop_again(rt: &(impl Abort + AllocGlobal), image: &[u64], number: u64) -> Result<(), Fail> {
    for budget in [0, 19, 38, 57] {
        recover_again(rt, image, budget, number)?;
    }
    Ok(())
}

#[test]
fn recovery_may_be_stopped_at_each_step_and_stopped_again(rt: HostRuntime) -> Result<(), Fail> {
    let image = image(rt.alloc())?;
    for budget in 0..12 {
        stop_twice(&rt, &image, budget, 0)?;
        stop_twice(&rt, &image, budget, 1)?;
    }
    Ok(())
}
