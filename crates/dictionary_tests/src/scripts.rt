//! Scripts of requests: a long one answers as an ordered map, and a stopped one leaves the map before
//! or after a request.
use crate::asks::{Ask, found_in, is_after, run};
use crate::checks::must_hold;
use crate::recoveries::empty;
use crate::tests::run_on_empty;
use std::alloc::{AllocError, Global};
use std::process::Abort;
use std::test::Fail;

/// The next of a row of numbers, whose upper halves have no pattern.
fn next(number: u64) -> u64 {
    number
        .wrapping_mul(6_364_136_223_846_793_005)
        .wrapping_add(1_442_695_040_888_963_407)
}

/// The request that a number draws, for one of twelve keys of four shards, three of each in one
/// bucket.
fn drawn(number: u64) -> Ask {
    let key = (number % 4).wrapping_add((number / 4 % 3).wrapping_mul(1_024));
    if number / 16 % 3 == 0 {
        return Ask::Del(key);
    }
    let length = (number / 64 % 50) as usize;
    Ask::Put(key, length, (number / 4_096 % 256) as u8)
}

/// So many requests.
fn script(alloc: Global, count: usize, seed: u64) -> Result<Vec<Ask>, AllocError> {
    let mut asks = Vec::new(alloc);
    let mut number = seed;
    for _ in 0..count {
        number = next(number);
        asks.push(drawn(number >> 32))?;
    }
    Ok(asks)
}

/// Asserts that the image has what the requests leave of an empty map.
fn must_be_after(rt: &(impl Abort + AllocGlobal), image: &[u64], asks: &[Ask]) -> Result<(), Fail> {
    must_hold(rt, is_after(rt.alloc(), image, asks)?, "the map");
    Ok(())
}

/// Makes the requests of an empty heap, which leave it as they leave a map.
fn answers_as_a_map(
    rt: &(impl Abort + AllocGlobal),
    asks: &[Ask],
    number: u64,
) -> Result<(), Fail> {
    let closed = run_on_empty(rt, 16, asks, number)?;
    must_be_after(rt, &closed.now, asks)?;
    must_be_after(rt, &closed.kept, asks)
}

#[test]
fn a_long_script_answers_as_an_ordered_map(rt: HostRuntime) -> Result<(), Fail> {
    answers_as_a_map(&rt, &script(rt.alloc(), 300, 0x9e37_79b9_7f4a_7c15)?, 0)?;
    answers_as_a_map(&rt, &script(rt.alloc(), 300, 0x1234_5678_9abc_def1)?, 1)
}

/// Requests whose blocks are of one class, so that one superblock serves.
const ONE_CLASS: [Ask; 6] = [
    Ask::Put(0, 900, 1),
    Ask::Put(1_024, 800, 2),
    Ask::Put(0, 1_000, 3),
    Ask::Del(1_024),
    Ask::Put(1, 760, 4),
    Ask::Del(0),
];

/// Whether the image has the map of the answered requests, or that with the next one.
fn is_before_or_after(alloc: Global, image: &[u64], answered: usize) -> Result<bool, Fail> {
    let found = found_in(alloc, image)?;
    let is_before = found.is_after(alloc, &ONE_CLASS, answered);
    Ok(is_before || found.is_after(alloc, &ONE_CLASS, answered.wrapping_add(1)))
}

/// Stops the requests at the step, and tells whether they were done.
fn stop_script(rt: &(impl Abort + AllocGlobal), image: &[u64], budget: u64) -> Result<bool, Fail> {
    let left = run(rt.alloc(), image, &ONE_CLASS, (budget, 1))?;
    let is_map = is_before_or_after(rt.alloc(), &left.closed.kept, left.answered)?;
    must_hold(rt, is_map, "a map");
    Ok(left.answered == 6)
}

#[test]
fn a_stopped_script_leaves_the_map_before_or_after(rt: HostRuntime) -> Result<(), Fail> {
    let image = empty(rt.alloc(), 1)?;
    for step in 0..20_000u64 {
        if stop_script(&rt, &image, 3 * step)? {
            return Ok(());
        }
    }
    Err("the script does not end".into())
}
