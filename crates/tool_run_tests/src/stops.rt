//! Runs stopped at their steps: what is told of the image that is left, and that it is gone on with.
use crate::harness::{make_numbered, make_turn, must_hold};
use crate::session::{image_in, play, played};
use std::process::Abort;
use std::sync::Wait;
use std::test::Fail;
use std::thread::Threads;
use tool_ports::{ImageStore, MapStore};

/// What the heap of two superblocks went through before the run that is stopped.
const BEFORE: &str = "+ 2
$ run h --workers 1
< put 0 aa
>* run closed";

/// A put by one worker that is stopped at step N, by each of the chances.
const BY_ONE: [&str; 3] = [
    "run h --workers 1 --stop N
< put 0 bb
% 0",
    "run h --workers 1 --stop N
< put 0 bb
% 1",
    "run h --workers 1 --stop N
< put 0 bb",
];

/// The same by two workers, of which the second has no request here and so takes no step.
const BY_TWO: &str = "run h --workers 2 --stop N
< put 0 bb
% 0";

/// What is told of the put that replaces a value, stopped before the step at which it does so.
const OLD: &str = "unanswered
run stopped
heap 2 dirty
key 0 aa
held 32 1
held 1024 1
";

/// The same, stopped behind that step.
const NEW: &str = "unanswered
run stopped
heap 2 dirty
key 0 bb
held 32 1
held 1024 1
";

/// The same, answered, and stopped behind that, where its worker empties its caches.
const ANSWERED: &str = "ok
run stopped
heap 2 dirty
key 0 bb
held 32 1
held 1024 1
";

/// The same, not stopped.
const CLOSED: &str = "ok
run closed
heap 2 clean
key 0 bb
held 32 1
held 1024 1
";

/// The four in the order in which they are seen at later and later steps.
const SEEN: [&str; 4] = [OLD, NEW, ANSWERED, CLOSED];

/// The put once more, on what was left.
const AGAIN: &str = "
$ run h --workers 1
< put 0 bb
> ok
> run closed
> heap 2 clean
> key 0 bb
> held 32 1
> held 1024 1";

/// Which of the four is printed, by its number.
fn seen_in(printed: &str) -> Result<usize, Fail> {
    for (number, text) in SEEN.iter().enumerate() {
        if printed == *text {
            return Ok(number);
        }
    }
    Err("another text is printed".into())
}

/// Stops the put at this step: which of the four is printed.
fn stop_put(
    rt: &(impl AllocGlobal + Threads + Wait + Sync),
    images: &mut MapStore,
    stop: &str,
    budget: u64,
) -> Result<usize, Fail> {
    let ended = make_numbered(rt, images, stop, budget)?;
    seen_in(ended.text())
}

/// Stops the put at this step, over the image, and does it on what is left.
fn put_twice(
    rt: &(impl Abort + AllocGlobal + Threads + Wait + Sync),
    images: &mut MapStore,
    image: &[u8],
    stop: &str,
    budget: u64,
) -> Result<usize, Fail> {
    images.put(rt.alloc(), "h", image)?;
    let seen = stop_put(rt, images, stop, budget)?;
    if seen != 3 {
        play(rt, images, AGAIN)?;
    }
    Ok(seen)
}

/// The next step that is tried: each of so many first ones, and few of those behind, in which a
/// worker empties its caches.
fn next_step(budget: u64, each: u64, apart: u64) -> u64 {
    budget.saturating_add(if budget < each { 1 } else { apart })
}

/// Stops the put at one step after the other until it is closed: the old value is there up to some
/// step, and from there on the new one.
fn replaces_at_one_step(
    rt: &(impl Abort + AllocGlobal + Threads + Wait + Sync),
    images: &mut MapStore,
    image: &[u8],
    (stop, apart): (&str, u64),
) -> Result<(), Fail> {
    let mut before = 0usize;
    let mut budget = 0u64;
    for _ in 0..1_000 {
        let seen = put_twice(rt, images, image, stop, budget)?;
        must_hold(rt, seen == before || seen == before.saturating_add(1), stop);
        if seen == 3 {
            must_hold(rt, 40 < budget, "it takes steps");
            return Ok(());
        }
        before = seen;
        budget = next_step(budget, 40, apart);
    }
    Err("it never closes".into())
}

/// A run of three requests, stopped at step N, with N as its chance.
const REQUESTS: &str = "run h --workers 1 --stop N
< put 8 bb
< put 0 cc
< del 8
<
% N";

/// A run of those of them that are left, where none was answered, one, two or all.
const REST: [&str; 4] = [
    "run h --workers 1
< put 8 bb
< put 0 cc
< del 8
<",
    "run h --workers 1
< put 0 cc
< del 8
<",
    "run h --workers 1
< del 8
<",
    "run h --workers 1",
];

const REPORT: &str = "heap 2 clean\nkey 0 cc\nheld 32 1\nheld 1024 1\n";

/// How many lines of the text come before the first that begins with `run`, and how many of these
/// are replies.
fn answered(text: &str) -> usize {
    let mut count = 0usize;
    for line in text.split('\n') {
        if line.starts_with("run") || line == "unanswered" {
            return count;
        }
        count = count.wrapping_add(1);
    }
    count
}

/// Runs the requests behind so many first ones on what a stop left.
fn runs_rest(
    rt: &(impl Abort + AllocGlobal + Threads + Wait + Sync),
    images: &mut MapStore,
    count: usize,
) -> Result<(), Fail> {
    let ended = make_turn(rt, images, REST.get(count).unwrap_or(&""))?;
    must_hold(
        rt,
        ended.status == 0 && ended.text().ends_with(REPORT),
        "the rest is run",
    );
    Ok(())
}

/// Stops a run of the requests at this step: how many are answered. Where it is closed, all are.
fn stop_requests(
    rt: &(impl Abort + AllocGlobal + Threads + Wait + Sync),
    images: &mut MapStore,
    budget: u64,
) -> Result<(usize, bool), Fail> {
    let ended = make_numbered(rt, images, REQUESTS, budget)?;
    let count = answered(ended.text());
    let is_closed = ended.text().ends_with(REPORT);
    must_hold(rt, !is_closed || count == 3, "all are answered in the end");
    Ok((count, is_closed))
}

/// Stops a run of the requests at this step, over the image, and runs those left unanswered on what
/// is left. The answer is whether none was.
fn go_on(
    rt: &(impl Abort + AllocGlobal + Threads + Wait + Sync),
    images: &mut MapStore,
    image: &[u8],
    budget: u64,
) -> Result<bool, Fail> {
    images.put(rt.alloc(), "h", image)?;
    let (count, is_closed) = stop_requests(rt, images, budget)?;
    runs_rest(rt, images, count)?;
    Ok(is_closed)
}

/// Goes on from one step after the other, until no request is left.
fn goes_on_from_each(
    rt: &(impl Abort + AllocGlobal + Threads + Wait + Sync),
    images: &mut MapStore,
    image: &[u8],
) -> Result<(), Fail> {
    let mut budget = 0u64;
    for _ in 0..1_000 {
        if go_on(rt, images, image, budget)? {
            return Ok(());
        }
        budget = next_step(budget, 100, 509);
    }
    Err("it never closes".into())
}

/// Replaces the value at one step, over the image that is left before.
fn replaces(
    rt: &(impl Abort + AllocGlobal + Threads + Wait + Sync),
    stop: (&str, u64),
) -> Result<(), Fail> {
    let mut images = played(rt, BEFORE)?;
    let image = Vec::from_slice(rt.alloc(), image_in(&images))?;
    replaces_at_one_step(rt, &mut images, &image, stop)
}

/// Goes on from each step over that image.
fn goes_on(rt: &(impl Abort + AllocGlobal + Threads + Wait + Sync)) -> Result<(), Fail> {
    let mut images = played(rt, BEFORE)?;
    let image = Vec::from_slice(rt.alloc(), image_in(&images))?;
    goes_on_from_each(rt, &mut images, &image)
}

#[test]
fn a_replaced_value_is_old_or_new_at_each_stop(rt: HostRuntime) -> Result<(), Fail> {
    for stop in &BY_ONE {
        replaces(&rt, (stop, 509))?;
    }
    Ok(())
}

#[test]
fn a_value_is_replaced_by_one_of_two_workers(rt: HostRuntime) -> Result<(), Fail> {
    replaces(&rt, (BY_TWO, 37))
}

#[test]
fn requests_left_unanswered_are_run_on_what_a_stop_left(rt: HostRuntime) -> Result<(), Fail> {
    goes_on(&rt)
}
