//! Runs by two workers, stopped at some of their steps: what is left is what a run promises, and it
//! is gone on with.
use crate::harness::{make_numbered, must_hold, word_at};
use crate::session::{image_in, played};
use std::alloc::{AllocError, Global};
use std::process::Abort;
use std::sync::Wait;
use std::test::Fail;
use std::thread::Threads;
use tool_ports::{ImageStore, MapStore};

/// What is in the shards before, in an image of four superblocks with what belongs to no shard:
/// words that have no meaning, a block to which root 8 points, and a kind of a root that is null.
const BEFORE: &str = "+ 4: 5 9, 9 10, 39 11, 1067 12, 1095 13, used 1, info:0 12, root:8 @1096, \
                      1096 7, 1223 8, 34887 2
$ run h --workers 1
< put 0 aa
< put 9 ee
>* run closed";

/// The words of it that no run changes: from the first one up to the second.
const KEPT: [(usize, usize); 10] = [
    (0, 3),
    (4, 8),
    (9, 16),
    (37, 40),
    (48, 1_064),
    (1_067, 1_072),
    (1_075, 1_080),
    (1_083, 1_088),
    (1_091, 1_224),
    (33_864, 34_888),
];

/// The run that is stopped at step N, with N as its chance. The first request and every other one
/// are to shards of the first worker, and the others to those of the second. LONG is a value of as
/// many bytes as a block of 512 has room for.
const STOPPED: &str = "run h --workers 2 --stop N
< put 0 LONG
< put 1 LONG
< get 0
< del 9
% N";

/// The same once more.
const AGAIN: &str = "run h --workers 2
< put 0 LONG
< put 1 LONG
< get 0
< del 9
% N";

/// The two replies that the first worker may have, with the keys that are then in its shards: those
/// after the answered requests, or with the next one too.
const FIRST: [[&str; 3]; 4] = [
    ["unanswered\n", "unanswered\n", "key 0 aa\n"],
    ["unanswered\n", "unanswered\n", "key 0 LONG\n"],
    ["ok\n", "unanswered\n", "key 0 LONG\n"],
    ["ok\n", "LONG\n", "key 0 LONG\n"],
];

/// The same of the second worker, with what is printed behind them.
const SECOND: [[&str; 3]; 5] = [
    ["unanswered\n", "unanswered\n", "key 9 ee\nheld"],
    ["unanswered\n", "unanswered\n", "key 1 LONG\nkey 9 ee\nheld"],
    ["ok\n", "unanswered\n", "key 1 LONG\nkey 9 ee\nheld"],
    ["ok\n", "unanswered\n", "key 1 LONG\nheld"],
    ["ok\n", "ok\n", "key 1 LONG\nheld"],
];

/// What is told of the heap where all is done.
const CLOSED: &str = "run closed
heap 4 clean
key 0 LONG
key 1 LONG
held 512 2
held 1024 3
";

/// The digits of the long value.
fn long_value(alloc: Global) -> Result<String, AllocError> {
    let mut digits = String::new(alloc);
    for _ in 0..488 {
        digits.push_str("ab")?;
    }
    Ok(digits)
}

/// What a run prints, with the name of the long value in its place.
fn printed_by(
    rt: &(impl AllocGlobal + Threads + Wait + Sync),
    images: &mut MapStore,
    turn: &str,
    long: &str,
    number: u64,
) -> Result<String, AllocError> {
    let turn = turn.replace(rt.alloc(), "LONG", long)?;
    make_numbered(rt, images, &turn, number)?
        .text()
        .replace(rt.alloc(), long, "LONG")
}

/// Whether the text begins with the pieces.
fn begins_with(text: &str, pieces: &[&str]) -> bool {
    let mut left = text;
    for piece in pieces {
        match left.strip_prefix(*piece) {
            Some(behind) => left = behind,
            None => return false,
        }
    }
    true
}

/// Whether the replies and the keys are a pair of each worker's.
fn has_pairs(printed: &str, state: &str) -> bool {
    for [one, three, keys] in &FIRST {
        for [two, four, others] in &SECOND {
            if begins_with(printed, &[one, two, three, four, state, keys, others]) {
                return true;
            }
        }
    }
    false
}

/// Whether the image and its report have the state of a run that was stopped, or that was not and
/// left no request unanswered, with a pair of each worker's.
fn is_promised(image: &[u8], printed: &str) -> bool {
    let state = word_at(image, 3);
    if printed.ends_with(CLOSED) {
        return state == 1
            && !printed.contains("unanswered")
            && has_pairs(printed, "run closed\nheap 4 clean\n");
    }
    state == 2 && has_pairs(printed, "run stopped\nheap 4 dirty\n")
}

/// Whether what belongs to no shard is in the one image as it is in the other.
fn keeps_others(left: &[u8], before: &[u8]) -> bool {
    for (from, to) in &KEPT {
        let (from, to) = (from.saturating_mul(8), to.saturating_mul(8));
        let kept = left.get(from..to);
        if kept.is_none() || kept != before.get(from..to) {
            return false;
        }
    }
    true
}

/// Stops a run at this step. The answer is whether it was stopped.
fn stop_run(
    rt: &(impl Abort + AllocGlobal + Threads + Wait + Sync),
    images: &mut MapStore,
    before: &[u8],
    long: &str,
    budget: u64,
) -> Result<bool, Fail> {
    let printed = printed_by(rt, images, STOPPED, long, budget)?;
    must_hold(rt, is_promised(image_in(images), &printed), &printed);
    must_hold(rt, keeps_others(image_in(images), before), &printed);
    Ok(printed.contains("run stopped"))
}

/// Runs all requests on what a stop left.
fn run_again(
    rt: &(impl Abort + AllocGlobal + Threads + Wait + Sync),
    images: &mut MapStore,
    long: &str,
    budget: u64,
) -> Result<(), Fail> {
    let printed = printed_by(rt, images, AGAIN, long, budget)?;
    must_hold(rt, printed.ends_with(CLOSED), "it is gone on with");
    Ok(())
}

/// Stops a run at this step, over the image, and runs all requests on what it left. The answer is
/// whether it was stopped.
fn stop_at(
    rt: &(impl Abort + AllocGlobal + Threads + Wait + Sync),
    images: &mut MapStore,
    image: &[u8],
    long: &str,
    budget: u64,
) -> Result<bool, Fail> {
    images.put(rt.alloc(), "h", image)?;
    let is_stopped = stop_run(rt, images, image, long, budget)?;
    run_again(rt, images, long, budget)?;
    Ok(is_stopped)
}

/// Stops a run at each 37th step, until it isn't stopped.
fn stop_at_each(
    rt: &(impl Abort + AllocGlobal + Threads + Wait + Sync),
    images: &mut MapStore,
    image: &[u8],
) -> Result<(), Fail> {
    let long = long_value(rt.alloc())?;
    for budget in (0..37_000).step_by(37) {
        if !stop_at(rt, images, image, &long, budget)? {
            return Ok(());
        }
    }
    Err("it never closes".into())
}

/// Does so over the image that is left before.
fn stops(rt: &(impl Abort + AllocGlobal + Threads + Wait + Sync)) -> Result<(), Fail> {
    let mut images = played(rt, BEFORE)?;
    let image = Vec::from_slice(rt.alloc(), image_in(&images))?;
    stop_at_each(rt, &mut images, &image)
}

#[test]
fn two_workers_are_stopped_while_they_work(rt: HostRuntime) -> Result<(), Fail> {
    stops(&rt)
}
