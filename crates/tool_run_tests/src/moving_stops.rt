//! Runs with moves that are stopped: what is left is what a run promises. Of a moved key that is its
//! old entry, or none, or the one under its new key.
use crate::contended::shows_report;
use crate::harness::{Ended, make_numbered, must_hold};
use crate::session::{image_in, played};
use std::alloc::{AllocError, Global};
use std::process::Abort;
use std::sync::Wait;
use std::test::Fail;
use std::thread::Threads;
use tool_ports::{ImageStore, MapStore};

/// What is there before the run by one worker: three keys, and a table without one.
const BEFORE_ONE: &str = "
$ format h 2
> formatted 2 bytes 147904
$ run h --workers 1
< put 0 aa
< put 8 bb
< put 9 cc
< put 2 -
< del 2
>* run closed";

/// The run that is stopped at step N, whose first move goes onto a key that is there. The chances
/// settle none of the words, or some.
const BY_ONE: [&str; 2] = [
    "run h --workers 1 --stop N
< move 0 9
< move 8 2
< get 0
% 0",
    "run h --workers 1 --stop N --seed N
< move 0 9
< move 8 2
< get 0",
];

/// The replies and the keys of a stopped run, in the order in which they are seen at later and later
/// steps. A value that is on its way is lost by the stop.
const SEEN: [[&str; 2]; 8] = [
    [
        "unanswered\nunanswered\nunanswered\n",
        "key 0 aa\nkey 8 bb\nkey 9 cc\n",
    ],
    [
        "unanswered\nunanswered\nunanswered\n",
        "key 8 bb\nkey 9 cc\n",
    ],
    ["ok\nunanswered\nunanswered\n", "key 8 bb\nkey 9 cc\n"],
    ["ok\nunanswered\nunanswered\n", "key 9 cc\n"],
    ["ok\nok\nunanswered\n", "key 9 cc\n"],
    ["ok\nok\nnone\n", "key 9 cc\n"],
    ["ok\nok\nnone\n", "key 9 aa\n"],
    ["ok\nok\nnone\n", "key 2 bb\nkey 9 aa\n"],
];

/// What is printed in the end.
const CLOSED_ONE: &str = "ok
ok
none
run closed
heap 2 clean
key 2 bb
key 9 aa
held 32 2
held 1024 3
";

/// What is printed of a stopped run with these replies, this heap and these keys: each key has a
/// block, and so many shards have a table.
fn told_of(
    alloc: Global,
    replies: &str,
    heap: &str,
    keys: &str,
    tables: u64,
) -> Result<String, AllocError> {
    let nodes = keys.split('\n').count().saturating_sub(1);
    format!(in alloc; "{replies}run stopped\n{heap}{keys}held 32 {nodes}\nheld 1024 {tables}\n")
}

/// Which of the replies and keys are printed, by their number, or the number behind them where the
/// run was closed.
fn seen_in(alloc: Global, printed: &str) -> Result<usize, Fail> {
    for (number, [replies, keys]) in SEEN.iter().enumerate() {
        if told_of(alloc, replies, "heap 2 dirty\n", keys, 3)?.as_str() == printed {
            return Ok(number);
        }
    }
    if printed == CLOSED_ONE {
        return Ok(8);
    }
    Err("another text is printed".into())
}

/// The report behind the replies of a run.
fn report_of(printed: &str) -> &str {
    match printed.split_once("run stopped\n") {
        Some((_, report)) => report,
        None => match printed.split_once("run closed\n") {
            Some((_, report)) => report,
            None => "no report",
        },
    }
}

/// Stops the run at this step, over the image: what it prints. What is left is shown so too.
fn stop_at(
    rt: &(impl Abort + AllocGlobal + Threads + Wait + Sync),
    images: &mut MapStore,
    image: &[u8],
    turn: &str,
    budget: u64,
) -> Result<Ended, Fail> {
    images.put(rt.alloc(), "h", image)?;
    let ended = make_numbered(rt, images, turn, budget)?;
    let is_shown = shows_report(rt, images, report_of(ended.text()))?;
    must_hold(rt, is_shown, ended.text());
    Ok(ended)
}

/// Stops the run at one step after the other until it is closed. Where the chances settle nothing
/// each of the texts comes, in their order.
fn stop_each(
    rt: &(impl Abort + AllocGlobal + Threads + Wait + Sync),
    images: &mut MapStore,
    image: &[u8],
    (turn, in_order): (&str, bool),
) -> Result<(), Fail> {
    let mut before = 0usize;
    for budget in 0..1_000u64 {
        let ended = stop_at(rt, images, image, turn, budget)?;
        let seen = seen_in(rt.alloc(), ended.text())?;
        let follows = seen == before || seen == before.saturating_add(1);
        must_hold(rt, follows || !in_order, ended.text());
        if seen == 8 {
            return Ok(());
        }
        before = seen;
    }
    Err("it never closes".into())
}

/// Stops a run by one worker at each of its steps.
fn stops_one(
    rt: &(impl Abort + AllocGlobal + Threads + Wait + Sync),
    run: (&str, bool),
) -> Result<(), Fail> {
    let mut images = played(rt, BEFORE_ONE)?;
    let image = Vec::from_slice(rt.alloc(), image_in(&images))?;
    stop_each(rt, &mut images, &image, run)
}

/// What is there before the run by two workers.
const BEFORE_TWO: &str = "
$ format h 5
> formatted 5 bytes 344704
$ run h --workers 1
< put 0 aa
< put 2 bb
< put 9 cc
>* run closed";

/// The run that is stopped at step N, with N as its seed. Each worker moves a value to the other:
/// the first one to a shard whose table is made, the second one onto a key that is there.
const BY_TWO: &str = "run h --workers 2 --stop N --seed N
< move 0 11
< move 9 2
< get 2
< get 11";

/// The two replies that the first worker may have, the keys that are then in its shards, and the
/// reply to the other's move that this takes.
const FIRST: [[&str; 4]; 5] = [
    ["unanswered\n", "unanswered\n", "key 0 aa\nkey 2 bb\n", ""],
    ["unanswered\n", "unanswered\n", "key 2 bb\n", ""],
    ["ok\n", "unanswered\n", "key 2 bb\n", ""],
    ["ok\n", "bb\n", "key 2 bb\n", ""],
    ["ok\n", "bb\n", "key 2 cc\n", "ok\n"],
];

/// The same of the second worker.
const SECOND: [[&str; 4]; 5] = [
    ["unanswered\n", "unanswered\n", "key 9 cc\n", ""],
    ["unanswered\n", "unanswered\n", "", ""],
    ["ok\n", "unanswered\n", "", ""],
    ["ok\n", "none\n", "", ""],
    ["ok\n", "none\n", "key 11 aa\n", "ok\n"],
];

/// What is printed in the end.
const CLOSED_TWO: &str = "ok
ok
bb
none
run closed
heap 5 clean
key 2 cc
key 11 aa
held 32 2
held 1024 4
";

/// What is printed of a stopped run with the replies and the keys of both workers.
fn both_told(
    alloc: Global,
    [one, three, keys, _]: &[&str; 4],
    [two, four, others, _]: &[&str; 4],
    tables: u64,
) -> Result<String, AllocError> {
    let replies = format!(in alloc; "{one}{two}{three}{four}")?;
    let keys = format!(in alloc; "{keys}{others}")?;
    told_of(alloc, &replies, "heap 5 dirty\n", &keys, tables)
}

/// Whether that is printed. The fourth table is made before the first request.
fn is_pair(
    alloc: Global,
    printed: &str,
    first: &[&str; 4],
    second: &[&str; 4],
) -> Result<bool, AllocError> {
    let was_sent = second[0].starts_with(first[3]) && first[0].starts_with(second[3]);
    let is_begun = first[2] != FIRST[0][2] || second[2] != SECOND[0][2];
    Ok(
        was_sent
            && (both_told(alloc, first, second, 4)?.as_str() == printed
                || !is_begun && both_told(alloc, first, second, 3)?.as_str() == printed),
    )
}

/// Whether this is printed of a run that was closed, or of one that was stopped with what each
/// worker may have.
fn is_promised(alloc: Global, printed: &str) -> Result<bool, AllocError> {
    for first in &FIRST {
        for second in &SECOND {
            if is_pair(alloc, printed, first, second)? {
                return Ok(true);
            }
        }
    }
    Ok(printed == CLOSED_TWO)
}

/// Stops the run at this step, over the image. The answer is whether it was stopped.
fn stop_two(
    rt: &(impl Abort + AllocGlobal + Threads + Wait + Sync),
    images: &mut MapStore,
    image: &[u8],
    budget: u64,
) -> Result<bool, Fail> {
    let ended = stop_at(rt, images, image, BY_TWO, budget)?;
    must_hold(rt, is_promised(rt.alloc(), ended.text())?, ended.text());
    Ok(ended.text() != CLOSED_TWO)
}

/// Stops the run by two workers at each seventh step, until it isn't stopped.
fn stops_two(rt: &(impl Abort + AllocGlobal + Threads + Wait + Sync)) -> Result<(), Fail> {
    let mut images = played(rt, BEFORE_TWO)?;
    let image = Vec::from_slice(rt.alloc(), image_in(&images))?;
    for budget in (0..7_000).step_by(7) {
        if !stop_two(rt, &mut images, &image, budget)? {
            return Ok(());
        }
    }
    Err("it never closes".into())
}

#[test]
fn one_worker_is_stopped_at_each_step_of_its_moves(rt: HostRuntime) -> Result<(), Fail> {
    stops_one(&rt, (BY_ONE[0], true))?;
    stops_one(&rt, (BY_ONE[1], false))
}

#[test]
fn two_workers_are_stopped_while_they_move(rt: HostRuntime) -> Result<(), Fail> {
    stops_two(&rt)
}
