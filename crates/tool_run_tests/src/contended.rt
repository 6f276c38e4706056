//! Heaps that are too small for the puts of all workers: each put that is told so is held against
//! the superblocks that may have been taken.
use crate::harness::{make_turn, must_hold};
use crate::session::{image_in, store_of};
use crate::turn::nth_number;
use std::alloc::AllocError;
use std::process::Abort;
use std::sync::Wait;
use std::test::Fail;
use std::thread::Threads;
use tool_ports::MapStore;

/// A run over an empty heap.
#[derive(Clone, Copy)]
struct Run {
    /// How many superblocks the heap has.
    capacity: &'static str,
    workers: u64,
    /// How many puts find no room at least.
    least: u64,
    /// How many shards the requests put into: each needs a table.
    tables: u64,
    turn: &'static str,
}

const RUNS: [Run; 9] = [
    Run {
        capacity: "2",
        workers: 4,
        least: 4,
        tables: 4,
        turn: "run h --workers 4
<0 0 14312
<0 1 14312
<0 2 14312
<0 3 14312
<0 8 14312
<0 9 14312
<0 10 14312
<0 11 14312",
    },
    Run {
        capacity: "2",
        workers: 2,
        least: 0,
        tables: 1,
        turn: "run h --workers 2
<0 0 8
< get 1
< del 9",
    },
    Run {
        capacity: "4",
        workers: 2,
        least: 0,
        tables: 2,
        turn: "run h --workers 2
<0 0 8
<0 1 8",
    },
    Run {
        capacity: "4",
        workers: 2,
        least: 1,
        tables: 2,
        turn: "run h --workers 2
<0 0 65513
<0 1 65513",
    },
    Run {
        capacity: "4",
        workers: 2,
        least: 2,
        tables: 1,
        turn: "run h --workers 2
<0 0 65512
<0 8 65512
< get 1
<0 16 65512
< del 0
<0 24 65512
<0 0 65512",
    },
    Run {
        capacity: "3",
        workers: 2,
        least: 2,
        tables: 2,
        turn: "run h --workers 2
<0 0 65512
<0 1 65512
<0 8 65512
<0 9 65512",
    },
    Run {
        capacity: "4",
        workers: 2,
        least: 1,
        tables: 2,
        turn: "run h --workers 2
<0 0 65512
<0 1 65512
<0 8 65512
<0 9 65512",
    },
    Run {
        capacity: "3",
        workers: 3,
        least: 1,
        tables: 3,
        turn: "run h --workers 3
<0 0 8
<0 1 14312
<0 2 65512
< del 1
<0 9 131072",
    },
    Run {
        capacity: "4",
        workers: 8,
        least: 0,
        tables: 8,
        turn: "run h --workers 8
<0 0 8
<0 1 8
<0 2 8
<0 3 8
<0 4 8
<0 5 8
<0 6 8
<0 7 65513",
    },
];

/// The superblocks that the node takes of a put of zero bytes, in a line of input.
fn span_of(line: &str) -> u64 {
    if line.starts_with("<0") {
        nth_number(line, 2)
            .div_ceil(8)
            .saturating_add(3)
            .div_ceil(8_192)
    } else {
        0
    }
}

/// The worker of such a put.
fn worker_of(run: &Run, line: &str) -> u64 {
    (nth_number(line, 1) % 8)
        .checked_rem(run.workers)
        .unwrap_or(0)
}

/// The superblocks that puts may have taken before one of this worker, behind so many lines: its own
/// before, and all of the other workers.
fn taken(run: &Run, printed: &str, worker: u64, count: usize) -> u64 {
    let mut taken = 0u64;
    let replies = run.turn.split('\n').skip(1).zip(printed.split('\n'));
    for (number, (line, reply)) in replies.enumerate() {
        if reply == "ok" && (number < count || worker_of(run, line) != worker) {
            taken = taken.saturating_add(span_of(line));
        }
    }
    taken
}

/// Whether there may have been no room for the put in this line, behind so many others.
fn may_be_full(run: &Run, printed: &str, line: &str, count: usize) -> bool {
    let others = taken(run, printed, worker_of(run, line), count);
    let wanted = span_of(line)
        .saturating_add(run.tables)
        .saturating_add(others);
    nth_number(run.capacity, 0) < wanted
}

/// How many puts are told that there is no room, each of them rightly.
fn count_full(rt: &impl Abort, run: &Run, printed: &str) -> u64 {
    let mut count = 0u64;
    let replies = run.turn.split('\n').skip(1).zip(printed.split('\n'));
    for (number, (line, reply)) in replies.enumerate() {
        if reply == "full" {
            must_hold(rt, may_be_full(run, printed, line, number), run.turn);
            count = count.saturating_add(1);
        }
    }
    count
}

/// The report behind the replies of a run that was closed.
fn report_of(printed: &str) -> &str {
    match printed.split_once("run closed\n") {
        Some((_, report)) => report,
        None => "it was not closed",
    }
}

/// Whether this report is shown of the image that is left.
pub fn shows_report(
    rt: &(impl AllocGlobal + Threads + Wait + Sync),
    images: &mut MapStore,
    report: &str,
) -> Result<bool, AllocError> {
    let shown = make_turn(rt, images, "show h")?;
    Ok(shown.status == 0 && shown.text() == report)
}

/// Whether the image that is left is shown as the run told, and stays as it is.
fn is_shown_again(
    rt: &(impl AllocGlobal + Threads + Wait + Sync),
    images: &mut MapStore,
    printed: &str,
) -> Result<bool, AllocError> {
    let image = Vec::from_slice(rt.alloc(), image_in(images))?;
    let is_shown = shows_report(rt, images, report_of(printed))?;
    Ok(is_shown && image_in(images) == image.as_slice())
}

/// Makes the run: at least so many of its puts find no room, and each rightly.
fn contend_over(
    rt: &(impl Abort + AllocGlobal + Threads + Wait + Sync),
    images: &mut MapStore,
    run: &Run,
) -> Result<(), Fail> {
    let ended = make_turn(rt, images, run.turn)?;
    must_hold(rt, run.least <= count_full(rt, run, ended.text()), run.turn);
    must_hold(rt, is_shown_again(rt, images, ended.text())?, run.turn);
    Ok(())
}

/// Makes the run over an empty heap.
fn contend(rt: &(impl Abort + AllocGlobal + Threads + Wait + Sync), run: &Run) -> Result<(), Fail> {
    let mut images = store_of(rt.alloc(), run.capacity)?;
    contend_over(rt, &mut images, run)
}

/// Makes each of the runs.
fn contend_in_each(rt: &(impl Abort + AllocGlobal + Threads + Wait + Sync)) -> Result<(), Fail> {
    for run in &RUNS {
        contend(rt, run)?;
    }
    Ok(())
}

#[test]
fn puts_without_room_have_a_cause(rt: HostRuntime) -> Result<(), Fail> {
    contend_in_each(&rt)
}
