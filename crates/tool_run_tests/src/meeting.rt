//! Two workers that are at work at the same time: each is held until the other has come as far.
use crate::harness::{make, must_hold};
use crate::session::{ends_as_told, store_of};
use line_memory::Chance;
use std::process::Abort;
use std::sync::Wait;
use std::sync::atomic::{AtomicU64, Ordering};
use std::test::Fail;
use std::thread;
use std::thread::Threads;
use tool_ports::{Chances, Gate};

/// How often a worker looks whether the other one has come, at most.
const MOST_TURNS: u64 = 100_000_000;

/// A point to which each of two workers comes once, and there waits for the other.
#[derive(Drop)]
struct Meeting {
    first: AtomicU64,
    second: AtomicU64,
    missed: AtomicU64,
}

impl Meeting {
    fn new() -> Self {
        Meeting {
            first: AtomicU64::new(0),
            second: AtomicU64::new(0),
            missed: AtomicU64::new(0),
        }
    }

    /// That worker has come. The first time it waits for the other one, and counts where that does
    /// not come.
    fn come(&self, worker: usize) {
        let (mine, other) = if worker == 0 {
            (&self.first, &self.second)
        } else {
            (&self.second, &self.first)
        };
        if mine.swap(1, Ordering::SeqCst) == 0 && !has_come(other) {
            self.missed.store(1, Ordering::SeqCst);
        }
    }

    /// Whether both came, and neither waited in vain.
    fn was_held(&self) -> bool {
        self.first.load(Ordering::SeqCst) == 1
            && self.second.load(Ordering::SeqCst) == 1
            && self.missed.load(Ordering::SeqCst) == 0
    }
}

/// Waits until the other worker has come, but not for ever.
pub fn has_come(other: &AtomicU64) -> bool {
    for _ in 0..MOST_TURNS {
        if other.load(Ordering::SeqCst) == 1 {
            return true;
        }
        thread::yield_now();
    }
    false
}

/// Holds each worker before its first request.
impl Gate for Meeting {
    fn pass(&self, worker: usize, _: usize) {
        self.come(worker);
    }

    fn done(&self, _: usize, _: usize) {}
}

/// Holds each worker at its first draw.
#[derive(Drop)]
struct MeetingChances<'a> {
    at_first_draw: &'a Meeting,
}

/// The chance of one worker.
#[derive(Drop)]
struct MeetingChance<'a> {
    at_first_draw: &'a Meeting,
    worker: usize,
}

impl<'a> Chances for MeetingChances<'a> {
    type One = MeetingChance<'a>;

    fn seed(&mut self, _: u64) {}

    fn chance(&mut self, worker: usize) -> MeetingChance<'a> {
        MeetingChance {
            at_first_draw: self.at_first_draw,
            worker,
        }
    }

    fn word(&mut self) -> u64 {
        0
    }
}

impl<'a> Chance for MeetingChance<'a> {
    fn draw(&mut self) -> u64 {
        self.at_first_draw.come(self.worker);
        0
    }
}

/// A run by two workers, each of which has one put.
const BOTH: &str = "run h --workers 2
< put 0 aa
< put 1 bb
<
> ok
> ok
> run closed
> heap 4 clean
> key 0 aa
> key 1 bb
> held 32 2
> held 1024 2";

/// Makes the run with these two points.
fn run_with(
    rt: &(impl Abort + AllocGlobal + Threads + Wait + Sync),
    at_first_request: &Meeting,
    at_first_draw: &Meeting,
) -> Result<(), Fail> {
    let mut images = store_of(rt.alloc(), "4")?;
    let mut chances = MeetingChances { at_first_draw };
    let ended = make(rt, &mut images, BOTH, at_first_request, &mut chances);
    must_hold(rt, ends_as_told(BOTH, ended), "both are done");
    Ok(())
}

/// Makes it, and asserts that both points were come to.
fn meet(rt: &(impl Abort + AllocGlobal + Threads + Wait + Sync)) -> Result<(), Fail> {
    let (requests, draws) = (Meeting::new(), Meeting::new());
    run_with(rt, &requests, &draws)?;
    must_hold(rt, requests.was_held(), "at the first requests");
    must_hold(rt, draws.was_held(), "at the first draws");
    Ok(())
}

#[test]
fn two_workers_meet_in_their_first_steps(rt: HostRuntime) -> Result<(), Fail> {
    meet(&rt)
}
