//! The gate: it is told of each request by the number of its worker and by its own, once before it
//! and once behind it.
use crate::harness::{make, must_hold};
use crate::session::store_of;
use std::alloc::{AllocError, Global};
use std::process::Abort;
use std::sync::Wait;
use std::sync::atomic::{AtomicU64, Ordering};
use std::test::Fail;
use std::thread::Threads;
use tool_ports::{Gate, SeededChances};

/// Keeps what it is told.
#[derive(Drop)]
struct Recorder {
    /// For each request what was told of it.
    told: Vec<AtomicU64>,
    /// For each worker the number behind that of the request that was told last.
    next: Vec<AtomicU64>,
    /// 1 where something was told of no request or in no order.
    wrong: AtomicU64,
}

/// What is kept of a request once this worker told of it before it.
fn before(worker: usize) -> u64 {
    (worker as u64).saturating_mul(2).saturating_add(1)
}

/// What is kept of a request once this worker told of it behind it too.
fn behind(worker: usize) -> u64 {
    before(worker).saturating_add(1)
}

fn zeros(alloc: Global, count: usize) -> Result<Vec<AtomicU64>, AllocError> {
    let mut zeros = Vec::new(alloc);
    for _ in 0..count {
        zeros.push(AtomicU64::new(0))?;
    }
    Ok(zeros)
}

impl Recorder {
    fn new(alloc: Global, requests: usize) -> Result<Self, AllocError> {
        Ok(Recorder {
            told: zeros(alloc, requests)?,
            next: zeros(alloc, 8)?,
            wrong: AtomicU64::new(0),
        })
    }

    /// Puts a number in the place of one that is to be this.
    fn replace(&self, told: Option<&AtomicU64>, was: u64, is: u64) {
        match told {
            Some(told) if told.swap(is, Ordering::SeqCst) == was => {}
            _ => self.wrong.store(1, Ordering::SeqCst),
        }
    }

    /// That a worker's requests come in order.
    fn come_to(&self, worker: usize, request: usize) {
        let request = request as u64;
        match self.next.get(worker) {
            Some(next) if next.swap(request.saturating_add(1), Ordering::SeqCst) <= request => {}
            _ => self.wrong.store(1, Ordering::SeqCst),
        }
    }

    /// What was told of the request of this number.
    fn told_of(&self, request: usize) -> u64 {
        match self.told.get(request) {
            Some(told) => told.load(Ordering::SeqCst),
            None => 0,
        }
    }
}

impl Gate for Recorder {
    fn pass(&self, worker: usize, request: usize) {
        self.come_to(worker, request);
        self.replace(self.told.get(request), 0, before(worker));
    }

    fn done(&self, worker: usize, request: usize) {
        self.replace(self.told.get(request), before(worker), behind(worker));
    }
}

/// Requests to all workers, whatever their number is, as lines of a turn.
const SEVEN: &str = "
< put 0 aa
< get 11
< put 3 bb
< del 5
< move 0 9
< put 14 cc
< put 7 dd";

/// Requests that are soon done.
const SEVEN_GETS: &str = "
< get 0
< get 1
< get 10
< get 3
< get 12
< get 5
< get 7";

/// A call with the requests so many times.
fn turn_of(alloc: Global, call: &str, requests: &str, times: usize) -> Result<String, AllocError> {
    let mut turn = String::from_str(alloc, call)?;
    for _ in 0..times {
        turn.push_str(requests)?;
    }
    Ok(turn)
}

/// Makes a run, which tells the gate of its requests.
fn pass_through(
    rt: &(impl AllocGlobal + Threads + Wait + Sync),
    turn: &str,
    gate: &Recorder,
) -> Result<(), Fail> {
    let mut images = store_of(rt.alloc(), "4")?;
    make(rt, &mut images, turn, gate, &mut SeededChances::new())?;
    Ok(())
}

/// The worker, of so many, to which a request belongs.
fn worker_of(request: &str, workers: u64) -> usize {
    let key = request.split(' ').nth(2).unwrap_or("");
    let shard = key.parse::<u64>().unwrap_or(0) % 8;
    shard.checked_rem(workers).unwrap_or(0) as usize
}

/// Whether the gate was told of each request of the turn.
fn was_told_all(gate: &Recorder, turn: &str, workers: u64) -> bool {
    for (number, request) in turn.split('\n').skip(1).enumerate() {
        if gate.told_of(number) != behind(worker_of(request, workers)) {
            return false;
        }
    }
    gate.wrong.load(Ordering::SeqCst) == 0
}

/// Makes the run, whose gate is told of all requests.
fn tells_all(
    rt: &(impl Abort + AllocGlobal + Threads + Wait + Sync),
    turn: &str,
    requests: usize,
    workers: u64,
) -> Result<(), Fail> {
    let gate = Recorder::new(rt.alloc(), requests)?;
    pass_through(rt, turn, &gate)?;
    must_hold(rt, was_told_all(&gate, turn, workers), "each request");
    Ok(())
}

/// Makes the run that a row tells.
fn tells_row(
    rt: &(impl Abort + AllocGlobal + Threads + Wait + Sync),
    (call, workers, requests, times): (&str, u64, &str, usize),
) -> Result<(), Fail> {
    let turn = turn_of(rt.alloc(), call, requests, times)?;
    tells_all(rt, &turn, times.saturating_mul(7), workers)
}

/// What is told of the first request of each of three workers, and of no other.
const FIRST: [u64; 7] = [2, 0, 0, 6, 4, 0, 0];

/// Whether the gate was told this of the requests.
fn was_told(gate: &Recorder, requests: &[u64]) -> bool {
    for (number, told) in requests.iter().enumerate() {
        if gate.told_of(number) != *told {
            return false;
        }
    }
    gate.wrong.load(Ordering::SeqCst) == 0
}

/// A run of the seven requests that is stopped at once.
const STOPPED: &str = "run h --workers 3 --stop 0
< put 0 aa
< get 11
< put 3 bb
< del 5
< get 20
< put 14 cc
< put 7 dd";

/// Makes it.
fn tells_first(rt: &(impl Abort + AllocGlobal + Threads + Wait + Sync)) -> Result<(), Fail> {
    let gate = Recorder::new(rt.alloc(), 7)?;
    pass_through(rt, STOPPED, &gate)?;
    must_hold(rt, was_told(&gate, &FIRST), "the first ones");
    Ok(())
}

/// A run that is stopped while the table for a move is made, before any request.
const STOPPED_BEFORE: &str = "run h --workers 3 --stop 0
< put 0 aa
< move 1 2
< get 2";

/// Makes it.
fn tells_none(rt: &(impl Abort + AllocGlobal + Threads + Wait + Sync)) -> Result<(), Fail> {
    let gate = Recorder::new(rt.alloc(), 3)?;
    pass_through(rt, STOPPED_BEFORE, &gate)?;
    must_hold(rt, was_told(&gate, &[0, 0, 0]), "none");
    Ok(())
}

/// A call, its workers, the seven requests, and how often it has them.
const ROWS: [(&str, u64, &str, usize); 3] = [
    ("run h --workers 1 --sum", 1, SEVEN, 143),
    ("run h --workers 3 --sum", 3, SEVEN, 143),
    ("run h --workers 2 --sum", 2, SEVEN_GETS, 10_000),
];

/// Makes all of these runs.
fn tells_in_each(rt: &(impl Abort + AllocGlobal + Threads + Wait + Sync)) -> Result<(), Fail> {
    for row in &ROWS {
        tells_row(rt, *row)?;
    }
    tells_first(rt)?;
    tells_none(rt)
}

#[test]
fn the_gate_is_told_of_each_request_before_and_behind_it(rt: HostRuntime) -> Result<(), Fail> {
    tells_in_each(&rt)
}
