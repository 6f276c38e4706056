//! What is moved arrives in the order of the trace, also where it was sent in another one: a worker
//! is held before its move until the other one has done a later move to the same key.
use crate::harness::{make, must_hold};
use crate::meeting::has_come;
use crate::session::{ends_as_told, play, played, show_of};
use std::process::Abort;
use std::sync::Wait;
use std::sync::atomic::{AtomicU64, Ordering};
use std::test::Fail;
use std::thread::Threads;
use tool_ports::{Gate, SeededChances};

/// Lets one worker begin once the other one has done a request.
#[derive(Drop)]
struct Later {
    held: usize,
    is_done: AtomicU64,
    missed: AtomicU64,
}

impl Later {
    fn new(held: usize) -> Self {
        Later {
            held,
            is_done: AtomicU64::new(0),
            missed: AtomicU64::new(0),
        }
    }

    /// Whether the other worker was done, and the held one didn't wait in vain.
    fn was_first(&self) -> bool {
        self.is_done.load(Ordering::SeqCst) == 1 && self.missed.load(Ordering::SeqCst) == 0
    }
}

impl Gate for Later {
    fn pass(&self, worker: usize, _: usize) {
        if worker == self.held && !has_come(&self.is_done) {
            self.missed.store(1, Ordering::SeqCst);
        }
    }

    fn done(&self, worker: usize, _: usize) {
        if worker != self.held {
            self.is_done.store(1, Ordering::SeqCst);
        }
    }
}

const BEFORE: &str = "+ 4
$ run h --workers 1
< put 0 aa
< put 1 bb
>* run closed";

/// The worker that is held, and a run in which its move is the earlier one.
const ROWS: [(usize, &str); 2] = [
    (
        0,
        "run h --workers 2
< move 0 2
< move 1 2
> ok
> ok
> run closed
> heap 4 clean
> key 2 bb
> held 32 1
> held 1024 3",
    ),
    (
        1,
        "run h --workers 2
< move 1 2
< move 0 2
> ok
> ok
> run closed
> heap 4 clean
> key 2 aa
> held 32 1
> held 1024 3",
    ),
];

/// Makes the run with that worker held.
fn arrives(
    rt: &(impl Abort + AllocGlobal + Threads + Wait + Sync),
    held: usize,
    turn: &str,
) -> Result<(), Fail> {
    let mut images = played(rt, BEFORE)?;
    let gate = Later::new(held);
    let ended = make(rt, &mut images, turn, &gate, &mut SeededChances::new());
    must_hold(rt, ends_as_told(turn, ended), turn);
    must_hold(rt, gate.was_first(), "the later one is sent first");
    play(rt, &mut images, &show_of(rt.alloc(), turn)?)
}

#[test]
fn the_later_of_two_moves_wins_though_it_is_sent_first(rt: HostRuntime) -> Result<(), Fail> {
    for (held, turn) in &ROWS {
        arrives(&rt, *held, turn)?;
    }
    Ok(())
}
