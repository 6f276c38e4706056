//! The gate is passed before a request's first draw, and told that it is done behind its last one.
use crate::harness::{make, must_hold};
use crate::session::{ends_as_told, store_of};
use line_memory::Chance;
use std::process::Abort;
use std::sync::Wait;
use std::sync::atomic::{AtomicU64, Ordering};
use std::test::Fail;
use std::thread::Threads;
use tool_ports::{Chances, Gate};

/// Whether a request is under way, and how many draws there were while one was and while none was.
#[derive(Drop)]
struct Draws {
    under_way: AtomicU64,
    inside: AtomicU64,
    outside: AtomicU64,
}

impl Draws {
    fn new() -> Self {
        Draws {
            under_way: AtomicU64::new(0),
            inside: AtomicU64::new(0),
            outside: AtomicU64::new(0),
        }
    }

    /// Counts a draw.
    fn count(&self) {
        if self.under_way.load(Ordering::SeqCst) == 1 {
            self.inside.fetch_add(1, Ordering::SeqCst);
        } else {
            self.outside.fetch_add(1, Ordering::SeqCst);
        }
    }

    /// Whether requests drew, and nothing else did.
    fn are_inside(&self) -> bool {
        self.inside.load(Ordering::SeqCst) > 0 && self.outside.load(Ordering::SeqCst) == 0
    }
}

impl Gate for Draws {
    fn pass(&self, _: usize, _: usize) {
        self.under_way.store(1, Ordering::SeqCst);
    }

    fn done(&self, _: usize, _: usize) {
        self.under_way.store(0, Ordering::SeqCst);
    }
}

/// Chances of which each draw is counted.
#[derive(Drop)]
struct CountedChances<'a> {
    draws: &'a Draws,
}

/// The chance of the one worker.
#[derive(Drop)]
struct CountedChance<'a> {
    draws: &'a Draws,
}

impl<'a> Chances for CountedChances<'a> {
    type One = CountedChance<'a>;

    fn seed(&mut self, _: u64) {}

    fn chance(&mut self, _: usize) -> CountedChance<'a> {
        CountedChance { draws: self.draws }
    }

    fn word(&mut self) -> u64 {
        0
    }
}

impl<'a> Chance for CountedChance<'a> {
    fn draw(&mut self) -> u64 {
        self.draws.count();
        0
    }
}

/// Requests that take no block, so that no cache is to be emptied behind them.
const FOUR: &str = "run h --workers 1 --sum
< get 0
< del 1
< get 2
< get 9
>* run closed";

/// Makes the run, and asserts that each draw is a request's.
fn draw_inside(rt: &(impl Abort + AllocGlobal + Threads + Wait + Sync)) -> Result<(), Fail> {
    let draws = Draws::new();
    let mut images = store_of(rt.alloc(), "4")?;
    let mut chances = CountedChances { draws: &draws };
    let ended = make(rt, &mut images, FOUR, &draws, &mut chances);
    must_hold(rt, ends_as_told(FOUR, ended), "it is run");
    must_hold(rt, draws.are_inside(), "each draw is a request's");
    Ok(())
}

#[test]
fn the_gate_is_passed_before_a_requests_first_draw(rt: HostRuntime) -> Result<(), Fail> {
    draw_inside(&rt)
}
