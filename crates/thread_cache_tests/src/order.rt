//! An order in which two seats draw, each in a thread of its own: so one acts between two steps of a
//! call of the other.
//!
//! It is told as a text: in `3 12` the first seat draws three times, then the second one twelve
//! times, and then the first one to its end; `-` is its turn from the beginning. Where one seat has
//! come to its end the other one goes on. A seat asks chance for a number at each draw, and is held
//! there until its turn.

use line_memory::Chance;
use std::alloc::{AllocError, Global};
use std::sync::atomic::{AtomicU64, Ordering};
use std::thread;

/// How often a seat looks whether it is its turn, at most.
const MOST_LOOKS: u64 = 100_000_000;

/// What is known of a seat.
#[derive(Drop)]
struct Side {
    draws: AtomicU64,
    ended: AtomicU64,
}

impl Side {
    fn new() -> Self {
        Side {
            draws: AtomicU64::new(0),
            ended: AtomicU64::new(0),
        }
    }
}

/// The order, and how far both seats have come.
#[derive(Drop)]
pub struct Order {
    /// How many draws are one seat's, in turn.
    turns: Vec<u64>,
    first: Side,
    second: Side,
    /// How many draws are over, with the steps behind them.
    over: AtomicU64,
    /// 1 where a seat waited in vain.
    missed: AtomicU64,
}

fn turns_of(alloc: Global, told: &str) -> Result<Vec<u64>, AllocError> {
    let mut turns = Vec::new(alloc);
    for word in told.split(' ') {
        turns.push(word.parse::<u64>().unwrap_or(u64::MAX))?;
    }
    Ok(turns)
}

impl Order {
    /// The order that a text tells. What is no number stands for all further draws.
    pub fn new(alloc: Global, told: &str) -> Result<Self, AllocError> {
        Ok(Order {
            turns: turns_of(alloc, told)?,
            first: Side::new(),
            second: Side::new(),
            over: AtomicU64::new(0),
            missed: AtomicU64::new(0),
        })
    }

    fn side(&self, is_first: bool) -> &Side {
        if is_first { &self.first } else { &self.second }
    }

    /// How often a seat has drawn.
    pub fn draws(&self, is_first: bool) -> u64 {
        self.side(is_first).draws.load(Ordering::SeqCst)
    }

    /// Whether no seat waited in vain.
    pub fn was_kept(&self) -> bool {
        self.missed.load(Ordering::SeqCst) == 0
    }

    /// A seat draws no more.
    pub fn end(&self, is_first: bool) {
        self.side(is_first).ended.store(1, Ordering::SeqCst);
    }

    /// Whether the draw behind so many is the first seat's, by the text.
    fn is_firsts(&self, over: u64) -> bool {
        let mut before = over;
        let mut is_first = true;
        for count in &self.turns {
            if before < *count {
                return is_first;
            }
            before = before.saturating_sub(*count);
            is_first = !is_first;
        }
        is_first
    }

    fn may_draw(&self, is_first: bool) -> bool {
        self.side(!is_first).ended.load(Ordering::SeqCst) == 1
            || self.is_firsts(self.over.load(Ordering::SeqCst)) == is_first
    }

    /// Waits until it is the seat's turn, but not for ever.
    fn wait(&self, is_first: bool) {
        for _ in 0..MOST_LOOKS {
            if self.may_draw(is_first) {
                self.side(is_first).draws.fetch_add(1, Ordering::SeqCst);
                return;
            }
            thread::yield_now();
        }
        self.missed.store(1, Ordering::SeqCst);
    }

    /// A seat that is at work ends its turn, and waits for the next one.
    fn step(&self, is_first: bool, is_at_work: bool) {
        if is_at_work {
            self.over.fetch_add(1, Ordering::SeqCst);
        }
        self.wait(is_first);
    }
}

/// The chance of a seat that keeps to an order, or to none.
#[derive(Drop)]
pub struct Turn<'a> {
    order: Option<&'a Order>,
    is_first: bool,
    is_at_work: bool,
    drawn: u64,
}

impl<'a> Turn<'a> {
    /// It gives this number at each draw.
    pub fn new(order: Option<&'a Order>, is_first: bool, drawn: u64) -> Self {
        Turn {
            order,
            is_first,
            is_at_work: false,
            drawn,
        }
    }
}

impl<'a> Chance for Turn<'a> {
    fn draw(&mut self) -> u64 {
        if let Some(order) = self.order {
            order.step(self.is_first, self.is_at_work);
        }
        self.is_at_work = true;
        self.drawn
    }
}
