//! The two ends at which a thread takes carriers out of one queue, and puts them into another.

ghost use Rattle.std.specs.Prelude.{◌≡◌, IfErr, IfOk};
ghost use Rattle.crossbeam_queue.specs.Passes.{IsPassOf};
ghost use Rattle.handing_tests.specs.Handing.{AreAt};

use crate::hand::Halt;
use crate::queue::{Queue, Run, Ticket, pass_of, try_put, try_take};
use heap_rule::Carrier;
use std::collections::VecDeque;
use std::thread;

/// How often a thread looks into a queue, at most, until a carrier comes or goes.
const MOST_LOOKS: u64 = 100_000_000;

/// Takes the oldest carrier out of a queue. It looks a bounded number of times whether there is one.
fn take_one<J: Run>(line: &Queue<J>, pass: &mut Ticket) -> Result<Carrier, Halt>
    requires { IsPassOf line.now pass.old }
    ensures pass { IsPassOf line.now pass.new }
    ensures of { IfOk result (λ carrier. carrier.table ≡ J.table) }
{
    for _ in 0..MOST_LOOKS {
        if let Some(carrier) = try_take(line, pass) {
            return Ok(carrier);
        }
        thread::yield_now();
    }
    Err(Halt::Failed("a thread waited in vain for a carrier"))
}

/// Puts a carrier into a queue, or gives it back. It looks a bounded number of times whether it can.
fn put_one<J: Run>(line: &Queue<J>, pass: &mut Ticket, carrier: Carrier) -> Result<(), Carrier>
    requires pass { IsPassOf line.now pass.old }
    requires of { carrier.table ≡ J.table }
    ensures pass { IsPassOf line.now pass.new }
    ensures back { IfErr result (λ carrier. carrier.table ≡ J.table) }
{
    let mut left = carrier;
    for _ in 0..MOST_LOOKS {
        match try_put(line, pass, left) {
            Ok(()) => return Ok(()),
            Err(carrier) => left = carrier,
        }
        thread::yield_now();
    }
    Err(left)
}

/// Puts all carriers into a queue, the oldest one first.
fn put_all<J: Run>(
    line: &Queue<J>,
    pass: &mut Ticket,
    carriers: &mut VecDeque<Carrier>,
) -> Result<(), Halt>
    requires pass { IsPassOf line.now pass.old }
    requires at { AreAt J.table carriers.old.items }
    ensures pass { IsPassOf line.now pass.new }
    ensures at { AreAt J.table carriers.new.items }
{
    while let Some(carrier) = carriers.pop_front() {
        if let Err(carrier) = put_one(line, pass, carrier) {
            carriers.push_front(carrier)?;
            return Err(Halt::Failed("a thread waited in vain for room"));
        }
    }
    Ok(())
}

/// A thread's two ends: it takes carriers out of one queue, and puts them into the other one.
#[derive(Drop)]
pub struct Ends<'a, J: Run> {
    takes_from: &'a Queue<J>,
    takes: Ticket,
    puts_to: &'a Queue<J>,
    puts: Ticket,
    ghost taking: { IsPassOf takes_from.now takes },
    ghost putting: { IsPassOf puts_to.now puts },
}

impl<'a, J: Run> Ends<'a, J> {
    /// The ends of a thread at two queues.
    pub fn new(takes_from: &'a Queue<J>, puts_to: &'a Queue<J>) -> Ends<'a, J> {
        Ends {
            takes_from,
            takes: pass_of(takes_from),
            puts_to,
            puts: pass_of(puts_to),
        }
    }

    /// Takes a carrier.
    pub fn take(&mut self) -> Result<Carrier, Halt>
        ensures { IfOk result (λ carrier. carrier.table ≡ J.table) }
    {
        take_one(self.takes_from, &mut self.takes)
    }

    /// Puts all carriers, the oldest one first.
    pub fn put(&mut self, carriers: &mut VecDeque<Carrier>) -> Result<(), Halt>
        requires { AreAt J.table carriers.old.items }
        ensures { AreAt J.table carriers.new.items }
    {
        put_all(self.puts_to, &mut self.puts, carriers)
    }
}
