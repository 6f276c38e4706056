//! A queue of carriers: each is of the same heap.

ghost use Rattle.std.specs.Prelude.{◌≡◌, ◌<◌, IfErr, IfSome};
ghost use Rattle.crossbeam_queue.specs.Passes.{IsPassOf};

use crossbeam_queue::protocol::{Outcome, Protocol};
use crossbeam_queue::{Pass, RuledArrayQueue};
use heap_rule::Carrier;
use std::alloc::{AllocError, Global};
use std::marker::{Brand, PhantomData};

/// Which heap it is, for the proof alone.
pub trait Run {
    ghost use Rattle.atomic_table.specs.Seated.{TableId};

    ghost table: { TableId };
}

impl Run for Brand {
    ghost use Rattle.handing_tests.specs.Handing.{no_table};

    ghost table = { no_table };
}

/// The rule of a queue: each carrier is of the run's heap.
pub struct OfRun<J: Run> {
    marker: PhantomData<J>,
}

impl<J: Run> Protocol<Carrier, ()> for OfRun<J> {
    ghost use Rattle.handing_tests.specs.Handing.{AreAllAt};

    ghost holds = { λ items views. AreAllAt J.table items };

    ghost first = { tt };
}

/// What a carrier that is put or taken is.
pub struct Comes<J: Run> {
    marker: PhantomData<J>,
}

impl<J: Run> Outcome<Carrier, ()> for Comes<J> {
    ghost use Rattle.std.specs.Prelude.{◌≡◌};

    ghost then = { λ v x w. x.table ≡ J.table };
}

pub type Queue<J> = RuledArrayQueue<Carrier, (), OfRun<J>>;

pub type Ticket = Pass<Carrier, ()>;

/// A queue with room for so many carriers.
pub fn queue<J: Run>(alloc: Global, room: usize) -> Result<Queue<J>, AllocError>
    requires { 0 < room }
{
    let (line, _pass) = Queue::<J>::ruled(alloc, room)?;
    Ok(line)
}

/// A pass of the queue.
pub fn pass_of<J: Run>(line: &Queue<J>) -> Ticket
    ensures { IsPassOf line.now result }
{
    line.pass()
}

/// Puts a carrier, if that can be done at once. Else it comes back.
pub fn try_put<J: Run>(line: &Queue<J>, pass: &mut Ticket, carrier: Carrier) -> Result<(), Carrier>
    requires pass { IsPassOf line.now pass.old }
    requires of { carrier.table ≡ J.table }
    ensures pass { IsPassOf line.now pass.new }
    ensures back { IfErr result (λ x. x ≡ carrier) }
{
    line.try_push_as::<Comes<J>>(pass, carrier)
}

/// Takes the oldest carrier, if that can be done at once.
pub fn try_take<J: Run>(line: &Queue<J>, pass: &mut Ticket) -> Option<Carrier>
    requires pass { IsPassOf line.now pass.old }
    ensures pass { IsPassOf line.now pass.new }
    ensures of { IfSome result (λ x. x.table ≡ J.table) }
{
    line.try_pop_as::<Comes<J>>(pass)
}
