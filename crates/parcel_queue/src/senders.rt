//! What a worker has to send parcels to all workers.

ghost use Rattle.std.specs.Prelude.{◌≡◌, ◌<◌, MatchResult, length};
ghost use Rattle.parcel_queue.specs.Row.{ArePassesOf, changed_at, having_put};

use crate::pass::Pass;
use crate::queue::ParcelQueue;
use crate::rule::Fact;
use std::marker::Model;

/// Puts a parcel into one of the queues, with the pass in its place.
fn put_to<T, J: Fact<T>>(
    queues: &[ParcelQueue<T, J>],
    passes: &mut Vec<Pass<T>>,
    to: usize,
    parcel: T,
) -> Result<(), T>
    requires passes { ArePassesOf queues.now passes.old.items }
    requires to { to < length queues.now }
    requires fact { J.holds parcel }
    ensures passes { ArePassesOf queues.now passes.new.items }
    ensures put { MatchResult result (λ _. passes.new.items ≡ changed_at (having_put parcel) to passes.old.items)
        (λ back. (back ≡ parcel) × (passes.new.items ≡ passes.old.items)) }
{
    queues[to].try_put(&mut passes[to], parcel)
}

/// A worker's passes to the queues of all workers, in the order of the queues.
#[derive(Drop)]
pub struct Senders<'a, T, J: Fact<T>> {
    queues: &'a [ParcelQueue<T, J>],
    passes: Vec<Pass<T>>,
}

impl<'a, T, J: Fact<T>> Model for Senders<'a, T, J> {
    ghost use Rattle.parcel_queue.specs.Row.{SendersView, ArePassesOf};

    ghost Value = { SendersView T };

    ghost view = { λ s. record {
      queues = s.queues.now;
      passes = s.passes.items;
    } };

    ghost invariant = { λ s. ArePassesOf s.queues.now s.passes.items };
}

impl<'a, T, J: Fact<T>> Senders<'a, T, J> {
    /// The passes as senders to these queues.
    pub fn new(queues: &'a [ParcelQueue<T, J>], passes: Vec<Pass<T>>) -> Senders<'a, T, J>
        requires { ArePassesOf queues.now passes.items }
        ensures { (result.queues ≡ queues.now) × (result.passes ≡ passes.items) }
    {
        Senders { queues, passes }
    }

    /// Puts a parcel into one of the queues, if that can be done at once. Else it comes back, and
    /// all is as it was.
    pub fn try_put(&mut self, to: usize, parcel: T) -> Result<(), T>
        requires to { to < length self.old.queues }
        requires fact { J.holds parcel }
        ensures queues { self.new.queues ≡ self.old.queues }
        ensures put { MatchResult result (λ _. self.new.passes ≡ changed_at (having_put parcel) to self.old.passes)
            (λ back. (back ≡ parcel) × (self.new.passes ≡ self.old.passes)) }
    {
        put_to(self.queues, &mut self.passes, to, parcel)
    }

    /// The passes again.
    pub fn into_passes(self) -> Vec<Pass<T>>
        ensures passes { result.items ≡ self.entry.passes }
        ensures queues { ArePassesOf self.entry.queues result.items }
    {
        self.passes
    }
}
