//! A queue of parcels, and what its passes do.
ghost use Rattle.std.specs.Prelude.{◌≡◌, ◌<◌, ◌+◌, All, IfOk, MatchOption, MatchResult, OnOk, sum_by};
ghost use Rattle.parcel_queue.specs.Account.{PassView, all_joined, all_parts, joined, less_a_part, unused, with_put, with_taken};
ghost use Rattle.parcel_queue.specs.Delivery.{HasTaken, IsDelivered};

use crate::pass::Pass;
use crate::rule::{Fact, Fair, Noted, Parts, Puts, Takes};
use crossbeam_queue::RuledArrayQueue;
use std::alloc::{AllocError, Global};
use std::marker::Model;
use std::sync::Wait;

type Ring<T, J> = RuledArrayQueue<T, Noted<T>, Fair<T, J>>;

/// A queue of parcels, of each of which the fact `J` holds. Threads share it by `&`, and each has a
/// pass of its own.
#[derive(Drop)]
pub struct ParcelQueue<T, J: Fact<T>> {
    ring: Ring<T, J>,
}

impl<T, J: Fact<T>> Model for ParcelQueue<T, J> {
    ghost use Rattle.parcel_queue.specs.Account.{QueueView};

    ghost Value = { QueueView };

    ghost view = { λ q. record {
      queue = q.ring.table.shared.table_id;
      room = q.ring.cap;
    } };
}

impl<T, J: Fact<T>> ParcelQueue<T, J> {
    /// An empty queue with room for so many parcels, and the pass with all parts.
    pub fn new(alloc: Global, room: usize) -> Result<(ParcelQueue<T, J>, Pass<T>), AllocError>
        requires room { 0 < room }
        ensures room { IfOk result (λ made. made.0.room ≡ room) }
        ensures queue { IfOk result (λ made. made.1.queue ≡ made.0.queue) }
        ensures account { IfOk result (λ made. made.1.account ≡ unused all_parts) }
    {
        let (ring, inner) = Ring::<T, J>::ruled(alloc, room)?;
        Ok((ParcelQueue { ring }, Pass { inner }))
    }

    /// For how many parcels there is room.
    pub fn room(&self) -> usize
        ensures { result ≡ self.now.room }
    {
        self.ring.capacity()
    }

    /// A pass more, with one part of this one.
    pub fn another(&self, pass: &mut Pass<T>) -> Pass<T>
        requires queue { pass.old.queue ≡ self.now.queue }
        requires parts { 1 < pass.old.account.parts }
        ensures queue { (pass.new.queue ≡ self.now.queue) × (result.queue ≡ self.now.queue) }
        ensures left { pass.new.account ≡ less_a_part pass.old.account }
        ensures fresh { result.account ≡ unused 1 }
    {
        let inner = self.ring.another::<Parts>(&mut pass.inner);
        Pass { inner }
    }

    /// Takes in another pass, with its parts and its account.
    pub fn absorb(&self, pass: &mut Pass<T>, other: Pass<T>)
        requires queue { (pass.old.queue ≡ self.now.queue) × (other.queue ≡ self.now.queue) }
        requires parts { 0 < pass.old.account.parts }
        ensures queue { pass.new.queue ≡ self.now.queue }
        ensures account { pass.new.account ≡ joined pass.old.account other.account }
    {
        self.ring.absorb::<Parts>(&mut pass.inner, other.inner);
    }

    /// Takes in all these passes, the first one first.
    pub fn absorb_all(&self, pass: &mut Pass<T>, others: Vec<Pass<T>>)
        requires queue { pass.old.queue ≡ self.now.queue }
        requires queues { All (λ other. other.queue ≡ self.now.queue) others.items }
        requires parts { 0 < pass.old.account.parts }
        ensures queue { pass.new.queue ≡ self.now.queue }
        ensures account { pass.new.account ≡ all_joined pass.old.account others.items }
        ensures parts { pass.new.account.parts
            ≡ pass.old.account.parts + sum_by (λ other. other.account.parts) others.items }
    {
        for other in others {
            self.absorb(pass, other);
        }
    }

    /// Puts a parcel, if that can be done at once. Else it comes back, and the pass is as it was.
    pub fn try_put(&self, pass: &mut Pass<T>, parcel: T) -> Result<(), T>
        requires queue { pass.old.queue ≡ self.now.queue }
        requires parts { 0 < pass.old.account.parts }
        requires fact { J.holds parcel }
        ensures queue { pass.new.queue ≡ self.now.queue }
        ensures put { MatchResult result (λ _. pass.new.account ≡ with_put pass.old.account parcel)
            (λ back. (back ≡ parcel) × (pass.new.account ≡ pass.old.account)) }
    {
        self.ring.try_push_as::<Puts>(&mut pass.inner, parcel)
    }

    /// Takes the oldest parcel. `None` only if the queue was empty at one moment: with the pass that
    /// has all parts, all that was put has then been taken.
    pub fn take<R: Wait>(&self, rt: &R, pass: &mut Pass<T>) -> Option<T>
        requires queue { pass.old.queue ≡ self.now.queue }
        requires parts { 0 < pass.old.account.parts }
        ensures queue { pass.new.queue ≡ self.now.queue }
        ensures taken { MatchOption result
            ((pass.new.account ≡ pass.old.account)
            × (pass.new.account.parts ≡ all_parts → IsDelivered pass.new.account))
            (λ parcel. J.holds parcel × (pass.new.account ≡ with_taken pass.old.account parcel)) }
    {
        self.ring.pop_as::<Takes<J>, R>(rt, &mut pass.inner)
    }

    /// Takes parcels until there is none, and lays them behind those that are there. `Err` where
    /// memory is short: what was taken until then is there, and the others are still in the queue.
    pub fn take_all<R: Wait>(
        &self,
        rt: &R,
        pass: &mut Pass<T>,
        into: &mut Vec<T>,
    ) -> Result<(), AllocError>
        requires queue { pass.old.queue ≡ self.now.queue }
        requires parts { 0 < pass.old.account.parts }
        ensures queue { pass.new.queue ≡ self.now.queue }
        ensures taken { HasTaken J.holds pass.old.account pass.new.account into.old.items into.new.items }
        ensures facts { All J.holds into.old.items → All J.holds into.new.items }
        ensures all { OnOk result (pass.new.account.parts ≡ all_parts → IsDelivered pass.new.account) }
    {
        for _ in rt.forever() {
            into.reserve(1)?;
            match self.take(rt, pass) {
                Some(parcel) => into.push_reserved(parcel),
                None => return Ok(()),
            }
        }
        unreachable!()
    }
}
