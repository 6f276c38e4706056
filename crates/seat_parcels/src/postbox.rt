//! Where a worker's nodes go: into the queues of the workers that they are for.

ghost use Rattle.std.specs.Prelude.{◌≡◌, true, false, ◌∷◌, ◌+◌, ◌-◌, ◌≤◌, All, length};
ghost use Rattle.std.specs.Vec.{vec_capacity, vec_len};
ghost use Rattle.std.specs.List.Sorted.{IsPermutation};
ghost use Rattle.parcel_queue.specs.Row.{ArePassesOf};
ghost use Rattle.seat_parcels.specs.Boxes.{ArePutRightly, HaveParts, parcels_of};
ghost use Rattle.seat_parcels.specs.Parcels.{IsParcelOf};

use crate::fact::{HeapOf, OfHeap, QueuesOf};
use crate::parcel::Parcel;
use crate::sorting::worker_for;
use parcel_queue::{ParcelQueue, Pass, Senders};
use std::marker::{Model, PhantomData};

/// The queue of one worker, whose parcels are of one heap.
pub type Post<J> = ParcelQueue<Parcel, OfHeap<J>>;

/// What a worker sends by: its passes to the queues of all workers, and room for the parcels that
/// no queue takes.
#[derive(Drop)]
pub struct PostBox<'a, J: HeapOf, Q: QueuesOf> {
    senders: Senders<'a, Parcel, OfHeap<J>>,
    kept: Vec<Parcel>,
    workers: usize,
    to: PhantomData<Q>,
}

impl<'a, J: HeapOf, Q: QueuesOf> Model for PostBox<'a, J, Q> {
    ghost use Rattle.std.specs.Prelude.{◌-◌};
    ghost use Rattle.std.specs.Vec.{vec_capacity, vec_len};
    ghost use Rattle.seat_parcels.specs.Boxes.{BoxView, IsPostBox};

    ghost Value = { BoxView };

    ghost view = { λ b. record {
      queues = b.senders.queues;
      passes = b.senders.passes;
      kept = b.kept.items;
      spare = vec_capacity b.kept - vec_len b.kept;
      workers = b.workers;
    } };

    ghost invariant = { λ b. IsPostBox J.table Q.queues (record {
      queues = b.senders.queues;
      passes = b.senders.passes;
      kept = b.kept.items;
      spare = vec_capacity b.kept - vec_len b.kept;
      workers = b.workers;
    }) };
}

impl<'a, J: HeapOf, Q: QueuesOf> PostBox<'a, J, Q> {
    /// A box over these passes, with the free room of `kept`. Each parcel that was put with them went
    /// to its worker.
    pub fn new(
        queues: &'a [Post<J>],
        passes: Vec<Pass<Parcel>>,
        kept: Vec<Parcel>,
        workers: usize,
    ) -> PostBox<'a, J, Q>
        requires workers { 1 ≤ workers }
        requires queues { queues.now ≡ Q.queues }
        requires each { length queues.now ≡ workers }
        requires passes { ArePassesOf queues.now passes.items }
        requires parts { HaveParts 1 passes.items }
        requires rightly { ArePutRightly workers 0 passes.items }
        requires kept { All (IsParcelOf J.table) kept.items }
        ensures passes { result.passes ≡ passes.items }
        ensures kept { result.kept ≡ kept.items }
        ensures spare { result.spare ≡ vec_capacity kept - vec_len kept }
        ensures workers { result.workers ≡ workers }
    {
        PostBox {
            senders: Senders::new(queues, passes),
            kept,
            workers,
            to: PhantomData,
        }
    }

    /// Whether there is room for one more parcel to be kept.
    pub(crate) fn has_room(&self) -> bool
        ensures no { result ≡ false → self.now.spare ≡ 0 }
        ensures yes { result ≡ true → 1 ≤ self.now.spare }
    {
        self.kept.len() < self.kept.capacity()
    }

    /// Puts the parcel into the queue of its worker, if that can be done at once, and else keeps it.
    pub(crate) fn put(&mut self, parcel: Parcel)
        requires room { 1 ≤ self.old.spare }
        requires fact { IsParcelOf J.table parcel }
        ensures put { IsPermutation (parcel ∷ parcels_of self.old) (parcels_of self.new) }
        ensures room { self.old.spare ≤ self.new.spare + 1 }
    {
        let to = worker_for(parcel.key, self.workers);
        match self.senders.try_put(to, parcel) {
            Ok(()) => {}
            Err(back) => self.kept.push_reserved(back),
        }
    }

    /// The passes again, and the parcels that no queue took.
    pub fn into_parts(self) -> (Vec<Pass<Parcel>>, Vec<Parcel>)
        ensures passes { result.0.items ≡ self.entry.passes }
        ensures kept { result.1.items ≡ self.entry.kept }
        ensures queues { ArePassesOf Q.queues result.0.items }
        ensures parts { HaveParts 1 result.0.items }
        ensures rightly { ArePutRightly (length Q.queues) 0 result.0.items }
        ensures each { All (IsParcelOf J.table) result.1.items }
    {
        (self.senders.into_passes(), self.kept)
    }
}
