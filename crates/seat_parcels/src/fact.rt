//! What is so of each parcel in the queues of one heap, and which queues these are.

use crate::parcel::Parcel;
use parcel_queue::Fact;
use std::marker::{Brand, PhantomData};

/// Which table the heap has, for the proof alone: a call picks it, with `Brand`.
pub trait HeapOf {
    ghost use Rattle.atomic_table.specs.Seated.{TableId};

    ghost table: { TableId };
}

impl HeapOf for Brand {
    ghost use Rattle.std.specs.Prelude.{[]};

    ghost table = { record { words = 0; slots = 0; views_name = 0; atom = 0; block = 0; offset = 0; slot_names = [] } };
}

/// Which queues the workers have, for the proof alone: a call picks them, with `Brand`, once they are
/// made. So a box is known to be one to these queues, whatever was sent by it.
pub trait QueuesOf {
    ghost use Rattle.std.specs.Prelude.{List};
    ghost use Rattle.parcel_queue.specs.Account.{QueueView};

    ghost queues: { List QueueView };
}

impl QueuesOf for Brand {
    ghost use Rattle.std.specs.Prelude.{[]};

    ghost queues = { [] };
}

/// Each parcel has a node, which a seat of the heap may accept.
pub struct OfHeap<J: HeapOf> {
    heap: PhantomData<J>,
}

impl<J: HeapOf> Fact<Parcel> for OfHeap<J> {
    ghost use Rattle.seat_parcels.specs.Parcels.{IsParcelOf};

    ghost holds = { IsParcelOf J.table };
}
