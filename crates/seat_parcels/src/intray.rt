//! What has come for a worker.

ghost use Rattle.std.specs.Prelude.{◌≡◌, IfOk, map};

use crate::parcel::Parcel;
use heap_rule::Carrier;
use std::alloc::{AllocError, Global};
use std::collections::VecDeque;
use std::marker::{Brand, Model, PhantomData};

/// How many parcels came for a worker, for the proof alone: a call picks it, with `Brand`. So it is
/// known how many were brought in, wherever that ended.
pub trait ArrivalsOf {
    ghost use Rattle.std.specs.Prelude.{ℕ};

    ghost came: { ℕ };
}

impl ArrivalsOf for Brand {
    ghost came = { 0 };
}

/// Of the parcels that came for a worker those that are left, in the order in which they are to be
/// brought in.
#[derive(Drop)]
pub struct InTray<K: ArrivalsOf> {
    pub(crate) left: VecDeque<Parcel>,
    of: PhantomData<K>,
}

impl<K: ArrivalsOf> Model for InTray<K> {
    ghost use Rattle.std.specs.Prelude.{List};
    ghost use Rattle.seat_parcels.specs.declared.parcel.Parcel.{Parcel};

    ghost Value = { List Parcel };

    ghost view = { λ t. t.left.items };
}

impl<K: ArrivalsOf> InTray<K> {
    /// A tray with these parcels.
    pub fn new(parcels: Vec<Parcel>) -> InTray<K>
        ensures { result ≡ parcels.items }
    {
        InTray {
            left: VecDeque::from_vec(parcels),
            of: PhantomData,
        }
    }

    /// The carriers that are left, in the same order.
    pub fn into_carriers(self, alloc: Global) -> Result<Vec<Carrier>, AllocError>
        ensures { IfOk result (λ carriers. carriers.items ≡ map (λ p. p.carrier) self) }
    {
        let mut left = self.left;
        let mut carriers = Vec::with_capacity(alloc, left.len())?;
        while let Some(parcel) = left.pop_front() {
            carriers.push_reserved(parcel.carrier);
        }
        Ok(carriers)
    }
}
