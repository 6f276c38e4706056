//! What one thread has of a queue of parcels.
ghost use Rattle.std.specs.Prelude.{◌≡◌, []};

use crate::rule::Noted;
use std::marker::Model;

pub(crate) type InnerPass<T> = crossbeam_queue::Pass<T, Noted<T>>;

/// The right of one thread to put parcels into a queue, and to take some out. It has no bytes, and
/// keeps account of what went through it.
#[derive(Drop)]
pub struct Pass<T> {
    pub(crate) inner: InnerPass<T>,
    ghost no_slot: { inner.me.1 ≡ [] },
}

impl<T> Model for Pass<T> {
    ghost use Rattle.parcel_queue.specs.Account.{PassView};

    ghost Value = { PassView T };

    ghost view = { λ p. record {
      queue = p.inner.table_id;
      account = p.inner.me.0.client;
    } };
}
