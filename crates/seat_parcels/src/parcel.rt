//! What goes through the queues.

use heap_rule::Carrier;

/// A node on its way: the number of the request that moved it, the key that is to have its value,
/// and the carrier that has it.
///
/// One that is dropped loses its carrier's block, as a carrier does.
#[derive(Drop)]
pub struct Parcel {
    pub number: usize,
    pub key: u64,
    pub carrier: Carrier,
}
