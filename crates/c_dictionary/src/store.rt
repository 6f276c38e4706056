//! A dictionary that is open.

use block_heap::SeqHeap;
use line_memory::ConstantChance;
use std::collections::BTreeSet;

/// How many steps it takes before it stops.
pub const BUDGET: u64 = (1 << 40) - 1;

/// A dictionary that is open, over a heap for one thread.
#[derive(Drop)]
pub struct Store {
    /// The heap.
    pub heap: SeqHeap<ConstantChance>,
    /// The keys, in order.
    pub keys: BTreeSet<u64>,
    /// How many bytes its image has.
    pub length: u64,
}
