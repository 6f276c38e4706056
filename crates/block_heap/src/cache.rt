//! The free blocks that a thread keeps for itself.

/// Free blocks of one class in a chain: the first word of the first one, and how many there are.
#[derive(Clone, Copy)]
pub(crate) struct Cache {
    pub(crate) first: u64,
    pub(crate) count: u64,
}
