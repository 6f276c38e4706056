//! Whose each small block is.

/// Where a seat has a small block.
#[derive(Clone, Copy)]
pub enum BlockPlace {
    /// It has it not.
    Nowhere,
    /// It holds it.
    Held,
    /// In a cache.
    Cached,
    /// In its batch.
    Batched,
}

/// Whose the small block is that begins at a word, and where that seat has it.
#[derive(Clone, Copy)]
pub struct BlockOwner {
    pub seat: usize,
    pub place: BlockPlace,
}
