//! What a seat may do next: one atomic step on one word, or what needs no word.

/// A change of a seat's own parts, which goes with a draw. A block is told by its first word.
#[derive(Clone, Copy, PartialEq, Eq, Debug)]
pub enum Shift {
    /// Puts all blocks of a superblock that was made ready into the cache of its class.
    Cut { d: u64 },
    /// Holds the first block of the cache.
    Alloc { class: u64 },
    /// Puts a held small block in front of the cache of its class.
    Free { block: u64 },
    /// Moves the first block of the cache behind the batch.
    Lift { class: u64 },
    /// Holds a large block that takes `n` claimed superblocks.
    Large { d: u64, n: u64 },
    /// Claims the superblocks of a held large block.
    Split { block: u64 },
}

/// A step of a seat, of which each but the draw and the settling uses up a ticket.
#[derive(Clone, Copy, PartialEq, Eq, Debug)]
pub enum Event {
    /// Draws a ticket.
    Tick { shift: Option<Shift> },
    /// Loads a word of its own.
    Load { word: u64 },
    /// Stores to a word of its own.
    Store { word: u64, value: u64 },
    /// A word of its own becomes durable.
    Settle { word: u64 },
    /// Reads the mark below which superblocks have been taken.
    LookUsed,
    /// Takes superblocks that were never taken.
    TakeFresh { n: u64 },
    /// Makes the mark durable as far as it was read.
    KeepUsed,
    /// Reads the head of a list.
    LookHead { list: u64 },
    /// Reads the link of the list's first descriptor.
    LookLink,
    /// Claims the list's first descriptor.
    Pop,
    /// Puts a claimed descriptor in front of the list.
    Push { d: u64 },
    /// Reads an anchor.
    LookAnchor { d: u64 },
    /// Takes all free blocks of a superblock into the cache.
    TakeAll { d: u64 },
    /// Gives the batch back to its superblock.
    Give { d: u64 },
}
