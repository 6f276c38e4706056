//! What is kept of a seat beside what is its own: its tickets and snapshots, and the ends of its
//! caches and of its batch.

ghost use Rattle.std.specs.Prelude.{◌≡◌, cond, nat_eq, false};
ghost use Rattle.core_model.specs.Effects.{cleared};
ghost use Rattle.seat_state.specs.Notes.{snapshot};

use super_block::LISTS;

/// A head or an anchor as it was seen: of which list or superblock, and the word.
#[derive(Clone, Copy)]
pub struct Seen {
    pub of: u64,
    pub word: u64,
}

/// Blocks that lead along one another: the first, and how many there are.
#[derive(Clone, Copy)]
pub struct Cache {
    pub first: u64,
    pub count: u64,
}

/// The ends of a batch: of blocks of one superblock on their way to its anchor.
#[derive(Clone, Copy)]
pub struct BatchEnds {
    pub descriptor: u64,
    pub class: u64,
    pub first: u64,
    pub last: u64,
    pub count: u64,
    /// No store has changed the last one's link since it came from the cache.
    pub linked: bool,
}

/// What is kept of a seat beside what is its own.
#[derive(Clone, Copy)]
pub struct SeatNotes {
    /// The ticket in hand, and the one at which it stopped.
    pub ticket: Option<u64>,
    pub stopped: Option<u64>,
    /// What later exchanges compare with.
    pub seen_used: Option<u64>,
    pub seen_head: Option<Seen>,
    pub seen_link: Option<u64>,
    pub seen_anchor: Option<Seen>,
    /// The cache of each class.
    pub caches: [Cache; LISTS as usize],
    pub batch: BatchEnds,
}

impl Seen {
    /// The snapshot, unless it is of one of `n` numbers from one on.
    pub fn cleared(seen: Option<Seen>, from: u64, n: u64) -> Option<Seen>
        ensures { snapshot result ≡ cleared from n (snapshot seen) }
    {
        let Some(seen) = seen else {
            return None;
        };
        if seen.of < from {
            return Some(seen);
        }
        if seen.of - from < n { None } else { Some(seen) }
    }
}

impl BatchEnds {
    /// The first block once another is behind the last.
    pub fn first_with(self, block: u64) -> u64
        ensures { result ≡ cond (nat_eq self.count 0) block self.first }
    {
        if self.count == 0 { block } else { self.first }
    }

    /// Whether the last block's link stands after a store to a word: one to the block's first word
    /// ends it.
    pub fn is_linked_after(&self, word: u64) -> bool
        ensures { result ≡ cond (nat_eq word self.now.last) false self.now.linked }
    {
        self.linked && word != self.last
    }

    /// The batch after a store to a word.
    pub fn stored(self, word: u64) -> BatchEnds
        ensures { result ≡ record self { linked = cond (nat_eq word self.last) false self.linked } }
    {
        BatchEnds {
            linked: self.is_linked_after(word),
            ..self
        }
    }
}

/// A batch of no blocks.
pub const NO_BATCH: BatchEnds = BatchEnds {
    descriptor: 0,
    class: 0,
    first: 0,
    last: 0,
    count: 0,
    linked: false,
};

/// A seat that has done nothing yet.
pub const NEW_SEAT: SeatNotes = SeatNotes {
    ticket: None,
    stopped: None,
    seen_used: None,
    seen_head: None,
    seen_link: None,
    seen_anchor: None,
    caches: [Cache { first: 0, count: 0 }; LISTS as usize],
    batch: NO_BATCH,
};
