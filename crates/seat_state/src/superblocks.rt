//! Whose each superblock is, and what that seat has of it.

ghost use Rattle.std.specs.Prelude.{◌≡◌, ◌+◌};
ghost use Rattle.heap_model.specs.Counting.{one_if};
ghost use Rattle.seat_state.specs.Superblocks.{raw_in, split_in, cutting_in, classed_in, large_in, count_in, listed, anchored};

use super_block::FREE_LIST;

/// What a seat has of a superblock, and uses it for.
#[derive(Clone, Copy)]
pub enum SuperblockUsage {
    /// Nothing.
    Nothing,
    /// It claims it, without a class.
    Raw,
    /// It claims it since it split a large block.
    Split,
    /// It claims it, and makes its blocks.
    Cutting,
    /// It claims it, with a class.
    Classed { class: u64 },
    /// A large block takes it: the first part has how many there are, the others 0.
    Large { count: u64 },
}

/// Whose a superblock is, and what that seat has of it.
#[derive(Clone, Copy)]
pub struct SuperblockOwner {
    pub seat: usize,
    pub usage: SuperblockUsage,
}

/// A superblock that nobody has.
pub(crate) const NO_SUPERBLOCK: SuperblockOwner = SuperblockOwner {
    seat: 0,
    usage: SuperblockUsage::Nothing,
};

impl SuperblockUsage {
    /// Whether it is a claim without a class, in whatever state.
    pub fn is_unclassed(self) -> bool
        ensures { one_if result ≡ raw_in self + split_in self + cutting_in self }
    {
        match self {
            SuperblockUsage::Raw | SuperblockUsage::Split | SuperblockUsage::Cutting => true,
            SuperblockUsage::Nothing
            | SuperblockUsage::Classed { .. }
            | SuperblockUsage::Large { .. } => false,
        }
    }

    /// Whether it is a claim of a superblock whose blocks are not being made: such a one may go to
    /// a list.
    pub fn is_freely_claimed(self) -> bool
        ensures { one_if result ≡ raw_in self + split_in self + classed_in self }
    {
        match self {
            SuperblockUsage::Raw | SuperblockUsage::Split | SuperblockUsage::Classed { .. } => true,
            SuperblockUsage::Nothing | SuperblockUsage::Cutting | SuperblockUsage::Large { .. } =>
                false,
        }
    }

    /// Whether it is a claim at all.
    pub fn is_claimed(self) -> bool
        ensures { one_if result ≡ raw_in self + split_in self + cutting_in self + classed_in self }
    {
        match self {
            SuperblockUsage::Raw
            | SuperblockUsage::Split
            | SuperblockUsage::Cutting
            | SuperblockUsage::Classed { .. } => true,
            SuperblockUsage::Nothing | SuperblockUsage::Large { .. } => false,
        }
    }

    /// Whether all words of the superblock are the seat's: of a claim without a class, or of a
    /// large block.
    pub fn has_words(self) -> bool
        ensures { one_if result ≡ raw_in self + split_in self + cutting_in self + large_in self }
    {
        match self {
            SuperblockUsage::Raw
            | SuperblockUsage::Split
            | SuperblockUsage::Cutting
            | SuperblockUsage::Large { .. } => true,
            SuperblockUsage::Nothing | SuperblockUsage::Classed { .. } => false,
        }
    }

    /// Whether it is a claim with a class.
    pub fn is_classed(self) -> bool
        ensures { one_if result ≡ classed_in self }
    {
        match self {
            SuperblockUsage::Classed { .. } => true,
            SuperblockUsage::Nothing
            | SuperblockUsage::Raw
            | SuperblockUsage::Split
            | SuperblockUsage::Cutting
            | SuperblockUsage::Large { .. } => false,
        }
    }

    /// What a seat has of a superblock that comes from a list.
    pub fn listed(list: u64) -> SuperblockUsage
        ensures { result ≡ listed list }
    {
        if list == FREE_LIST {
            SuperblockUsage::Raw
        } else {
            SuperblockUsage::Classed { class: list }
        }
    }

    /// What a seat has of its own superblock after a store to the anchor.
    pub fn anchored(value: u64) -> SuperblockUsage
        ensures { result ≡ anchored value }
    {
        if value == 0 {
            SuperblockUsage::Raw
        } else {
            SuperblockUsage::Cutting
        }
    }

    /// How many superblocks the large block that begins there takes; 0 where none does.
    pub fn large_count(self) -> u64
        ensures { result ≡ count_in self }
    {
        match self {
            SuperblockUsage::Large { count } => count,
            SuperblockUsage::Nothing
            | SuperblockUsage::Raw
            | SuperblockUsage::Split
            | SuperblockUsage::Cutting => 0,
            SuperblockUsage::Classed { .. } => 0,
        }
    }

    /// Whether its blocks are being made.
    pub fn is_cutting(self) -> bool
        ensures { one_if result ≡ cutting_in self }
    {
        match self {
            SuperblockUsage::Cutting => true,
            SuperblockUsage::Nothing
            | SuperblockUsage::Raw
            | SuperblockUsage::Split
            | SuperblockUsage::Classed { .. } => false,
            SuperblockUsage::Large { .. } => false,
        }
    }
}
