//! How what a root leads to counts: as one of a filter's kinds, or as a block of no filter.
ghost use Rattle.std.specs.Prelude.{◌≡◌, ◌≤◌};
ghost use Rattle.mixed_trace.specs.Reach.{FitsBelow};
ghost use Rattle.mixed_trace.specs.Codes.{code};
ghost use Rattle.mixed_trace.specs.Recovery.{stored_kind};

/// How a block counts that a root or a word leads to.
#[derive(Clone, Copy, PartialEq, Eq, Debug)]
pub enum Mode {
    /// As one of the kind: its links are those that the filter lists.
    Kind(u32),
    /// As one of no filter: each of its words that names a block is a link, and the block that it
    /// names counts so too.
    All,
}

impl Mode {
    /// The mode that the set of pairs knows by the number, where the filter's kinds lie below
    /// `limit`: a kind by itself, and the mode of no filter by `limit`.
    pub(crate) fn from_code(limit: u32, number: u32) -> Mode
        ensures { (mode : Mode) → FitsBelow limit mode → number ≡ code limit mode
            → result ≡ mode }
    {
        if number < limit {
            Mode::Kind(number)
        } else {
            Mode::All
        }
    }

    /// The kind that an image stores for a root of the mode.
    pub(crate) fn stored_kind(self) -> u32
        ensures { result ≡ stored_kind self }
    {
        match self {
            Mode::Kind(kind) => kind,
            Mode::All => 0,
        }
    }
}
