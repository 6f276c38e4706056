//! What recovery gives back.
ghost use Rattle.std.specs.Prelude.{◌<◌, AllPairs};

use super_block::Ready;

/// Whether the image was closed.
#[derive(Clone, Copy, PartialEq, Eq, Debug)]
pub enum Was {
    /// It was closed.
    Clean,
    /// It was left open, as by a crash.
    Dirty,
}

/// What recovery gives back.
#[derive(Drop)]
pub struct Recovered {
    /// The heap, in which exactly the reached blocks are held.
    pub heap: Ready,
    /// Whether the image was closed.
    pub was: Was,
    /// The superblocks that have been taken and hold no part of a reached block, in order.
    pub free: Vec<u32>,
    pub ghost in_order: { AllPairs (λ d e. d < e) free.items },
}
