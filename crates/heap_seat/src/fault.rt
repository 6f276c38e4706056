//! Why a request gets no block.
ghost use Rattle.std.specs.Prelude.{◌≡◌};
ghost use Rattle.heap_seat.specs.declared.fault.AllocFault.TheVariants.{Stopped as StoppedFault};

use line_memory::Stopped;

/// What a refused request read last: the two list heads and the mark of taken superblocks. A
/// request that is too large for a class reads no head, and has 0 there.
#[derive(Clone, Copy, PartialEq, Eq, Debug)]
pub struct Looks {
    /// The head of the list of the class: superblocks of it with free blocks.
    pub class_head: u64,
    /// The head of the list of free superblocks.
    pub free_head: u64,
    /// How many superblocks had been taken.
    pub used: u64,
}

/// The answers of `alloc` other than a block.
#[derive(Clone, Copy, PartialEq, Eq, Debug)]
pub enum AllocFault {
    /// There is no room: these words said so.
    Full(Looks),
    /// The budget of steps is used up.
    Stopped(Stopped),
}

impl From<Stopped> for AllocFault {
    ghost from_gives = { λ stopped fault. fault ≡ StoppedFault stopped };

    fn from(stopped: Stopped) -> AllocFault {
        AllocFault::Stopped(stopped)
    }
}
