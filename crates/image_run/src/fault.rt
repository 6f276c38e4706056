//! Why a replay prints nothing.
ghost use Rattle.std.specs.Prelude.{◌≡◌};
ghost use Rattle.image_run.specs.declared.fault.ReplayFault.TheVariants.{Memory};

use std::alloc::AllocError;

/// Why a replay prints nothing.
#[derive(Clone, Copy, PartialEq, Eq, Debug)]
pub enum ReplayFault {
    /// A word of the image that the crash left is neither null nor a pointer to the first byte of a
    /// block, where it has to be.
    Outside {
        /// The index of that word in the image.
        at: u64,
        /// What stands there.
        value: u64,
    },
    /// Memory ran out.
    Memory,
}

impl From<AllocError> for ReplayFault {
    ghost from_gives = { λ _ fault. fault ≡ Memory };

    fn from(_error: AllocError) -> ReplayFault {
        ReplayFault::Memory
    }
}
