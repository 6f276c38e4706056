//! Why a trace ends without an answer.
ghost use Rattle.std.specs.Prelude.{◌≡◌};
ghost use Rattle.filter_trace.specs.declared.fault.TraceFault.TheVariants.{Memory};

use std::alloc::AllocError;

/// Why a trace ends without an answer.
#[derive(Clone, Copy, PartialEq, Eq, Debug)]
pub enum TraceFault {
    /// A root, or a linked word of a reached block, is neither null nor a pointer to the first
    /// byte of a block.
    Outside {
        /// The index of that word in the image.
        at: u64,
        /// What stands there.
        value: u64,
    },
    /// Memory ran out.
    Memory,
}

impl From<AllocError> for TraceFault {
    ghost from_gives = { λ _ fault. fault ≡ Memory };

    fn from(_error: AllocError) -> TraceFault {
        TraceFault::Memory
    }
}
