//! Why an image is not recovered.
ghost use Rattle.std.specs.Prelude.{◌≡◌};
ghost use Rattle.heap_recover.specs.declared.fault.RecoverFault.TheVariants.{Header, Memory};
ghost use Rattle.heap_recover.specs.Fault.{of_trace};

use filter_trace::TraceFault;
use heap_model::BadHeader;
use std::alloc::AllocError;

/// Why an image is not recovered.
#[derive(Clone, Copy, PartialEq, Eq, Debug)]
pub enum RecoverFault {
    /// The header is malformed.
    Header(BadHeader),
    /// A root, or a linked word of a reached block, is neither null nor a pointer to the first
    /// byte of a block.
    Outside {
        /// The index of that word in the image.
        at: u64,
        /// What stands there.
        value: u64,
    },
    /// Memory ran out.
    Memory,
}

impl From<BadHeader> for RecoverFault {
    ghost from_gives = { λ cause fault. fault ≡ Header cause };

    fn from(cause: BadHeader) -> RecoverFault {
        RecoverFault::Header(cause)
    }
}

impl From<TraceFault> for RecoverFault {
    ghost from_gives = { λ traced fault. fault ≡ of_trace traced };

    fn from(traced: TraceFault) -> RecoverFault {
        match traced {
            TraceFault::Outside { at, value } => RecoverFault::Outside { at, value },
            TraceFault::Memory => RecoverFault::Memory,
        }
    }
}

impl From<AllocError> for RecoverFault {
    ghost from_gives = { λ _ fault. fault ≡ Memory };

    fn from(_error: AllocError) -> RecoverFault {
        RecoverFault::Memory
    }
}
