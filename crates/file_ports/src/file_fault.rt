//! Why a file was not read, or not replaced.
ghost use Rattle.std.specs.Prelude.{◌≡◌};
ghost use Rattle.file_ports.specs.declared.file_fault.FileFault.TheVariants.{Memory, Failed};

use std::alloc::AllocError;
use std::io;

/// Why a call on a file came to nothing.
pub enum FileFault {
    /// The system refused it, and says why.
    Failed(io::Error),
    /// Memory ran out.
    Memory,
}

impl From<AllocError> for FileFault {
    ghost from_gives = { λ _ fault. fault ≡ Memory };

    fn from(_: AllocError) -> Self {
        FileFault::Memory
    }
}

impl From<io::Error> for FileFault {
    ghost from_gives = { λ error fault. fault ≡ Failed error };

    fn from(error: io::Error) -> Self {
        FileFault::Failed(error)
    }
}
