//! Requests to a dictionary, and why a trace of them, or a schedule, can't be read.
ghost use Rattle.std.specs.Prelude.{◌≡◌};
ghost use Rattle.trace_text.specs.declared.request.TraceError.TheVariants.{Memory};

use region_header::Bytes;
use std::alloc::AllocError;

/// A request to a dictionary.
#[derive(Drop)]
pub enum Request {
    /// Sets the value of a key.
    Put(u64, Bytes),
    /// Reads the value of a key.
    Get(u64),
    /// Takes out a key with its value.
    Del(u64),
    /// Takes out the first key, whose value goes to the second.
    Move(u64, u64),
}

/// Why a trace or a schedule can't be read.
#[derive(Clone, Copy, PartialEq, Eq, Debug)]
pub enum TraceError {
    /// The first line outside the grammar, counted from 1.
    BadLine { line: u64 },
    /// Memory ran out.
    Memory,
}

impl From<AllocError> for TraceError {
    ghost from_gives = { λ _ error. error ≡ Memory };

    fn from(_error: AllocError) -> Self {
        TraceError::Memory
    }
}
