//! Assertions. What holds is a `bool` where it may be: a `?` costs more to prove than all else here.
use region_header::Bytes;
use std::alloc::AllocError;
use std::process::Abort;

/// Asserts what the text tells of. An assertion makes a long function slow to prove; a call of this
/// one does not.
pub fn must_hold(rt: &impl Abort, holds: bool, told: &str) {
    assert!(rt; holds, "{told}");
}

/// Whether a text was made, and reads so.
pub fn reads_so(made: Result<Bytes, AllocError>, told: &str) -> bool {
    match made {
        Ok(text) => text.as_slice() == told.as_bytes(),
        Err(_) => false,
    }
}
