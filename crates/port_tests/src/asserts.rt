//! What the tests assert.
ghost use Rattle.std.specs.Prelude.{IsSome, IsTrue};

use std::process::Abort;

/// Asserts what the text tells of. An assertion makes a long function slow to prove; a call of this
/// one does not.
pub fn must_hold(rt: &impl Abort, holds: bool, told: &str)
    ensures { IsTrue holds }
{
    assert!(rt; holds, "{told}");
}

/// Asserts that there are bytes, and that they are these.
pub fn must_be(rt: &impl Abort, found: Option<Vec<u8>>, wanted: &[u8], told: &str)
    ensures { IsSome found }
{
    must_hold(rt, found.is_some(), told);
    if let Some(bytes) = found {
        must_hold(rt, bytes.as_slice() == wanted, told);
    }
}
