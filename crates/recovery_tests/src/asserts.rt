//! What the tests assert, and the columns of their rows.
use std::process::Abort;

/// Asserts what the text tells of. An assertion makes a long function slow to prove; a call of this
/// one does not.
pub fn must_hold(rt: &impl Abort, holds: bool, told: &str) {
    assert!(rt; holds, "{told}");
}

/// The column of a row.
pub fn column(row: &str, place: usize) -> &str {
    row.split(" | ").nth(place).unwrap_or("")
}
