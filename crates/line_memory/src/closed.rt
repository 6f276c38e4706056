//! What a memory leaves once it is closed.

use std::marker::Model;

/// The two values of each word of a memory that was closed: `now` is what loads saw, and `kept`
/// what a crash would have left.
#[derive(Drop)]
pub struct Closed {
    /// What loads saw.
    pub now: Vec<u64>,
    /// What a crash would have left.
    pub kept: Vec<u64>,
}

impl Model for Closed {
    ghost use Rattle.std.specs.Prelude.{◌≡◌, length};
    ghost use Rattle.line_memory.specs.ClosedWords.{ClosedWords};

    ghost Value = { ClosedWords };

    ghost view = { λ c. record { now = c.now.items; kept = c.kept.items } };

    ghost invariant = { λ c. length c.kept.items ≡ length c.now.items };
}
