//! A source of bytes, as the tool sees it.
ghost use Rattle.std.specs.Prelude.{◌≡◌, ◌^◌, ◌<◌, ◌≤◌, ℕ, List, Option, length, take, IfOk, OnErr, IsErr};
ghost use Rattle.tool_ports.specs.Causes.{HasCause};
ghost use Rattle.tool_ports.specs.Left.{left_before, IsAtEnd};

use crate::sink::Failed;

/// Gives bytes, in pieces.
pub trait Source {
    /// The bytes that it has left, where it tells them.
    ghost left: { Self → Option (List ℕ) };

    /// How many of its calls have failed by the outside; it stops at 2^64 - 1.
    ghost faults: { Self → ℕ };

    /// It has come to its end: no read gives anything more.
    ghost has_ended: { Self → Type 0 };

    /// Puts the next bytes into the front of the buffer, and says how many; none are the end of the
    /// input, and from then on no read gives any. What stands behind them, or in the buffer after a
    /// failure, may be anything.
    fn read(&mut self, buf: &mut [u8]) -> Result<usize, Failed>
        requires { 0 < length buf.old }
        ensures bound { IfOk result (λ n. n ≤ length buf.new) }
        ensures ok { IfOk result (λ n.
            left self.old ≡ left_before (take n buf.new) (left self.new)) }
        ensures end { IfOk result (λ n. n ≡ 0 → IsAtEnd (left self.old)) }
        ensures ended { IfOk result (λ n. n ≡ 0 → has_ended self.new) }
        ensures nothing_more { has_ended self.old → IfOk result (λ n. n ≡ 0) }
        ensures stays_ended { has_ended self.old → has_ended self.new }
        ensures err { OnErr result (left self.new ≡ left self.old) }
        ensures cause { HasCause (faults self.old) (faults self.new) (IsErr result) };

    /// The last value at which the count of faults stands is 2^64 - 1.
    ghost faults_fit: { (source : Self) → faults source < 2 ^ 64 };
}
