//! A sink of bytes, as the tool sees it.
ghost use Rattle.std.specs.Prelude.{◌≡◌, ◌^◌, ◌<◌, ◌≤◌, ℕ, List, [], Option, length, take, IfOk, OnOk, OnErr, IsErr};
ghost use Rattle.tool_ports.specs.Causes.{HasCause};
ghost use Rattle.tool_ports.specs.Taken.{taken_with, TakesPart};

/// The outside failed, and the port that answers so has counted it.
#[derive(Clone, Copy, Debug, PartialEq, Eq)]
pub struct Failed;

/// Takes bytes, in pieces.
pub trait Sink {
    /// The bytes that it has taken so far, where it tells them.
    ghost taken: { Self → Option (List ℕ) };

    /// How many of its calls have failed by the outside; it stops at 2^64 - 1.
    ghost faults: { Self → ℕ };

    /// Takes the first bytes of the piece, at least one, and says how many.
    fn write(&mut self, bytes: &[u8]) -> Result<usize, Failed>
        requires { 0 < length bytes.now }
        ensures some { IfOk result (λ n. (0 < n) × (n ≤ length bytes.now)) }
        ensures ok { IfOk result (λ n.
            taken self.new ≡ taken_with (taken self.old) (take n bytes.now)) }
        ensures err { OnErr result (taken self.new ≡ taken self.old) }
        ensures cause { HasCause (faults self.old) (faults self.new) (IsErr result) };

    /// The last value at which the count of faults stands is 2^64 - 1.
    ghost faults_fit: { (sink : Self) → faults sink < 2 ^ 64 };
}

/// Writes all the bytes, in as many pieces as the sink takes them.
pub fn write_all<S: Sink>(sink: &mut S, bytes: &[u8]) -> Result<(), Failed>
    ensures ok { OnOk result (S.taken sink.new ≡ taken_with (S.taken sink.old) bytes.now) }
    ensures err { OnErr result (TakesPart bytes.now (S.taken sink.old) (S.taken sink.new)) }
    ensures cause { HasCause (S.faults sink.old) (S.faults sink.new) (IsErr result) }

    // No bytes, no call.
    ensures none { bytes.now ≡ [] → sink.new ≡ sink.old }
{
    let mut rest = bytes;
    while !rest.is_empty() {
        let count = sink.write(rest)?;
        rest = &rest[count..];
    }
    Ok(())
}
