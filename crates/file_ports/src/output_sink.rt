//! The tool's output, as a sink.
ghost use Rattle.std.specs.Prelude.{◌≡◌, ◌<◌, ◌≤◌, None, length, take, IfOk, IsErr, IsSome, OnErr, OnOk};
ghost use Rattle.std.specs.Io.KnownBytes.{WriteAppends};
ghost use Rattle.tool_ports.specs.Causes.{HasCause};
ghost use Rattle.tool_ports.specs.Taken.{taken_with};

use std::io;
use std::io::{ErrorKind, Write};
use tool_ports::{Failed, FaultCount, Sink};

/// A sink over a writer, as standard output is. It tells nothing of what it took, but its own
/// clauses do, by what the writer holds.
#[derive(Drop)]
pub struct OutputSink<W: Write> {
    writer: W,
    faults: FaultCount,
    failure: Option<io::Error>,
}

impl<W: Write> OutputSink<W> {
    ghost use Rattle.file_ports.specs.OutputSink.{fault_count};

    pub fn new(writer: W) -> Self
        ensures faults { fault_count result ≡ 0 }
        ensures writer { result.writer ≡ writer }
        ensures no_failure { result.failure ≡ None }
    {
        OutputSink {
            writer,
            faults: FaultCount::new(),
            failure: None,
        }
    }

    /// What the system said of the last write that failed, if one has.
    pub fn failure(&self) -> Option<io::Error>
        ensures { result ≡ self.now.failure }
    {
        self.failure
    }
}

impl<W: Write> Sink for OutputSink<W> {
    ghost use Rattle.file_ports.specs.OutputSink.{fault_count, taken_of};

    ghost taken = { taken_of };

    ghost faults = { fault_count };

    ghost faults_fit = { λ s. s.faults.fits };

    fn write(&mut self, bytes: &[u8]) -> Result<usize, Failed>
        requires { 0 < length bytes.now }

        // as any sink
        ensures some { IfOk result (λ n. (0 < n) × (n ≤ length bytes.now)) }
        ensures ok { IfOk result (λ n.
            taken_of self.new ≡ taken_with (taken_of self.old) (take n bytes.now)) }
        ensures err { OnErr result (taken_of self.new ≡ taken_of self.old) }
        ensures cause { HasCause (fault_count self.old) (fault_count self.new) (IsErr result) }

        // the writer has these bytes more, or after a failure what it had
        ensures bytes { WriteAppends (W.contents self.old.writer) (W.contents self.new.writer)
            result bytes.now }

        // what the system said of a failed write is kept, and none is told that didn't fail
        ensures told { OnErr result (IsSome self.new.failure) }
        ensures not_told { OnOk result (self.new.failure ≡ self.old.failure) }
    {
        match write_retrying(&mut self.writer, bytes) {
            Ok(count) => Ok(count),
            Err(error) => {
                self.faults.rise();
                self.failure = Some(error);
                Err(Failed)
            }
        }
    }
}

// One write of a writer, again where a signal came between. A writer that takes nothing has failed.
fn write_retrying<W: Write>(writer: &mut W, bytes: &[u8]) -> io::Result<usize>
    ensures some { IfOk result (λ n. (0 < n) × (n ≤ length bytes.now)) }
    ensures bytes { WriteAppends (W.contents writer.old) (W.contents writer.new)
        result bytes.now }
{
    for _ in 0..u64::MAX {
        match writer.write(bytes) {
            Ok(0) => return Err(io::Error::from(ErrorKind::WriteZero)),
            Ok(count) => return Ok(count),
            Err(e) if e.kind() == ErrorKind::Interrupted => {}
            Err(e) => return Err(e),
        }
    }
    Err(io::Error::from(ErrorKind::Interrupted))
}
