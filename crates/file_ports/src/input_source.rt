//! The tool's input, as a source.
ghost use Rattle.std.specs.Prelude.{◌≡◌, ◌<◌, ◌≤◌, false, length, take, true, None, IfOk, IsErr, IsSome, OnErr, OnOk};
ghost use Rattle.std.specs.Io.{ReadsAtMost};
ghost use Rattle.std.specs.Io.KnownBytes.{ReadConsumes};
ghost use Rattle.tool_ports.specs.Causes.{HasCause};
ghost use Rattle.tool_ports.specs.Left.{left_before, IsAtEnd};

use std::io;
use std::io::{ErrorKind, Read};
use tool_ports::{Failed, FaultCount, Source};

/// A source over a reader, as standard input is. It tells nothing of what it has left, but its own
/// clauses do, by what the reader has. A reader that has once given nothing isn't read again, since
/// it might give more then, as a terminal does.
#[derive(Drop)]
pub struct InputSource<R: Read> {
    reader: R,
    faults: FaultCount,
    failure: Option<io::Error>,
    ended: bool,
}

impl<R: Read> InputSource<R> {
    ghost use Rattle.file_ports.specs.InputSource.{fault_count};

    pub fn new(reader: R) -> Self
        ensures faults { fault_count result ≡ 0 }
        ensures reader { result.reader ≡ reader }
        ensures goes_on { result.ended ≡ false }
        ensures no_failure { result.failure ≡ None }
    {
        InputSource {
            reader,
            faults: FaultCount::new(),
            failure: None,
            ended: false,
        }
    }

    /// What the system said of the last read that failed, if one has.
    pub fn failure(&self) -> Option<io::Error>
        ensures { result ≡ self.now.failure }
    {
        self.failure
    }
}

impl<R: Read> Source for InputSource<R> {
    ghost use Rattle.file_ports.specs.InputSource.{fault_count, left_of};

    ghost left = { left_of };

    ghost faults = { fault_count };

    ghost faults_fit = { λ s. s.faults.fits };

    ghost has_ended = { λ s. s.ended ≡ true };

    fn read(&mut self, buf: &mut [u8]) -> Result<usize, Failed>
        requires { 0 < length buf.old }

        // as any source
        ensures bound { IfOk result (λ n. n ≤ length buf.new) }
        ensures ok { IfOk result (λ n.
            left_of self.old ≡ left_before (take n buf.new) (left_of self.new)) }
        ensures end { IfOk result (λ n. n ≡ 0 → IsAtEnd (left_of self.old)) }
        ensures ended { IfOk result (λ n. n ≡ 0 → self.new.ended ≡ true) }
        ensures nothing_more { self.old.ended ≡ true → IfOk result (λ n. n ≡ 0) }
        ensures stays_ended { self.old.ended ≡ true → self.new.ended ≡ true }
        ensures err { OnErr result (left_of self.new ≡ left_of self.old) }
        ensures cause { HasCause (fault_count self.old) (fault_count self.new) (IsErr result) }

        // the reader's own bytes, one piece of them, where it hasn't ended
        ensures bytes { self.old.ended ≡ false → ReadConsumes (R.remaining self.old.reader)
            (R.remaining self.new.reader) result buf.new }

        // only a piece of no bytes ends it
        ensures goes_on { IfOk result (λ n. 0 < n → self.new.ended ≡ false) }
        ensures failed { OnErr result (self.new.ended ≡ self.old.ended) }

        // once ended, it isn't read, and nothing is counted
        ensures unread { self.old.ended ≡ true → self.new ≡ self.old }

        // what the system said of a failed read is kept, and none is told that didn't fail
        ensures told { OnErr result (IsSome self.new.failure) }
        ensures not_told { OnOk result (self.new.failure ≡ self.old.failure) }
    {
        if self.ended {
            return Ok(0);
        }
        match read_retrying(&mut self.reader, buf) {
            Ok(count) => {
                self.ended = count == 0;
                Ok(count)
            }
            Err(error) => {
                self.faults.rise();
                self.failure = Some(error);
                Err(Failed)
            }
        }
    }
}

// One read of a reader, again where a signal came between.
fn read_retrying<R: Read>(reader: &mut R, buf: &mut [u8]) -> io::Result<usize>
    ensures bound { ReadsAtMost result buf.new }
    ensures bytes { ReadConsumes (R.remaining reader.old) (R.remaining reader.new)
        result buf.new }
{
    for _ in 0..u64::MAX {
        match reader.read(buf) {
            Ok(count) => return Ok(count),
            Err(e) if e.kind() == ErrorKind::Interrupted => {}
            Err(e) => return Err(e),
        }
    }
    Err(io::Error::from(ErrorKind::Interrupted))
}
