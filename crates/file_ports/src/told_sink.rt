//! A sink that tells how long it took until the first bytes came to it.
ghost use Rattle.std.specs.Prelude.{◌≡◌, ◌<◌, ◌≤◌, false, length, take, IfOk, OnErr, IsErr};
ghost use Rattle.tool_ports.specs.Causes.{HasCause};
ghost use Rattle.tool_ports.specs.Taken.{taken_with};

use crate::progress::{Progress, Step};
use std::io::Write;
use std::time::Clock;
use tool_ports::{Failed, Sink};

/// A sink whose calls are those of another one. What is told of the first changes nothing.
#[derive(Drop)]
pub struct ToldSink<'a, S: Sink, C: Clock, W: Write> {
    sink: S,
    progress: Progress<'a, C, W>,
    has_begun: bool,
}

impl<'a, S: Sink, C: Clock, W: Write> ToldSink<'a, S, C, W> {
    pub fn new(sink: S, progress: Progress<'a, C, W>) -> Self
        ensures sink { result.sink ≡ sink }
        ensures progress { result.progress ≡ progress.entry }
    {
        ToldSink {
            sink,
            progress,
            has_begun: false,
        }
    }

    /// The sink whose calls they are.
    pub fn sink(&self) -> &S
        ensures { result.now ≡ self.now.sink }
    {
        &self.sink
    }
}

impl<'a, S: Sink, C: Clock, W: Write> Sink for ToldSink<'a, S, C, W> {
    ghost taken = { λ s. S.taken s.sink };

    ghost faults = { λ s. S.faults s.sink };

    ghost faults_fit = { λ s. S.faults_fit s.sink };

    fn write(&mut self, bytes: &[u8]) -> Result<usize, Failed>
        requires { 0 < length bytes.now }

        // as the sink
        ensures some { IfOk result (λ n. (0 < n) × (n ≤ length bytes.now)) }
        ensures ok { IfOk result (λ n. S.taken self.new.sink
            ≡ taken_with (S.taken self.old.sink) (take n bytes.now)) }
        ensures err { OnErr result (S.taken self.new.sink ≡ S.taken self.old.sink) }
        ensures cause { HasCause (S.faults self.old.sink) (S.faults self.new.sink) (IsErr result) }

        // where nothing is to be told, nothing is written
        ensures quiet { self.old.progress.tells ≡ false → self.new.progress ≡ self.old.progress }
    {
        if !self.has_begun {
            self.has_begun = true;
            self.progress.end(Step::Worked);
        }
        self.sink.write(bytes)
    }
}
