//! A source that tells how long it took until it was first read, and then until its end.
ghost use Rattle.std.specs.Prelude.{◌≡◌, ◌<◌, ◌≤◌, false, length, take, IfOk, OnErr, IsErr};
ghost use Rattle.tool_ports.specs.Causes.{HasCause};
ghost use Rattle.tool_ports.specs.Left.{left_before, IsAtEnd};

use crate::progress::{Progress, Step};
use std::io::Write;
use std::time::Clock;
use tool_ports::{Failed, Source};

/// A source whose calls are those of another one. What is told of them changes nothing. A command
/// that reads its source does so once its image is recovered: so the first read ends that step.
#[derive(Drop)]
pub struct ToldSource<'a, S: Source, C: Clock, W: Write> {
    source: S,
    progress: Progress<'a, C, W>,
    has_begun: bool,
}

impl<'a, S: Source, C: Clock, W: Write> ToldSource<'a, S, C, W> {
    pub fn new(source: S, progress: Progress<'a, C, W>) -> Self
        ensures source { result.source ≡ source }
        ensures progress { result.progress ≡ progress.entry }
    {
        ToldSource {
            source,
            progress,
            has_begun: false,
        }
    }

    /// The source whose calls they are.
    pub fn source(&self) -> &S
        ensures { result.now ≡ self.now.source }
    {
        &self.source
    }
}

impl<'a, S: Source, C: Clock, W: Write> Source for ToldSource<'a, S, C, W> {
    ghost left = { λ s. S.left s.source };

    ghost faults = { λ s. S.faults s.source };

    ghost has_ended = { λ s. S.has_ended s.source };

    ghost faults_fit = { λ s. S.faults_fit s.source };

    fn read(&mut self, buf: &mut [u8]) -> Result<usize, Failed>
        requires { 0 < length buf.old }

        // as the source
        ensures bound { IfOk result (λ n. n ≤ length buf.new) }
        ensures ok { IfOk result (λ n. S.left self.old.source
            ≡ left_before (take n buf.new) (S.left self.new.source)) }
        ensures end { IfOk result (λ n. n ≡ 0 → IsAtEnd (S.left self.old.source)) }
        ensures ended { IfOk result (λ n. n ≡ 0 → S.has_ended self.new.source) }
        ensures nothing_more { S.has_ended self.old.source → IfOk result (λ n. n ≡ 0) }
        ensures stays_ended { S.has_ended self.old.source → S.has_ended self.new.source }
        ensures err { OnErr result (S.left self.new.source ≡ S.left self.old.source) }
        ensures cause { HasCause (S.faults self.old.source) (S.faults self.new.source)
            (IsErr result) }

        // where nothing is to be told, nothing is written
        ensures quiet { self.old.progress.tells ≡ false → self.new.progress ≡ self.old.progress }
    {
        if !self.has_begun {
            self.has_begun = true;
            self.progress.end(Step::Recovered);
        }
        let answer = self.source.read(buf);
        match answer {
            Ok(0) => self.progress.end(Step::ReadTrace),
            Ok(_) => {}
            Err(_) => self.progress.pass(),
        }
        answer
    }
}
