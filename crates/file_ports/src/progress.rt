//! What is told of a command while it goes on: each step that took a second or longer.
ghost use Rattle.std.specs.Prelude.{◌≡◌, ◌<◌, false};
ghost use Rattle.std.specs.Duration.{as_nanos};

use std::cell::Cell;
use std::fmt;
use std::fmt::{Display, Formatter};
use std::io::Write;
use std::time::{Clock, Duration, Instant};

/// A step of a command that has ended.
#[derive(Clone, Copy)]
pub enum Step<'a> {
    /// The image of this name was read.
    Read(&'a str),
    /// The image was recovered.
    Recovered,
    /// What standard input had was read: a trace, or a schedule.
    ReadTrace,
    /// What was asked for was worked out.
    Worked,
    /// The image of this name was put.
    Wrote(&'a str),
}

impl Display for Step<'_> {
    fn fmt<W: fmt::Write>(&self, f: &mut Formatter<W>) -> fmt::Result {
        match *self {
            Step::Read(name) => write!(f, "read {name}"),
            Step::Recovered => f.write_str("recovered"),
            Step::ReadTrace => f.write_str("read the trace"),
            Step::Worked => f.write_str("worked"),
            Step::Wrote(name) => write!(f, "wrote {name}"),
        }
    }
}

/// The time that the steps of one command take.
#[derive(Drop)]
pub struct Stopwatch<'a, C: Clock> {
    clock: &'a C,
    last: Cell<Option<Instant>>,
}

impl<'a, C: Clock> Stopwatch<'a, C> {
    /// The first step begins now.
    pub fn start(clock: &'a C) -> Self {
        Stopwatch {
            clock,
            last: Cell::new(Instant::now(clock).ok()),
        }
    }

    // A step ends now, and the next one begins. It tells how long the step took, where the clock
    // could be read at both of its ends.
    fn lap(&self) -> Option<Duration> {
        let now = Instant::now(self.clock).ok();
        let last = self.last.replace(now);
        Some(now?.duration_since(last?))
    }
}

/// Tells of long steps on a writer, or of none.
#[derive(Drop)]
pub struct Progress<'a, C: Clock, W: Write> {
    watch: &'a Stopwatch<'a, C>,
    writer: W,
    tells: bool,
}

impl<'a, C: Clock, W: Write> Progress<'a, C, W> {
    /// Steps by this watch, which several may share. Nothing is written unless it `tells`.
    pub fn new(watch: &'a Stopwatch<'a, C>, writer: W, tells: bool) -> Self
        ensures writer { result.writer ≡ writer }
        ensures tells { result.tells ≡ tells }
    {
        Progress {
            watch,
            writer,
            tells,
        }
    }

    /// A step ends, and the next one begins.
    pub fn end(&mut self, step: Step<'_>)
        ensures quiet { self.old.tells ≡ false → self.new ≡ self.old }
        ensures tells { self.new.tells ≡ self.old.tells }
    {
        if !self.tells {
            return;
        }
        if let Some(passed) = self.watch.lap() {
            tell_long(&mut self.writer, step, passed);
        }
    }

    /// A step ends that failed, and the next one begins: nothing is told of it.
    pub fn pass(&self) {
        let _ = self.watch.lap();
    }
}

// A line on a step that took a second or longer. One that can't be written is lost.
fn tell_long<W: Write>(writer: &mut W, step: Step<'_>, passed: Duration)
    ensures short { as_nanos passed < 1_000_000_000 → writer.new ≡ writer.old }
{
    let seconds = passed.as_secs();
    if seconds == 0 {
        return;
    }
    let tenths = passed.subsec_millis() / 100;
    let _ = writeln!(writer, "{step}, {seconds}.{tenths} s");
}
