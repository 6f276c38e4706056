//! Schedules: which seat of a heap takes which step, one after the other.
ghost use Rattle.std.specs.Prelude.{IfOk, IfErr};
ghost use Rattle.trace_text.specs.Lines.{lines_of, AreWritten};
ghost use Rattle.trace_text.specs.Schedule.{IsSchedule, IsStepLine, IsWhyNoSteps, IsWhyNotSchedule};

use crate::pieces::{count_lines, next_line};
use crate::request::TraceError;
use crate::step::{parse_seats, parse_step};
use core_model::Event;
use std::alloc::Global;

/// Steps of some seats, in the order in which they are taken.
#[derive(Drop)]
pub struct Schedule {
    /// How many seats there are: 1 to 8.
    pub seats: usize,
    /// A seat below that number, and its step.
    pub lines: Vec<(usize, Event)>,
}

/// The schedule that a text writes.
///
/// The first line is `seats N`, from 1 to 8. Each other one is a seat's number below `N`, a space,
/// and what the seat does: a draw, as `tick`, or `cut D`, `alloc C`, `free W`, `lift C`,
/// `large D N` or `split W` with its change; or `load W`, `store W V`, `settle W`, `look-used`,
/// `take N`, `keep`, `head L`, `link`, `pop`, `push D`, `anchor D`, `take-all D` or `give D`.
/// Numbers are decimal, of 64 bits and without leading zeros. The last line may lack its line feed,
/// and an empty text counts as an empty line.
///
/// Memory is asked for once.
pub fn parse_schedule(alloc: Global, text: &[u8]) -> Result<Schedule, TraceError>
    ensures ok { IfOk result (IsSchedule text.now) }
    ensures err { IfErr result (IsWhyNotSchedule text.now) }
{
    let Some((first, further)) = next_line(text) else {
        return Err(TraceError::BadLine { line: 1 });
    };
    let Some(seats) = parse_seats(first) else {
        return Err(TraceError::BadLine { line: 1 });
    };
    let lines = parse_steps(alloc, further, seats)?;
    Ok(Schedule { seats, lines })
}

/// The steps of the lines behind the first.
fn parse_steps(alloc: Global, text: &[u8], seats: usize) -> Result<Vec<(usize, Event)>, TraceError>
    ensures ok { IfOk result (λ steps.
        AreWritten (IsStepLine seats) (lines_of text.now) steps.items) }
    ensures err { IfErr result (IsWhyNoSteps seats (lines_of text.now)) }
{
    let mut steps = Vec::with_capacity(alloc, count_lines(text))?;
    let mut rest = text;
    while let Some((line, after)) = next_line(rest) {
        let Some(step) = parse_step(line, seats) else {
            return Err(TraceError::BadLine {
                line: steps.len() as u64 + 2,
            });
        };
        steps.push_reserved(step);
        rest = after;
    }
    Ok(steps)
}
