//! Guards that are tried, as rows of texts.
//!
//! A row has columns, between bars: the image of two superblocks, what is done before, and what is
//! tried then. What is done before are lines of a schedule and pieces of it, between commas; a line
//! that begins with `#` is a comment.
use crate::cores::{DRAW, must_take, needs_ticket, opened, take};
use crate::fixtures::{MANY, must_hold, recovered};
use crate::pieces::{image, piece};
use crate::schedules::parse;
use crash_core::{Core, Event, StepAnswer};
use std::alloc::Global;
use std::process::Abort;
use std::test::Fail;

/// Whether the line of a table is a row.
pub fn is_row(line: &str) -> bool {
    line.split_once(" | ").is_some() && !line.starts_with('#')
}

/// The steps that are told to be done before.
pub fn steps(alloc: Global, before: &str) -> Result<Vec<(usize, Event)>, Fail> {
    let mut steps = Vec::new(alloc);
    for part in before.split(", ") {
        for line in piece(part).split(", ") {
            if !line.is_empty() {
                steps.push(parse(line)?)?;
            }
        }
    }
    Ok(steps)
}

/// Whether the seat has a ticket in hand after the steps.
fn has_ticket(steps: &[(usize, Event)], seat: usize) -> bool {
    let mut drawn = false;
    for (other, event) in steps {
        if *other == seat && !matches!(event, Event::Settle { .. }) {
            drawn = !needs_ticket(*event);
        }
    }
    drawn
}

/// A heap of the image, open for two seats, behind the steps, each of which is done with a ticket
/// of its own.
fn core_after(
    rt: &(impl Abort + AllocGlobal),
    row: &str,
    words: &str,
    before: &[(usize, Event)],
) -> Result<Core, Fail> {
    let heap = recovered(rt.alloc(), 2, words)?;
    let mut core = opened(rt.alloc(), &heap, 2, MANY)?;
    must_take_all(rt, &mut core, before, row)?;
    Ok(core)
}

/// Takes the steps, each of which is to be done.
fn must_take_all(
    rt: &impl Abort,
    core: &mut Core,
    steps: &[(usize, Event)],
    row: &str,
) -> Result<(), Fail> {
    for step in steps {
        must_take(rt, core, *step, row)?;
    }
    Ok(())
}

/// Takes the step, which is done or is not.
fn is_answered(
    rt: &impl Abort,
    row: &str,
    core: &mut Core,
    (seat, event): (usize, Event),
    is_done: bool,
) -> Result<(), Fail> {
    let draws = is_done && matches!(event, Event::Tick { .. });
    let tickets = core.tickets().wrapping_add(u64::from(draws));
    let wanted = if is_done {
        StepAnswer::Done
    } else {
        StepAnswer::NotNow
    };
    let answer = take(core, seat, event)?;
    must_hold(rt, answer == wanted && core.tickets() == tickets, row);
    Ok(())
}

/// Tries a guard: without a ticket first, where the event needs one and none is in hand.
pub fn try_guard(
    rt: &(impl Abort + AllocGlobal),
    row: &str,
    words: &str,
    before: &[(usize, Event)],
    step: (usize, Event),
    is_done: bool,
) -> Result<(), Fail> {
    let mut core = core_after(rt, row, words, before)?;
    if needs_ticket(step.1) {
        if !has_ticket(before, step.0) {
            is_answered(rt, row, &mut core, step, false)?;
        }
        take(&mut core, step.0, DRAW)?;
    }
    is_answered(rt, row, &mut core, step, is_done)
}

fn try_row(rt: &(impl Abort + AllocGlobal), row: &str) -> Result<(), Fail> {
    let mut columns = row.split(" | ");
    let words = image(columns.next().unwrap_or(""))?;
    let before = steps(rt.alloc(), columns.next().unwrap_or(""))?;
    let step = parse(columns.next().unwrap_or(""))?;
    let is_done = match columns.next() {
        Some("done") => true,
        Some("not now") => false,
        _ => return Err("no answer".into()),
    };
    try_guard(rt, row, words, &before, step, is_done)
}

/// Tries guards, each in a heap of its own: the third column is the step that is tried, and the
/// fourth whether it is done.
pub fn try_guards(rt: &(impl Abort + AllocGlobal), table: &str) -> Result<(), Fail> {
    for line in table.split('\n') {
        if is_row(line) {
            try_row(rt, line)?;
        }
    }
    Ok(())
}
