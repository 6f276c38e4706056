//! The events of a schedule's lines, and the answers that are told.
ghost use Rattle.std.specs.Prelude.{◌≡◌, ◌++◌, length, IfOk, OnOk};
ghost use Rattle.image_run.specs.Replaying.{events_by, events_of, draws_before, last_answers};

use core_model::{Event, StepAnswer};
use std::alloc::{AllocError, Global};

/// The events of the lines: a line's event stands behind a draw of its ticket, unless it draws one
/// itself, or needs none.
pub fn events_of(alloc: Global, lines: &[(usize, Event)]) -> Result<Vec<(usize, Event)>, AllocError>
    ensures { IfOk result (λ events. events.items ≡ events_of lines.now) }
{
    let mut events = Vec::new(alloc);
    for (seat, event) in lines {
        push_events(&mut events, *seat, *event)?;
    }
    Ok(events)
}

// The events of a line.
fn push_events(
    events: &mut Vec<(usize, Event)>,
    seat: usize,
    event: Event,
) -> Result<(), AllocError>
    ensures { OnOk result (events.new.items ≡ events.old.items ++ events_by seat event) }
{
    if draws_before(event) == 1 {
        events.push((seat, Event::Tick { shift: None }))?;
    }
    events.push((seat, event))?;
    Ok(())
}

// How many tickets are drawn before the event of a line.
fn draws_before(event: Event) -> usize
    ensures { result ≡ draws_before event }
{
    match event {
        Event::Tick { shift: _ } => 0,
        Event::Settle { word: _ } => 0,
        _ => 1,
    }
}

/// Of the answers to the events of the lines, that to the last event of each line.
pub fn last_answers(
    alloc: Global,
    lines: &[(usize, Event)],
    answers: &[StepAnswer],
) -> Result<Vec<StepAnswer>, AllocError>
    requires { length answers.now ≡ length (events_of lines.now) }
    ensures { IfOk result (λ last. last.items ≡ last_answers lines.now answers.now) }
{
    let mut last = Vec::new(alloc);
    let mut next = 0;
    for (_, event) in lines {
        let at = next + draws_before(*event);
        last.push(answers[at])?;
        next = at + 1;
    }
    Ok(last)
}
