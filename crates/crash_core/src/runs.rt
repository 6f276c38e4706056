//! Lists of events, run one after another.

ghost use Rattle.std.specs.Prelude.{◌≡◌, ℕ, ◌<◌, length, Contains, IfOk, IfErr};
ghost use Rattle.crash_core.specs.Standing.{IsStanding, RunsOn};
ghost use Rattle.core_model.specs.declared.event.Event.{Event};

use crate::state::CoreState;
use crate::steps::step;
use core_model::{Event, StepAnswer};
use std::alloc::{AllocError, Global};

/// Tries the events in their order, and gives the answer of each. Want of memory is the only
/// refusal; no event has been tried then.
pub(crate) fn run(
    core: &mut CoreState,
    alloc: Global,
    events: &[(usize, Event)],
) -> Result<Vec<StepAnswer>, AllocError>
    requires core { IsStanding core.old }
    requires seats { (e : ℕ × Event) → Contains events.now e → e.0 < length core.old.seats.items }
    ensures runs { IfOk result (λ answers. RunsOn core.old events.now answers.items core.new) }
    ensures refused { IfErr result (λ _. core.new ≡ core.old) }
    ensures core { IsStanding core.new }
    ensures seats { length core.new.seats.items ≡ length core.old.seats.items }
{
    let mut answers = Vec::with_capacity(alloc, events.len())?;
    for (seat, event) in events {
        answers.push_reserved(step(core, *seat, *event));
    }
    Ok(answers)
}
