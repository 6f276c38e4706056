//! Cores over recovered images, for the tests, and steps of their seats.
ghost use Rattle.std.specs.Prelude.{◌≡◌, ◌<◌, ◌≤◌, ℕ, length, Contains, IfOk};
ghost use Rattle.heap_model.specs.Geometry.{roots};
ghost use Rattle.core_model.specs.Opening.{AreOwners};

use crate::fixtures::must_hold;
use crash_core::{Core, Event, Owners, StepAnswer};
use dictionary::{DictFilter, root_kinds};
use heap_recover::recover;
use line_memory::ConstantChance;
use std::alloc::{AllocError, Global};
use std::process::Abort;
use std::test::Fail;
use super_block::{Block, ROOTS, Ready};

/// A draw without a change.
pub const DRAW: Event = Event::Tick { shift: None };

/// So many numbers of seats, in turn.
fn in_turn(alloc: Global, count: usize, seats: usize) -> Result<Vec<u32>, AllocError>
    requires some { 1 ≤ seats }
    requires seats { seats ≤ 8 }
    ensures count { IfOk result (λ owners. length owners.items ≡ count) }
    ensures below { IfOk result (λ owners. (owner : ℕ) → Contains owners.items owner
        → owner < seats) }
{
    let mut owners = Vec::new(alloc);
    for i in 0..count {
        owners.push((i % seats) as u32)?;
    }
    Ok(owners)
}

/// The heap opened for some seats, which own the held blocks and the roots in turn.
pub fn opened(alloc: Global, heap: &Ready, seats: usize, budget: u64) -> Result<Core, Fail>
    requires some { 1 ≤ seats }
    requires seats { seats ≤ 8 }
    requires budget { budget < 1099511627776 }
{
    let held = in_turn(alloc, heap.held().len(), seats)?;
    let roots = in_turn(alloc, ROOTS as usize, seats)?;
    Ok(Core::of(alloc, heap, &Owners::new(held, roots), seats, budget)?)
}

/// The blocks that recovery holds after a crash now, whatever it leaves of heads, anchors and links.
pub fn held_after_a_crash(alloc: Global, core: &Core) -> Result<Vec<Block>, Fail> {
    let image = core.image(alloc, &mut ConstantChance(u64::MAX))?;
    let left = recover(alloc, &image, &root_kinds(), &DictFilter)?;
    Ok(Vec::from_slice(alloc, left.heap.held())?)
}

/// Takes a step of the seat.
pub fn take(core: &mut Core, seat: usize, event: Event) -> Result<StepAnswer, Fail> {
    if seat >= core.seats() {
        return Err("no such seat".into());
    }
    core.reserve(1)?;
    Ok(core.step(seat, event))
}

/// Whether the event uses a ticket up.
pub fn needs_ticket(event: Event) -> bool {
    !matches!(event, Event::Tick { .. } | Event::Settle { .. })
}

/// Takes a step of the seat, for which it draws a ticket where the step uses one up.
pub fn take_drawn(core: &mut Core, seat: usize, event: Event) -> Result<StepAnswer, Fail> {
    if needs_ticket(event) {
        take(core, seat, DRAW)?;
    }
    take(core, seat, event)
}

/// Takes a step of the seat, with a ticket of its own, which is to be done.
pub fn must_take(
    rt: &impl Abort,
    core: &mut Core,
    (seat, event): (usize, Event),
    told: &str,
) -> Result<(), Fail> {
    let answer = take_drawn(core, seat, event)?;
    must_hold(rt, answer == StepAnswer::Done, told);
    Ok(())
}
