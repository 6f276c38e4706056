//! The same steps by two seats of a shared heap, and by the core of the heap, with each number of
//! tickets: what loads see, and what a crash leaves.

use crate::core_scenes::{SPLIT, TRADE, TRADED, WAS_SPLIT};
use crate::fixtures::{MANY, must_hold, owners_in_turn, recovered};
use crate::scenes::{Scene, play_scene};
use core_model::{Event, StepAnswer};
use crash_core::Core;
use line_memory::{Closed, ConstantChance};
use std::alloc::{AllocError, Global};
use std::process::Abort;
use std::test::Fail;
use std::thread::Threads;
use super_block::{DIRTY, HEAD_WORD, LISTS, STATE_WORD};
use test_images::{anchor_word, link_word};
use trace_text::{Schedule, parse_schedule};

/// Takes a step of the core, with a draw where it uses a ticket up. Whether the seat goes on.
fn take_drawn(core: &mut Core, seat: usize, event: Event) -> Result<bool, Fail> {
    if seat >= core.seats() {
        return Err("no such seat".into());
    }
    core.reserve(2)?;
    if !matches!(event, Event::Tick { .. } | Event::Settle { .. }) {
        let drawn = core.step(seat, Event::Tick { shift: None });
        if drawn != StepAnswer::Done {
            return Ok(false);
        }
    }
    let answer = core.step(seat, event);
    Ok(!matches!(answer, StepAnswer::Stopped { .. }))
}

/// The core of a heap that is opened for two seats, with so many tickets.
fn core_of(alloc: Global, scene: &Scene<'_>, budget: u64) -> Result<Core, Fail> {
    if budget > MANY {
        return Err("too many tickets".into());
    }
    let heap = recovered(alloc, scene.capacity, scene.words)?;
    let owners = owners_in_turn(alloc, &heap, 2)?;
    Ok(Core::of(alloc, &heap, &owners, 2, budget)?)
}

/// All steps that the tickets allow.
fn take_all(core: &mut Core, steps: &[(usize, Event)]) -> Result<(), Fail> {
    let mut goes_on = [true; 2];
    for (seat, event) in steps {
        match goes_on.get_mut(*seat) {
            Some(goes_on) if *goes_on => *goes_on = take_drawn(core, *seat, *event)?,
            _ => {}
        }
    }
    Ok(())
}

/// Stores to the word, if the image has it.
fn put(image: &mut [u64], word: u64, value: u64) {
    if let Some(place) = image.get_mut(word as usize) {
        *place = value;
    }
}

/// What a crash leaves of the durable words of so many superblocks, where it leaves 0 in heads,
/// anchors and links.
fn crashed(alloc: Global, kept: &[u64], capacity: u64) -> Result<Vec<u64>, AllocError> {
    let mut image = Vec::from_slice(alloc, kept)?;
    for head in HEAD_WORD..HEAD_WORD + LISTS {
        put(&mut image, head, 0);
    }
    for d in 0..capacity {
        put(&mut image, anchor_word(d), 0);
        put(&mut image, link_word(d), 0);
    }
    put(&mut image, STATE_WORD, DIRTY);
    Ok(image)
}

/// Whether loads from the core see these words.
fn shows(core: &Core, now: &[u64]) -> bool {
    now.iter()
        .enumerate()
        .all(|(word, value)| core.volatile(word as u64) == *value)
}

/// Whether a crash leaves the same of the core as of these durable words.
fn leaves(alloc: Global, core: &Core, kept: &[u64], capacity: u64) -> Result<bool, Fail> {
    let image = core.image(alloc, &mut ConstantChance(0))?;
    let wanted = crashed(alloc, kept, capacity)?;
    Ok(image.as_slice() == wanted.as_slice())
}

/// The core behind all steps that so many tickets allow.
fn core_behind(
    alloc: Global,
    scene: &Scene<'_>,
    steps: &[(usize, Event)],
    budget: u64,
) -> Result<Core, Fail> {
    let mut core = core_of(alloc, scene, budget)?;
    take_all(&mut core, steps)?;
    Ok(core)
}

/// Asserts that both leave the same.
fn must_leave(
    rt: &(impl Abort + AllocGlobal),
    core: &Core,
    closed: &Closed,
    capacity: u64,
) -> Result<(), Fail> {
    let same = leaves(rt.alloc(), core, &closed.kept, capacity)?;
    must_hold(rt, same, "what a crash leaves");
    must_hold(rt, shows(core, &closed.now), "what loads see");
    Ok(())
}

/// Plays a scene and its steps with so many tickets, and asserts that both are the same. How many
/// were drawn.
fn must_agree<R: Threads + Sync + Abort + AllocGlobal>(
    rt: &R,
    scene: &Scene<'_>,
    steps: &[(usize, Event)],
    budget: u64,
) -> Result<u64, Fail> {
    let core = core_behind(rt.alloc(), scene, steps, budget)?;
    let ([first, second], left) = play_scene(rt, rt.alloc(), scene, budget)?;
    let drawn = first.wrapping_add(second);
    must_hold(rt, core.tickets() == drawn, "the tickets");
    must_leave(rt, &core, &left.closed, scene.capacity)?;
    Ok(drawn)
}

/// The steps that a text writes.
fn steps_of(alloc: Global, told: &str) -> Result<Schedule, Fail> {
    Ok(parse_schedule(alloc, told.as_bytes()).map_err(|_fault| "no schedule")?)
}

/// Plays a scene and its steps with each number of tickets till none stops.
fn must_always_agree<R: Threads + Sync + Abort + AllocGlobal>(
    rt: &R,
    scene: &Scene<'_>,
    told: &str,
) -> Result<(), Fail> {
    let steps = steps_of(rt.alloc(), told)?;
    for budget in 0..MANY {
        if must_agree(rt, scene, &steps.lines, budget)? <= budget {
            return Ok(());
        }
    }
    Err("the scene never ends".into())
}

#[test]
fn seats_do_what_the_core_does(rt: HostRuntime) -> Result<(), Fail> {
    must_always_agree(&rt, &TRADE, TRADED)?;
    must_always_agree(&rt, &SPLIT, WAS_SPLIT)
}
