//! A ring that stops at each ticket, and what recovery makes of what is left.

use crate::fixtures::{held_in, must_hold};
use crate::hand::Halt;
use crate::marks::has_marks;
use crate::ring::{Left, Plan, play};
use crate::rings::holds_published;
use std::alloc::Global;
use std::process::Abort;
use std::test::Fail;

/// More tickets than a ring here takes.
const LONG: u64 = 1_000;

/// Two seats hand one block round.
const PLAN: Plan<'static> = Plan {
    capacity: 1,
    seats: 2,
    sizes: &[1_024],
    is_rooted: false,
    turns: 3,
    is_ended: true,
    budget: 0,
    drawn: 0,
};

/// Whether a ring came to its end, or else stopped at this very ticket.
fn has_ended(told: Result<(), Halt>, budget: u64) -> Result<bool, Halt> {
    match told {
        Ok(()) => Ok(true),
        Err(Halt::Stopped(ticket)) if ticket == budget => Ok(false),
        Err(Halt::Stopped(_)) => Err(Halt::Failed("a seat stops at another ticket")),
        Err(halt) => Err(halt),
    }
}

/// Whether recovery of an image holds a block that is to have a root, with its words.
fn holds_taken(alloc: Global, image: &[u64], left: &Left) -> Result<bool, Fail> {
    let held = held_in(alloc, image)?;
    Ok(
        left.published == 0
            && held.as_slice() == left.blocks.as_slice()
            && held.iter().all(|b| has_marks(image, *b, [0, 0])),
    )
}

/// Whether recovery of an image holds what roots lead to: exactly where the root of a ring is being
/// stored, it may lead to its block or not.
fn holds_right(alloc: Global, image: &[u64], plan: Plan<'_>, left: &Left) -> Result<bool, Fail> {
    if holds_published(alloc, image, left)? {
        return Ok(true);
    }
    Ok(plan.is_rooted && holds_taken(alloc, image, left)?)
}

/// Asserts what a ring of so many tickets leaves. Whether it ended.
fn ends(rt: &(impl Abort + AllocGlobal), plan: Plan<'_>) -> Result<bool, Fail> {
    let left = play(rt.alloc(), plan)?;
    let now = holds_right(rt.alloc(), &left.closed.now, plan, &left)?;
    let kept = holds_right(rt.alloc(), &left.closed.kept, plan, &left)?;
    must_hold(rt, now, "what loads see");
    must_hold(rt, kept, "what a crash leaves");
    Ok(has_ended(left.told, plan.budget)?)
}

/// Plays a ring with each budget until it ends.
fn ends_everywhere(rt: &(impl Abort + AllocGlobal), plan: Plan<'_>) -> Result<(), Fail> {
    for budget in 0..LONG {
        if ends(rt, Plan { budget, ..plan })? {
            return Ok(());
        }
    }
    Err("the ring never ends".into())
}

#[test]
fn wherever_a_seat_stops_recovery_frees_a_block_without_a_root(
    rt: HostRuntime,
) -> Result<(), Fail> {
    ends_everywhere(&rt, PLAN)?;
    ends_everywhere(&rt, Plan { drawn: 1, ..PLAN })
}

#[test]
fn wherever_a_seat_stops_recovery_holds_a_block_behind_a_root(rt: HostRuntime) -> Result<(), Fail> {
    for drawn in [0, 1] {
        ends_everywhere(
            &rt,
            Plan {
                is_rooted: true,
                drawn,
                ..PLAN
            },
        )?;
    }
    Ok(())
}
