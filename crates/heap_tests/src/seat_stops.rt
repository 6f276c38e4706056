//! Seats that stop.
use crate::cores::{opened, take};
use crate::fixtures::{must_hold, recovered};
use crate::pieces::image;
use crate::schedules::parse;
use crash_core::StepAnswer::{self, Done, NotNow, Stopped};
use crash_core::{Core, Event};
use std::process::Abort;
use std::test::Fail;

/// A budget, and a schedule whose last draw it does not allow.
const STOPS: [(u64, &str); 3] = [
    (0, "0 free 1080"),
    (1, "0 free 1080, 0 alloc 20"),
    (2, "0 free 1080, 1 tick, 0 lift 20"),
];

/// A line of each kind.
const ANY: &str = "0 tick, 0 free 4664, 0 split 1080, 0 alloc 20, 0 lift 20, 0 cut 0, 0 large 0 1, \
    0 load 40, 0 store 40 7, 0 settle 40, 0 look-used, 0 take 1, 0 keep, 0 head 0, 0 link, 0 pop, \
    0 push 0, 0 anchor 0, 0 take-all 0, 0 give 0";

/// Takes the step, which is answered so.
fn is_answered(
    rt: &impl Abort,
    core: &mut Core,
    (seat, event): (usize, Event),
    wanted: StepAnswer,
    told: &str,
) -> Result<(), Fail> {
    let answer = take(core, seat, event)?;
    must_hold(rt, answer == wanted, told);
    Ok(())
}

/// Takes the steps up to the budget, and the one that is stopped at it.
fn use_up(rt: &impl Abort, core: &mut Core, budget: u64, schedule: &str) -> Result<(), Fail> {
    for line in schedule.split(", ") {
        // a change that is refused draws nothing, and stops nobody
        is_answered(rt, core, parse("0 cut 0")?, NotNow, line)?;
        let wanted = if core.tickets() < budget {
            Done
        } else {
            Stopped { step: budget }
        };
        is_answered(rt, core, parse(line)?, wanted, line)?;
    }
    Ok(())
}

/// Seat 0 does nothing more once it stopped, and seat 1 stops at its own draw.
fn stays_stopped(rt: &impl Abort, core: &mut Core, budget: u64) -> Result<(), Fail> {
    let tickets = core.tickets();
    for line in ANY.split(", ") {
        is_answered(rt, core, parse(line)?, Stopped { step: budget }, line)?;
    }
    must_hold(
        rt,
        core.tickets() == tickets,
        "a stopped seat draws nothing",
    );
    is_answered(
        rt,
        core,
        parse("1 tick")?,
        Stopped { step: tickets },
        "1 tick",
    )
}

#[test]
fn a_seat_stops_at_the_budget(rt: HostRuntime) -> Result<(), Fail> {
    let heap = recovered(rt.alloc(), 2, image("all-held")?)?;
    for (budget, schedule) in STOPS {
        let mut core = opened(rt.alloc(), &heap, 2, budget)?;
        use_up(&rt, &mut core, budget, schedule)?;
        stays_stopped(&rt, &mut core, budget)?;
    }
    Ok(())
}
