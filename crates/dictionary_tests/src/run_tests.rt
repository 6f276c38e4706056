//! What whole runs of a trace answer, and that what they leave can be run again.
ghost use Rattle.std.specs.Prelude.{◌<◌, ◌≤◌, ◌^◌};

use crate::checks::{must_hold, reads_so};
use crate::recoveries::empty;
use crate::runs::{Outcome, run_text};
use std::alloc::Global;
use std::process::Abort;
use std::test::Fail;
use super_block::{CLEAN, DIRTY, STATE_WORD};
use tool_ports::OpenGate;
use trace_text::reply_text;

/// More steps than any test here takes.
const MANY: u64 = 100_000_000;

/// Whether the run's replies read so.
fn replies_are(alloc: Global, left: &Outcome, told: &str) -> bool {
    reads_so(reply_text(alloc, &left.replies, left.stopped, false), told)
}

/// Whether the run left an image of so many words, which is clean if it wasn't stopped.
fn has_state(left: &Outcome, length: usize) -> bool {
    let state = if left.stopped { DIRTY } else { CLEAN };
    left.image.len() == length && left.image.get(STATE_WORD as usize) == Some(&state)
}

/// Runs the trace over an empty heap.
fn answers(
    rt: &(impl Abort + AllocGlobal),
    capacity: u64,
    budget: u64,
    text: &str,
    told: &str,
) -> Result<(), Fail>
    requires some { 1 ≤ capacity }
    requires small { capacity ≤ 16 }
    requires budget { budget < 2 ^ 40 }
{
    let image = empty(rt.alloc(), capacity)?;
    let left = run_text(rt.alloc(), &image, text, budget, &OpenGate)?;
    must_hold(rt, replies_are(rt.alloc(), &left, told), text);
    must_hold(rt, has_state(&left, image.len()), text);
    Ok(())
}

const TRACE: &str = "put 1 6162
get 1
get 9
put 9 -
get 9
put 1 63
get 1
del 1
get 1
del 1
";

const REPLIES: &str = "ok
6162
none
ok
-
ok
63
ok
none
none
run closed
";

#[test]
fn a_trace_is_answered_in_its_order(rt: HostRuntime) -> Result<(), Fail> {
    answers(&rt, 4, MANY, TRACE, REPLIES)?;
    // The table takes the only superblock, and there is none for the node.
    let full = "full\nnone\nfull\nrun closed\n";
    answers(&rt, 1, MANY, "put 1 61\nget 1\nput 2 -\n", full)?;
    let stopped = "unanswered\nunanswered\nrun stopped\n";
    answers(&rt, 4, 0, "get 1\nput 1 -\n", stopped)?;
    answers(&rt, 4, 0, "", "run closed\n")
}

/// Runs over what a stopped run left.
fn goes_on(rt: &(impl Abort + AllocGlobal), image: &[u64]) -> Result<(), Fail> {
    let again = run_text(rt.alloc(), image, "put 1 64\nget 1\n", MANY, &OpenGate)?;
    let told = "ok\n64\nrun closed\n";
    must_hold(rt, replies_are(rt.alloc(), &again, told), "again");
    Ok(())
}

/// Stops a run over the image, and tells whether it was done; then runs over what it left.
fn stops_and_goes_on(
    rt: &(impl Abort + AllocGlobal),
    image: &[u64],
    budget: u64,
) -> Result<bool, Fail>
    requires { budget < 2 ^ 40 }
{
    let trace = "put 1 6162\nput 1 63\ndel 1\n";
    let first = run_text(rt.alloc(), image, trace, budget, &OpenGate)?;
    goes_on(rt, &first.image)?;
    Ok(!first.stopped)
}

#[test]
fn what_a_stopped_run_leaves_can_be_run_again(rt: HostRuntime) -> Result<(), Fail> {
    let image = empty(rt.alloc(), 2)?;
    for step in 0..1_000u64 {
        if stops_and_goes_on(&rt, &image, 37 * step)? {
            return Ok(());
        }
    }
    Err("the run does not end".into())
}
