//! A long trace, run by one worker and by eight, without a bound on its steps and with one that it
//! does not come to.
use crate::calls::{image_made, make, must_hold, store_with};
use line_memory::ConstantChance;
use std::alloc::{AllocError, Global};
use std::process::Abort;
use std::sync::Wait;
use std::test::Fail;
use std::thread::Threads;
use tool_ports::MapStore;

/// What a run of the trace over the image in the store prints.
fn printed_by(
    rt: &(impl Abort + AllocGlobal + Threads + Wait + Sync),
    images: &mut MapStore,
    line: &str,
    trace: &[u8],
) -> Result<Vec<u8>, AllocError> {
    let trace = Vec::from_slice(rt.alloc(), trace)?;
    let (status, printed) = make(rt, line, trace, images, &mut ConstantChance(0))?;
    must_hold(rt, status == 0, line);
    Ok(printed)
}

/// What two runs of the trace over an empty heap of 256 superblocks print, the second over what the
/// first left.
fn run_twice(
    rt: &(impl Abort + AllocGlobal + Threads + Wait + Sync),
    line: &str,
    trace: &[u8],
) -> Result<(Vec<u8>, Vec<u8>), Fail> {
    let mut images = store_with(rt.alloc(), &image_made(rt, "format h 256")?)?;
    let first = printed_by(rt, &mut images, line, trace)?;
    let second = printed_by(rt, &mut images, line, trace)?;
    Ok((first, second))
}

/// The trace that the tool makes of these words.
fn made_trace(
    rt: &(impl AllocGlobal + Threads + Wait + Sync),
    line: &str,
) -> Result<Vec<u8>, Fail> {
    let mut none = store_with(rt.alloc(), b"")?;
    let chance = &mut ConstantChance(0);
    Ok(make(rt, line, Vec::new(rt.alloc()), &mut none, chance)?.1)
}

/// The runs that print the same.
const RUNS: [&str; 3] = [
    "run h --workers 8",
    "run h --workers 1 --stop 268435456",
    "run h --workers 8 --stop 268435456",
];

#[test]
fn a_long_trace_gives_the_same_by_any_workers_within_its_bound(
    rt: HostRuntime,
) -> Result<(), Fail> {
    let trace = made_trace(&rt, "gen 20000 7")?;
    let wanted = run_twice(&rt, "run h --workers 1", &trace)?;
    for line in RUNS {
        must_hold(&rt, run_twice(&rt, line, &trace)? == wanted, line);
    }
    must_hold(&rt, 100_000 < wanted.0.len(), "it is long");
    Ok(())
}

/// Shows the image in the store, with its map: threads find what one finds.
fn is_shown_alike(
    rt: &(impl Abort + AllocGlobal + Threads + Wait + Sync),
    images: &mut MapStore,
) -> Result<(), Fail> {
    let by_one = printed_by(rt, images, "show h --map", b"")?;
    let by_threads = printed_by(rt, images, "show h --map --par", b"")?;
    must_hold(rt, by_one == by_threads, "the same by threads");
    must_hold(rt, 1_000 < by_one.len(), "it is long");
    Ok(())
}

#[test]
fn what_a_long_trace_leaves_is_shown_alike_by_threads(rt: HostRuntime) -> Result<(), Fail> {
    let trace = made_trace(&rt, "gen 20000 7")?;
    let mut images = store_with(rt.alloc(), &image_made(&rt, "format h 256")?)?;
    printed_by(&rt, &mut images, "run h --workers 8", &trace)?;
    is_shown_alike(&rt, &mut images)
}
