//! The seed on the command line decides what is written back early: a put that is stopped where its
//! word is stored and not yet durable leaves the old value by one seed, and the new one by another.
use crate::harness::{call, empty_store, must_hold};
use std::process::{Abort, ExitCode};
use std::sync::Wait;
use std::test::Fail;
use std::thread::Threads;

/// What a heap holds before the put.
const BEFORE: &str = "\
put 1 616e6e
put 2 626561
get 1
del 2
get 2
put 9 -";

// The put stopped at step 24 by this seed leaves this value.
fn must_leave(
    rt: &(impl Abort + AllocGlobal + Threads + Wait + Sync),
    line: &str,
    value: &str,
) -> Result<(), Fail> {
    let mut images = empty_store(rt.alloc());
    let _ = call(rt, &mut images, "format h 2", "")?;
    let _ = call(rt, &mut images, "run h --workers 1", BEFORE)?;
    let ended = call(rt, &mut images, line, "put 1 6576")?;
    must_hold(rt, ended.status == ExitCode::from(0), "its status");
    let left = format!(in rt.alloc(); "key 1 {value}\n")?;
    must_hold(rt, ended.text().contains(left.as_str()), line);
    Ok(())
}

#[test]
fn the_seed_of_the_words_decides(rt: HostRuntime) -> Result<(), Fail> {
    must_leave(&rt, "run h --workers 1 --stop 24", "616e6e")?;
    must_leave(&rt, "run h --workers 1 --stop 24 --seed 14", "616e6e")?;
    must_leave(&rt, "run h --workers 1 --stop 24 --seed 69", "6576")?;
    must_leave(&rt, "run h --workers 1 --stop 25 --seed 14", "6576")?;
    must_leave(&rt, "run h --workers 1 --stop 25 --seed 13", "616e6e")
}
