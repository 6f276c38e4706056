//! The store in memory, with calls that fail.
use crate::asserts::must_hold;
use crate::stores::{must_fail, must_get, must_miss, must_put, must_refuse};
use std::process::Abort;
use std::test::Fail;
use tool_ports::{FailedPut, MapStore};

#[test]
fn a_get_gives_the_first_bytes_of_what_was_put(rt: HostRuntime) -> Result<(), Fail> {
    let alloc = rt.alloc();
    let mut store = MapStore::new(alloc, Vec::new(alloc), FailedPut::LeavesOld);
    must_put(&rt, &mut store, "heap", b"abc");
    must_put(&rt, &mut store, "other", b"x");
    must_put(&rt, &mut store, "heap", b"abcd");
    must_get(&rt, &mut store, "heap", 0, b"");
    must_get(&rt, &mut store, "heap", 3, b"abc");
    must_get(&rt, &mut store, "heap", 4, b"abcd");
    must_get(&rt, &mut store, "heap", 9, b"abcd");
    must_miss(&rt, &mut store, "hea", 9);
    Ok(())
}

// Puts an image, fails to put another in its place, and has this one left.
fn must_leave(
    rt: &(impl Abort + AllocGlobal),
    failed_put: FailedPut,
    left: &[u8],
) -> Result<(), Fail> {
    let failing = vec![in rt.alloc(); 1]?;
    let mut store = MapStore::new(rt.alloc(), failing, failed_put);
    must_put(rt, &mut store, "heap", b"old");
    must_refuse(rt, &mut store, "heap", b"new");
    must_hold(rt, store.image("heap") == Some(left), "what is left");
    Ok(())
}

#[test]
fn a_failed_put_leaves_the_old_bytes_or_the_new(rt: HostRuntime) -> Result<(), Fail> {
    must_leave(&rt, FailedPut::LeavesOld, b"old")?;
    must_leave(&rt, FailedPut::LeavesNew, b"new")
}

#[test]
fn the_chosen_gets_fail_and_no_other(rt: HostRuntime) -> Result<(), Fail> {
    let failing = vec![in rt.alloc(); 1, 3]?;
    let mut store = MapStore::new(rt.alloc(), failing, FailedPut::LeavesOld);
    must_put(&rt, &mut store, "heap", b"abc");
    must_fail(&rt, &mut store, "heap", 9);
    must_get(&rt, &mut store, "heap", 9, b"abc");
    must_fail(&rt, &mut store, "heap", 9);
    must_get(&rt, &mut store, "heap", 9, b"abc");
    Ok(())
}

#[test]
fn each_call_of_a_store_is_counted(rt: HostRuntime) -> Result<(), Fail> {
    let failing = vec![in rt.alloc(); 2]?;
    let mut store = MapStore::new(rt.alloc(), failing, FailedPut::LeavesOld);
    must_miss(&rt, &mut store, "heap", 9);
    must_put(&rt, &mut store, "heap", b"abc");
    must_fail(&rt, &mut store, "heap", 4);
    let calls = store.calls();
    must_hold(&rt, calls.gets == 2 && calls.puts == 1, "the calls");
    must_hold(&rt, calls.most == 9, "the most bytes");
    Ok(())
}
