//! The store that tells of long steps, over the store in memory and a clock that is set.
use crate::asserts::must_hold;
use crate::set_clock::SetClock;
use crate::stores::{must_fail, must_get, must_put, must_refuse};
use file_ports::{Progress, Stopwatch, ToldSink, ToldStore};
use std::io::Write;
use std::process::Abort;
use std::test::Fail;
use tool_ports::{FailedPut, MapStore, VecSink, write_all};

// A store that has one image. The calls of these numbers fail, of which its put is the first.
fn store_of_one(rt: &(impl Abort + AllocGlobal), failing: Vec<u64>) -> MapStore {
    let mut store = MapStore::new(rt.alloc(), failing, FailedPut::LeavesOld);
    must_put(rt, &mut store, "heap", b"abc");
    store
}

// Gets the image, and puts another in its place. The clock is looked at when it starts, behind the
// get, and before and behind the put.
fn get_and_put<W: Write + Drop>(
    rt: &(impl Abort + AllocGlobal),
    millis: &[u64],
    writer: W,
    tells: bool,
) {
    let clock = SetClock::new(millis);
    let watch = Stopwatch::start(&clock);
    let inner = store_of_one(rt, Vec::new(rt.alloc()));
    let mut store = ToldStore::new(inner, Progress::new(&watch, writer, tells));
    must_get(rt, &mut store, "heap", 9, b"abc");
    must_put(rt, &mut store, "heap", b"abcd");
    let left = store.store().image("heap");
    must_hold(rt, left == Some(b"abcd".as_slice()), "what is left");
}

// The same: so much is told.
fn must_tell(rt: &(impl Abort + AllocGlobal), millis: &[u64], tells: bool, told: &str) {
    let mut said = Vec::new(rt.alloc());
    get_and_put(rt, millis, &mut said, tells);
    must_hold(rt, said.as_slice() == told.as_bytes(), told);
}

#[test]
fn each_step_of_a_second_is_told(rt: HostRuntime) -> Result<(), Fail> {
    let all = "read heap, 2.1 s\nworked, 4.0 s\nwrote heap, 61.2 s\n";
    must_tell(&rt, &[500, 2_600, 6_649, 67_849], true, all);
    let two = "read heap, 1.0 s\nwrote heap, 1.9 s\n";
    must_tell(&rt, &[0, 1_000, 1_999, 3_998], true, two);
    Ok(())
}

#[test]
fn nothing_is_told_of_short_steps(rt: HostRuntime) -> Result<(), Fail> {
    must_tell(&rt, &[0, 999, 1_998, 2_997], true, "");
    Ok(())
}

#[test]
fn nothing_is_told_where_nobody_reads_it(rt: HostRuntime) -> Result<(), Fail> {
    must_tell(&rt, &[500, 2_600, 6_649, 67_849], false, "");
    Ok(())
}

#[test]
fn a_clock_that_fails_or_goes_back_tells_nothing(rt: HostRuntime) -> Result<(), Fail> {
    must_tell(&rt, &[], true, "");
    must_tell(&rt, &[0, 5_000], true, "read heap, 5.0 s\n");
    must_tell(&rt, &[9_000, 1_000, 8_000], true, "worked, 7.0 s\n");
    Ok(())
}

#[test]
fn what_cannot_be_written_is_lost(rt: HostRuntime) -> Result<(), Fail> {
    let mut room = [b'-'; 4];
    get_and_put(&rt, &[0, 2_000, 4_000, 6_000], &mut room[..], true);
    must_hold(&rt, room.as_slice() == b"read".as_slice(), "the room");
    Ok(())
}

// A get and a put that fail, at these times.
fn fail_both<W: Write + Drop>(rt: &(impl Abort + AllocGlobal), failing: Vec<u64>, writer: W) {
    let clock = SetClock::new(&[0, 3_000, 9_000]);
    let watch = Stopwatch::start(&clock);
    let inner = store_of_one(rt, failing);
    let mut store = ToldStore::new(inner, Progress::new(&watch, writer, true));
    must_fail(rt, &mut store, "heap", 9);
    must_refuse(rt, &mut store, "heap", b"abcd");
}

#[test]
fn of_a_call_that_failed_nothing_is_told(rt: HostRuntime) -> Result<(), Fail> {
    let failing = vec![in rt.alloc(); 1, 2]?;
    let mut said = Vec::new(rt.alloc());
    fail_both(&rt, failing, &mut said);
    let told = b"worked, 6.0 s\n".as_slice();
    must_hold(&rt, said.as_slice() == told, "what is told");
    Ok(())
}

// A get that fails after three seconds, and half a second later the line on it.
fn fail_and_print<W: Write + Drop, V: Write + Drop>(
    rt: &(impl Abort + AllocGlobal),
    failing: Vec<u64>,
    out: VecSink,
    of_store: W,
    of_sink: V,
) {
    let clock = SetClock::new(&[0, 3_000, 3_500]);
    let watch = Stopwatch::start(&clock);
    let inner = store_of_one(rt, failing);
    let mut store = ToldStore::new(inner, Progress::new(&watch, of_store, true));
    let mut sink = ToldSink::new(out, Progress::new(&watch, of_sink, true));
    must_fail(rt, &mut store, "heap", 9);
    let answer = write_all(&mut sink, b"read fault\n");
    must_hold(rt, answer == Ok(()), "the answer");
}

#[test]
fn a_failed_get_is_not_told_as_work(rt: HostRuntime) -> Result<(), Fail> {
    let failing = vec![in rt.alloc(); 1]?;
    let out = VecSink::new(rt.alloc(), Vec::new(rt.alloc()), 20, 20)?;
    let mut of_store = Vec::new(rt.alloc());
    let mut of_sink = Vec::new(rt.alloc());
    fail_and_print(&rt, failing, out, &mut of_store, &mut of_sink);
    must_hold(
        &rt,
        of_store.is_empty() && of_sink.is_empty(),
        "what is told",
    );
    Ok(())
}
