//! The sink in memory, with failing calls and calls that take a part.
use crate::asserts::must_hold;
use std::process::Abort;
use std::test::Fail;
use tool_ports::{Failed, VecSink, write_all};

// Writes five bytes, of which it takes two by one call: is answered so, and has taken these.
fn must_take(rt: &impl Abort, mut sink: VecSink, answer: Result<(), Failed>, taken: &str) {
    let written = write_all(&mut sink, b"abcde");
    must_hold(rt, written == answer, taken);
    must_hold(rt, sink.bytes() == taken.as_bytes(), taken);
}

// The same of a sink in which this call is to fail.
fn must_take_until(
    rt: &(impl Abort + AllocGlobal),
    failing: u64,
    answer: Result<(), Failed>,
    taken: &str,
) -> Result<(), Fail> {
    let failing = vec![in rt.alloc(); failing]?;
    must_take(rt, VecSink::new(rt.alloc(), failing, 2, 5)?, answer, taken);
    Ok(())
}

#[test]
fn all_is_written_in_pieces_up_to_the_call_that_fails(rt: HostRuntime) -> Result<(), Fail> {
    must_take_until(&rt, 0, Err(Failed), "")?;
    must_take_until(&rt, 1, Err(Failed), "ab")?;
    must_take_until(&rt, 2, Err(Failed), "abcd")?;
    must_take_until(&rt, 3, Ok(()), "abcde")
}

// The same of a sink that has so much room.
fn must_take_within(
    rt: &(impl Abort + AllocGlobal),
    room: usize,
    answer: Result<(), Failed>,
    taken: &str,
) -> Result<(), Fail> {
    let failing = Vec::new(rt.alloc());
    must_take(
        rt,
        VecSink::new(rt.alloc(), failing, 2, room)?,
        answer,
        taken,
    );
    Ok(())
}

#[test]
fn a_sink_without_room_fails(rt: HostRuntime) -> Result<(), Fail> {
    must_take_within(&rt, 0, Err(Failed), "")?;
    must_take_within(&rt, 3, Err(Failed), "abc")?;
    must_take_within(&rt, 5, Ok(()), "abcde")
}

#[test]
fn nothing_is_written_without_a_call(rt: HostRuntime) -> Result<(), Fail> {
    let failing = vec![in rt.alloc(); 0]?;
    let mut sink = VecSink::new(rt.alloc(), failing, 2, 1)?;
    must_hold(&rt, write_all(&mut sink, b"") == Ok(()), "no call");
    must_hold(&rt, write_all(&mut sink, b"a") == Err(Failed), "the first");
    must_hold(&rt, write_all(&mut sink, b"a") == Ok(()), "the second");
    Ok(())
}
