//! The source in memory, with failing calls and calls that give a part.
use crate::asserts::{must_be, must_hold};
use std::alloc::{AllocError, Global};
use std::process::Abort;
use std::test::Fail;
use tool_ports::{BytesSource, ReadAllFault, read_all};

// A source of this text, of which calls are to fail.
fn source_of(
    alloc: Global,
    failing: &[u64],
    most: usize,
    text: &str,
) -> Result<BytesSource, AllocError> {
    let failing = Vec::from_slice(alloc, failing)?;
    let bytes = Vec::from_slice(alloc, text.as_bytes())?;
    Ok(BytesSource::new(failing, most.max(1), bytes))
}

// Reads all, which is to be at most so long.
fn must_read(rt: &(impl Abort + AllocGlobal), source: &mut BytesSource, most: usize, bytes: &str) {
    let read = read_all(rt.alloc(), source, most).ok();
    must_be(rt, read, bytes.as_bytes(), "what is read");
}

// Reads what is to be at most so long, and is answered by a fault.
fn must_fault(
    rt: &(impl Abort + AllocGlobal),
    source: &mut BytesSource,
    most: usize,
    fault: ReadAllFault,
) {
    let read = read_all(rt.alloc(), source, most).err();
    must_hold(rt, read == Some(fault), "the fault");
}

// Reads a source that gives two bytes by one call, of which this call fails.
fn must_fail_at(rt: &(impl Abort + AllocGlobal), call: u64, rest: &str) -> Result<(), Fail> {
    let mut source = source_of(rt.alloc(), &[call], 2, "abcde")?;
    must_fault(rt, &mut source, 9, ReadAllFault::Failed);
    must_hold(rt, source.rest() == rest.as_bytes(), rest);
    Ok(())
}

#[test]
fn all_is_read_in_pieces_up_to_the_call_that_fails(rt: HostRuntime) -> Result<(), Fail> {
    must_fail_at(&rt, 0, "abcde")?;
    must_fail_at(&rt, 1, "cde")?;
    must_fail_at(&rt, 2, "e")?;
    must_fail_at(&rt, 3, "")?;
    let mut source = source_of(rt.alloc(), &[4], 2, "abcde")?;
    must_read(&rt, &mut source, 9, "abcde");
    must_hold(&rt, source.rest().is_empty(), "call 4 fails");
    Ok(())
}

// Reads at most so many bytes of five, of which so many come by one call.
fn must_be_long(
    rt: &(impl Abort + AllocGlobal),
    most: usize,
    by_call: usize,
    rest: &str,
) -> Result<(), Fail> {
    let mut source = source_of(rt.alloc(), &[], by_call, "abcde")?;
    must_fault(rt, &mut source, most, ReadAllFault::TooLong);
    must_hold(rt, source.rest() == rest.as_bytes(), rest);
    Ok(())
}

// Reads at most five bytes of five, of which so many come by one call.
fn must_fit(rt: &(impl Abort + AllocGlobal), by_call: usize) -> Result<(), Fail> {
    let mut source = source_of(rt.alloc(), &[], by_call, "abcde")?;
    must_read(rt, &mut source, 5, "abcde");
    must_read(rt, &mut source, 5, "");
    must_hold(rt, source.rest().is_empty(), "at most 5");
    Ok(())
}

// Reads five bytes, of which so many come by one call.
fn must_end_behind(rt: &(impl Abort + AllocGlobal), by_call: usize) -> Result<(), Fail> {
    must_be_long(rt, 0, by_call, "bcde")?;
    must_be_long(rt, 3, by_call, "e")?;
    must_be_long(rt, 4, by_call, "")?;
    must_fit(rt, by_call)
}

#[test]
fn what_is_too_long_is_read_one_byte_further(rt: HostRuntime) -> Result<(), Fail> {
    must_end_behind(&rt, 1)?;
    must_end_behind(&rt, 2)?;
    must_end_behind(&rt, 9)
}

#[test]
fn an_empty_source_is_at_its_end(rt: HostRuntime) -> Result<(), Fail> {
    let mut source = source_of(rt.alloc(), &[], 3, "")?;
    must_read(&rt, &mut source, 0, "");
    must_read(&rt, &mut source, 1, "");
    must_read(&rt, &mut source, usize::MAX, "");
    Ok(())
}
