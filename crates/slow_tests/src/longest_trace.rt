//! Traces of 16,777,216 bytes, the most that a run takes.
use crate::calls::{image_made, must_hold, runs, store_with};
use line_memory::ConstantChance;
use std::alloc::{AllocError, Global};
use std::process::Abort;
use std::sync::Wait;
use std::test::Fail;
use std::thread::Threads;
use tool_ports::MapStore;

/// A request of sixteen bytes.
const SIXTEEN_BYTES: &[u8] = b"get 12345678901\n";

/// The shortest request.
const SHORTEST: &[u8] = b"get 1\n";

/// What fills the trace where no more of the shortest fit beside it.
const LAST: &[u8] = b"get 12345\n";

/// The request so many times, and then the last one: the longest trace.
fn longest_trace(
    alloc: Global,
    request: &[u8],
    times: usize,
    last: &[u8],
) -> Result<Vec<u8>, AllocError> {
    let mut trace = Vec::new(alloc);
    for _ in 0..times {
        trace.extend_from_slice(request)?;
    }
    trace.extend_from_slice(last)?;
    Ok(trace)
}

/// Works off a trace of the greatest length, which asks for no key that is there.
fn must_answer(
    rt: &(impl Abort + AllocGlobal + Threads + Wait + Sync),
    trace: Vec<u8>,
    text: &str,
) -> Result<(), Fail> {
    must_hold(rt, trace.len() == 16_777_216, "its length");
    let mut images = store_with(rt.alloc(), &image_made(rt, "format h 1")?)?;
    let line = "run h --workers 1 --sum";
    let chance = &mut ConstantChance(0);
    runs(rt, &mut images, chance, line, trace, 0, text)
}

const SIXTEEN_BYTES_TOLD: &str = "\
requests 1048576 ok 0 none 1048576 value 0 full 0 unanswered 0
run closed
heap 1 clean
keys 0 bytes 0
";

const SHORTEST_TOLD: &str = "\
requests 2796202 ok 0 none 2796202 value 0 full 0 unanswered 0
run closed
heap 1 clean
keys 0 bytes 0
";

#[test]
fn the_longest_trace_is_worked_off(rt: HostRuntime) -> Result<(), Fail> {
    let trace = longest_trace(rt.alloc(), SIXTEEN_BYTES, 1_048_576, b"")?;
    must_answer(&rt, trace, SIXTEEN_BYTES_TOLD)
}

#[test]
fn the_longest_trace_of_the_most_lines_is_worked_off(rt: HostRuntime) -> Result<(), Fail> {
    let trace = longest_trace(rt.alloc(), SHORTEST, 2_796_201, LAST)?;
    must_answer(&rt, trace, SHORTEST_TOLD)
}

/// Refuses a trace of so many bytes, which is one line outside the grammar.
fn must_refuse(
    rt: &(impl Abort + AllocGlobal + Threads + Wait + Sync),
    images: &mut MapStore,
    length: usize,
    text: &str,
) -> Result<(), Fail> {
    let trace = vec![in rt.alloc(); b'x'; length]?;
    let chance = &mut ConstantChance(0);
    runs(rt, images, chance, "run h --workers 1", trace, 10, text)
}

#[test]
fn a_line_of_the_longest_length_is_outside_the_grammar(rt: HostRuntime) -> Result<(), Fail> {
    let image = image_made(&rt, "format h 1")?;
    let mut images = store_with(rt.alloc(), &image)?;
    must_refuse(&rt, &mut images, 16_777_216, "bad trace line 1\n")?;
    must_refuse(&rt, &mut images, 16_777_217, "bad trace too long\n")?;
    must_refuse(&rt, &mut images, 20_000_000, "bad trace too long\n")?;
    must_hold(
        &rt,
        images.image("h") == Some(image.as_slice()),
        "as before",
    );
    Ok(())
}
