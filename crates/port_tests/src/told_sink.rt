//! The sink that tells when its first bytes came, over the sink in memory and a clock that is set.
use crate::asserts::must_hold;
use crate::set_clock::SetClock;
use file_ports::{Progress, Stopwatch, ToldSink};
use std::io::Write;
use std::process::Abort;
use std::test::Fail;
use tool_ports::{VecSink, write_all};

// Writes five bytes, of which the sink takes two by each call.
fn write_five<W: Write + Drop>(
    rt: &impl Abort,
    inner: VecSink,
    millis: &[u64],
    writer: W,
    tells: bool,
) {
    let clock = SetClock::new(millis);
    let watch = Stopwatch::start(&clock);
    let mut sink = ToldSink::new(inner, Progress::new(&watch, writer, tells));
    let answer = write_all(&mut sink, b"abcde");
    must_hold(rt, answer == Ok(()), "the answer");
    must_hold(
        rt,
        sink.sink().bytes() == b"abcde".as_slice(),
        "what is taken",
    );
}

// The same: so much is told.
fn must_tell(
    rt: &(impl Abort + AllocGlobal),
    millis: &[u64],
    tells: bool,
    told: &str,
) -> Result<(), Fail> {
    let inner = VecSink::new(rt.alloc(), Vec::new(rt.alloc()), 2, 9)?;
    let mut said = Vec::new(rt.alloc());
    write_five(rt, inner, millis, &mut said, tells);
    must_hold(rt, said.as_slice() == told.as_bytes(), told);
    Ok(())
}

#[test]
fn the_first_bytes_end_a_step_and_no_others(rt: HostRuntime) -> Result<(), Fail> {
    must_tell(&rt, &[0, 1_550, 4_000, 7_000], true, "worked, 1.5 s\n")?;
    must_tell(&rt, &[0, 999, 4_000, 7_000], true, "")?;
    must_tell(&rt, &[0, 1_550, 4_000, 7_000], false, "")
}
