//! The source that tells when it is first read and when it ends, over the source in memory and a
//! clock that is set.
use crate::asserts::{must_be, must_hold};
use crate::set_clock::SetClock;
use file_ports::{Progress, Stopwatch, ToldSource};
use std::io::Write;
use std::process::Abort;
use std::test::Fail;
use tool_ports::{BytesSource, ReadAllFault, read_all};

// A source of five bytes, two by each call, of which these calls fail.
fn five_bytes(rt: &impl AllocGlobal, failing: &[u64]) -> Result<BytesSource, Fail> {
    let failing = Vec::from_slice(rt.alloc(), failing)?;
    let bytes = Vec::from_slice(rt.alloc(), b"abcde")?;
    Ok(BytesSource::new(failing, 2, bytes))
}

// Reads all that the source has. The clock is looked at when it starts, before the first read, and
// behind the one that finds the end, or fails.
fn read_five<W: Write + Drop>(
    rt: &(impl Abort + AllocGlobal),
    inner: BytesSource,
    millis: &[u64],
    writer: W,
    tells: bool,
) -> Result<Vec<u8>, ReadAllFault> {
    let clock = SetClock::new(millis);
    let watch = Stopwatch::start(&clock);
    let mut source = ToldSource::new(inner, Progress::new(&watch, writer, tells));
    let read = read_all(rt.alloc(), &mut source, 9);
    let is_first_failed = read.is_err() && source.source().rest() == b"abcde".as_slice();
    must_hold(
        rt,
        source.source().rest().is_empty() || is_first_failed,
        "what is left",
    );
    read
}

// The same: so much is told.
fn must_tell(
    rt: &(impl Abort + AllocGlobal),
    millis: &[u64],
    tells: bool,
    told: &str,
) -> Result<(), Fail> {
    let mut said = Vec::new(rt.alloc());
    let read = read_five(rt, five_bytes(rt, &[])?, millis, &mut said, tells);
    must_be(rt, read.ok(), b"abcde", "what is read");
    must_hold(rt, said.as_slice() == told.as_bytes(), told);
    Ok(())
}

#[test]
fn the_first_read_ends_a_step_and_the_end_another(rt: HostRuntime) -> Result<(), Fail> {
    let both = "recovered, 2.0 s\nread the trace, 1.5 s\n";
    must_tell(&rt, &[0, 2_000, 3_500, 9_000], true, both)?;
    must_tell(&rt, &[0, 2_000, 2_999, 9_000], true, "recovered, 2.0 s\n")?;
    must_tell(
        &rt,
        &[0, 999, 1_999, 9_000],
        true,
        "read the trace, 1.0 s\n",
    )?;
    must_tell(&rt, &[0, 2_000, 3_500, 9_000], false, "")
}

#[test]
fn of_a_read_that_failed_nothing_is_told(rt: HostRuntime) -> Result<(), Fail> {
    let inner = five_bytes(&rt, &[0])?;
    let mut said = Vec::new(rt.alloc());
    let read = read_five(&rt, inner, &[0, 1_200, 5_000], &mut said, true);
    must_hold(&rt, read == Err(ReadAllFault::Failed), "the answer");
    let told = b"recovered, 1.2 s\n".as_slice();
    must_hold(&rt, said.as_slice() == told, "what is told");
    Ok(())
}
