//! The tool's output as a sink, over a writer that is full, and one that is interrupted and fails.
//! What is counted is told by clauses, since the count is seen by no call.
ghost use Rattle.std.specs.Prelude.{IsErr};
ghost use Rattle.file_ports.specs.OutputSink.{fault_count};
ghost use Rattle.tool_ports.specs.Causes.{HasCause, Rose};

use crate::asserts::must_hold;
use file_ports::OutputSink;
use std::io;
use std::io::{ErrorKind, Write};
use std::process::Abort;
use std::test::Fail;
use tool_ports::{Failed, write_all};

// Writes three bytes, and then three more, for which there is no room.
fn overfill<'a>(rt: &impl Abort, room: &'a mut [u8]) -> OutputSink<&'a mut [u8]>
    ensures { Rose 0 (fault_count result) }
{
    let mut sink = OutputSink::new(room);
    must_hold(rt, write_all(&mut sink, b"abc") == Ok(()), "the first");
    must_hold(
        rt,
        write_all(&mut sink, b"def") == Err(Failed),
        "the second",
    );
    sink
}

#[test]
fn a_writer_that_takes_nothing_has_failed(rt: HostRuntime) -> Result<(), Fail> {
    let mut room = [b'-'; 4];
    let _ = overfill(&rt, &mut room[..]);
    must_hold(
        &rt,
        room.as_slice() == b"abcd".as_slice(),
        "what is written",
    );
    Ok(())
}

// Takes one byte by each call, is interrupted before each, and fails at a call.
#[derive(Drop)]
struct Uneven<'a> {
    calls: u64,
    fails_at: u64,
    room: &'a mut [u8],
}

impl<'a> Write for Uneven<'a> {
    fn write(&mut self, buf: &[u8]) -> io::Result<usize> {
        self.calls = self.calls.wrapping_add(1);
        if self.calls == self.fails_at {
            return Err(ErrorKind::Other.into());
        }
        if self.calls % 2 == 1 {
            return Err(ErrorKind::Interrupted.into());
        }
        self.room.write(&buf[..buf.len().min(1)])
    }

    fn flush(&mut self) -> io::Result<()> {
        Ok(())
    }
}

// Writes three bytes, where a call fails, or none.
fn write_three<'a>(
    rt: &impl Abort,
    fails_at: u64,
    room: &'a mut [u8],
    wanted: Result<(), Failed>,
) -> OutputSink<Uneven<'a>>
    ensures { HasCause 0 (fault_count result) (IsErr wanted) }
{
    let mut sink = OutputSink::new(Uneven {
        calls: 0,
        fails_at,
        room,
    });
    must_hold(rt, write_all(&mut sink, b"abc") == wanted, "the answer");
    sink
}

// The same: so many are written.
fn must_write(rt: &impl Abort, fails_at: u64, wanted: Result<(), Failed>, written: &[u8]) {
    let mut room = [b'-'; 3];
    let _ = write_three(rt, fails_at, &mut room[..], wanted);
    must_hold(rt, room.as_slice() == written, "what is written");
}

#[test]
fn all_is_written_over_interruptions(rt: HostRuntime) -> Result<(), Fail> {
    must_write(&rt, 0, Ok(()), b"abc");
    must_write(&rt, 1, Err(Failed), b"---");
    must_write(&rt, 4, Err(Failed), b"a--");
    Ok(())
}
