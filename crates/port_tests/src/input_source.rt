//! The tool's input as a source, over a reader that is interrupted and fails. What is counted is
//! told by a clause, since the count is seen by no call.
ghost use Rattle.std.specs.Prelude.{IsErrOf};
ghost use Rattle.file_ports.specs.InputSource.{fault_count};
ghost use Rattle.tool_ports.specs.Causes.{HasCause};

use crate::asserts::{must_be, must_hold};
use file_ports::InputSource;
use std::io;
use std::io::{ErrorKind, Read};
use std::process::Abort;
use std::test::Fail;
use tool_ports::{ReadAllFault, read_all};

// Gives one byte by each call, is interrupted before each, and fails at a call.
#[derive(Drop)]
struct Uneven {
    calls: u64,
    fails_at: u64,
    left: u8,
}

impl Read for Uneven {
    fn read(&mut self, buf: &mut [u8]) -> io::Result<usize> {
        self.calls = self.calls.wrapping_add(1);
        if self.calls == self.fails_at {
            return Err(ErrorKind::Other.into());
        }
        if self.calls % 2 == 1 {
            return Err(ErrorKind::Interrupted.into());
        }
        match buf.first_mut() {
            Some(byte) if self.left > 0 => {
                *byte = self.left;
                self.left -= 1;
                Ok(1)
            }
            _ => Ok(0),
        }
    }
}

// Reads all of three bytes, where a call fails, or none: so many bytes come, or none where it
// failed.
fn must_read(
    rt: &(impl Abort + AllocGlobal),
    fails_at: u64,
    wanted: Result<usize, ReadAllFault>,
) -> InputSource<Uneven>
    ensures { HasCause 0 (fault_count result) (IsErrOf wanted ReadAllFault.Failed) }
{
    let mut source = InputSource::new(Uneven {
        calls: 0,
        fails_at,
        left: 3,
    });
    let count = match read_all(rt.alloc(), &mut source, 9) {
        Ok(bytes) => Ok(bytes.len()),
        Err(fault) => Err(fault),
    };
    must_hold(rt, count == wanted, "what is read");
    source
}

#[test]
fn a_reader_is_read_to_its_end_over_interruptions(rt: HostRuntime) -> Result<(), Fail> {
    let _ = must_read(&rt, 0, Ok(3));
    let _ = must_read(&rt, 1, Err(ReadAllFault::Failed));
    let _ = must_read(&rt, 6, Err(ReadAllFault::Failed));
    Ok(())
}

#[test]
fn bytes_come_in_order(rt: HostRuntime) -> Result<(), Fail> {
    let mut source = InputSource::new(b"abc".as_slice());
    let read = read_all(rt.alloc(), &mut source, 9).ok();
    must_be(&rt, read, b"abc", "what is read");
    Ok(())
}

// Gives a byte at each call but the second, as a terminal whose reader goes on behind its end.
#[derive(Drop)]
struct Resumed {
    calls: u64,
}

impl Read for Resumed {
    fn read(&mut self, buf: &mut [u8]) -> io::Result<usize> {
        self.calls = self.calls.wrapping_add(1);
        match buf.first_mut() {
            Some(byte) if self.calls != 2 => {
                *byte = 7;
                Ok(1)
            }
            _ => Ok(0),
        }
    }
}

#[test]
fn behind_its_end_a_reader_is_read_no_more(rt: HostRuntime) -> Result<(), Fail> {
    let mut source = InputSource::new(Resumed { calls: 0 });
    let read = read_all(rt.alloc(), &mut source, 9).ok();
    must_be(&rt, read, &[7], "what is read");
    let later = read_all(rt.alloc(), &mut source, 9).ok();
    must_be(&rt, later, b"", "what is read behind the end");
    Ok(())
}
