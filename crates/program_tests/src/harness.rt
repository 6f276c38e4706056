//! Calls of the program over ports in memory.
use std::alloc::{AllocError, Global};
use std::process::{Abort, ExitCode};
use std::str;
use std::sync::Wait;
use std::thread::Threads;
use tool_ports::{BytesSource, FailedPut, MapStore, VecSink};
use tool_program::run_ports;

// Room for the longest text of a test.
const ROOM: usize = 1 << 14;

/// What a call ended with, and what it wrote.
#[derive(Drop)]
pub struct Ended {
    pub status: ExitCode,
    out: VecSink,
    errors: VecSink,
}

impl Ended {
    /// The text on standard output.
    pub fn text(&self) -> &str {
        str::from_utf8(self.out.bytes()).unwrap_or("no text")
    }

    /// The text on standard error.
    pub fn errors(&self) -> &str {
        str::from_utf8(self.errors.bytes()).unwrap_or("no text")
    }
}

/// A store that has no image yet, and fails at no call.
pub fn empty_store(alloc: Global) -> MapStore {
    MapStore::new(alloc, Vec::new(alloc), FailedPut::LeavesOld)
}

fn sink(alloc: Global) -> Result<VecSink, AllocError> {
    VecSink::new(alloc, Vec::new(alloc), ROOM, ROOM)
}

fn input_of(alloc: Global, text: &str) -> Result<BytesSource, AllocError> {
    let bytes = String::from_str(alloc, text)?.into_bytes();
    Ok(BytesSource::new(Vec::new(alloc), ROOM, bytes))
}

// The arguments of the process: the program's name, and the words of the line behind it.
fn arguments_of(alloc: Global, line: &str) -> Result<Vec<String>, AllocError> {
    let mut arguments = Vec::new(alloc);
    arguments.push(String::from_str(alloc, "heap_tool")?)?;
    for word in line.split(' ') {
        arguments.push(String::from_str(alloc, word)?)?;
    }
    Ok(arguments)
}

/// Calls the program with the words of a line, over what the store has.
pub fn call(
    rt: &(impl AllocGlobal + Threads + Wait + Sync),
    images: &mut MapStore,
    line: &str,
    input: &str,
) -> Result<Ended, AllocError> {
    let alloc = rt.alloc();
    let arguments = arguments_of(alloc, line)?;
    let mut trace = input_of(alloc, input)?;
    let mut out = sink(alloc)?;
    let mut errors = sink(alloc)?;
    let status = run_ports(
        rt,
        alloc,
        Ok(arguments.into_iter()),
        images,
        &mut trace,
        &mut out,
        &mut errors,
    );
    Ok(Ended {
        status,
        out,
        errors,
    })
}

/// Asserts what the text tells of. An assertion makes a long function slow to prove; a call of this
/// one does not.
pub fn must_hold(rt: &impl Abort, holds: bool, told: &str) {
    assert!(rt; holds, "{told}");
}
