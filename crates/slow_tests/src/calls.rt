//! Calls of the tool over an image in memory, and what is wanted of them.
use line_memory::ConstantChance;
use std::alloc::{AllocError, Global};
use std::process::Abort;
use std::sync::Wait;
use std::test::Fail;
use std::thread::Threads;
use tool_ports::{BytesSource, Chances, FailedPut, ImageStore, MapStore, OpenGate, VecSink};
use tool_run::run_tool;

/// Room for the longest text of a test.
const ROOM: usize = 1 << 22;

/// A store with this image under the name h. None of its calls fails.
pub fn store_with(alloc: Global, image: &[u8]) -> Result<MapStore, Fail> {
    let mut images = MapStore::new(alloc, Vec::new(alloc), FailedPut::LeavesOld);
    images.put(alloc, "h", image)?;
    Ok(images)
}

fn words_of(alloc: Global, line: &str) -> Result<Vec<String>, AllocError> {
    let mut words = Vec::new(alloc);
    for word in line.split(' ') {
        words.push(String::from_str(alloc, word)?)?;
    }
    Ok(words)
}

/// Makes the call: its status, and the bytes that it printed.
pub fn make<C: Chances>(
    rt: &(impl AllocGlobal + Threads + Wait + Sync),
    line: &str,
    trace: Vec<u8>,
    images: &mut MapStore,
    chances: &mut C,
) -> Result<(u8, Vec<u8>), AllocError> {
    let words = words_of(rt.alloc(), line)?;
    let mut out = VecSink::new(rt.alloc(), Vec::new(rt.alloc()), ROOM, ROOM)?;
    let mut help = VecSink::new(rt.alloc(), Vec::new(rt.alloc()), ROOM, 0)?;
    let mut trace = BytesSource::new(Vec::new(rt.alloc()), 1 << 20, trace);
    let status = run_tool(
        rt,
        rt.alloc(),
        &words,
        images,
        &mut trace,
        &mut out,
        &mut help,
        &OpenGate,
        chances,
    );
    Ok((status.code(), Vec::from_slice(rt.alloc(), out.bytes())?))
}

/// The image that a call makes, as `format h 1`.
pub fn image_made(
    rt: &(impl AllocGlobal + Threads + Wait + Sync),
    line: &str,
) -> Result<Vec<u8>, Fail> {
    let mut images = store_with(rt.alloc(), b"")?;
    let chance = &mut ConstantChance(0);
    make(rt, line, Vec::new(rt.alloc()), &mut images, chance)?;
    Ok(Vec::from_slice(rt.alloc(), images.image("h").unwrap_or(&[]))?)
}

/// Asserts what the text tells of. An assertion makes a long function slow to prove; a call of this
/// one does not.
pub fn must_hold(rt: &impl Abort, holds: bool, told: &str) {
    assert!(rt; holds, "{told}");
}

/// Makes the call, which is to end with this status and to print this text.
pub fn runs<C: Chances>(
    rt: &(impl Abort + AllocGlobal + Threads + Wait + Sync),
    images: &mut MapStore,
    chances: &mut C,
    line: &str,
    trace: Vec<u8>,
    status: u8,
    text: &str,
) -> Result<(), Fail> {
    let (code, printed) = make(rt, line, trace, images, chances)?;
    must_hold(rt, code == status, line);
    must_hold(rt, printed.as_slice() == text.as_bytes(), line);
    Ok(())
}
