//! An image of 257 superblocks, one more than the old version may have, made, shown and drained;
//! and one of as many bytes that has one superblock.
use crate::calls::{must_hold, runs, store_with};
use line_memory::ConstantChance;
use region_header::words_to_bytes;
use std::alloc::{AllocError, Global};
use std::process::Abort;
use std::sync::Wait;
use std::test::Fail;
use std::thread::Threads;
use test_images::image_of;
use tool_ports::MapStore;

/// Makes a call without input, which is to end with this status and to print this text.
fn must_tell(
    rt: &(impl Abort + AllocGlobal + Threads + Wait + Sync),
    images: &mut MapStore,
    line: &str,
    status: u8,
    text: &str,
) -> Result<(), Fail> {
    let none = Vec::new(rt.alloc());
    runs(rt, images, &mut ConstantChance(0), line, none, status, text)
}

/// What is told of class 10 where all superblocks are fresh: each of its blocks of 512 bytes.
fn all_blocks(alloc: Global) -> Result<String, AllocError> {
    let mut text = String::from_str(alloc, "class 10 size 512 blocks 32896\n")?;
    for block in 0..32_896u64 {
        writeln!(text, "{}", 24_960 + 512 * block)?;
    }
    Ok(text)
}

fn is_made_and_shown(
    rt: &(impl Abort + AllocGlobal + Threads + Wait + Sync),
    images: &mut MapStore,
) -> Result<(), Fail> {
    let made = "formatted 257 bytes 16875904\n";
    must_tell(rt, images, "format h 257", 0, made)?;
    must_tell(rt, images, "show h", 0, "heap 257 clean\n")?;
    let length = images.image("h").unwrap_or(&[]).len();
    must_hold(rt, length == 16_875_904, "its length");
    Ok(())
}

#[test]
fn a_large_heap_is_made_shown_and_drained(rt: HostRuntime) -> Result<(), Fail> {
    let mut images = store_with(rt.alloc(), b"")?;
    is_made_and_shown(&rt, &mut images)?;
    let blocks = all_blocks(rt.alloc())?;
    must_tell(&rt, &mut images, "drain h 10", 0, &blocks)
}

/// An image of one superblock, filled up to as many bytes as one of 257 has.
#[tactic(auto, unfolding(heap_model::specs::Geometry::largest_capacity))]
fn longer_image(alloc: Global) -> Result<Vec<u8>, Fail> {
    let words = image_of(alloc, 1, "state 1, used 0")?;
    filled_up(words_to_bytes(alloc, &words)?.into_vec())
}

fn filled_up(mut bytes: Vec<u8>) -> Result<Vec<u8>, Fail> {
    bytes.resize(16_875_904, 0)?;
    Ok(bytes)
}

#[test]
fn an_image_that_is_too_long_is_refused(rt: HostRuntime) -> Result<(), Fail> {
    let image = longer_image(rt.alloc())?;
    let mut images = store_with(rt.alloc(), &image)?;
    must_tell(&rt, &mut images, "show h", 7, "bad header length\n")?;
    must_hold(
        &rt,
        images.image("h") == Some(image.as_slice()),
        "as before",
    );
    Ok(())
}
