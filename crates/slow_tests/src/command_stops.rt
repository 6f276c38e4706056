//! The command `rebuild` stopped at each of its steps: what it prints, and that it is gone on with.
use crate::calls::{make, must_hold, runs, store_with};
use line_memory::ConstantChance;
use region_header::words_to_bytes;
use std::alloc::{AllocError, Global};
use std::process::Abort;
use std::sync::Wait;
use std::test::Fail;
use std::thread::Threads;
use test_images::image_of;
use tool_ports::{Chances, MapStore, SeededChances};

const DONE: &str = "rebuild done\nheap 2 dirty\nheld 64 1\n";

const STOPPED: &str = "rebuild stopped\nheap 2 dirty\nheld 64 1\n";

/// An image of two superblocks of which the first has blocks of 64 bytes; root 8 leads to its first
/// block.
#[tactic(auto, unfolding(heap_model::specs::Geometry::largest_capacity))]
fn one_block(alloc: Global) -> Result<Vec<u8>, Fail> {
    let words = image_of(alloc, 2, "used 1, info:0 4, root:8 @1080")?;
    Ok(words_to_bytes(alloc, &words)?.into_vec())
}

/// The status of a recovery that is to stop at this step, and what it prints.
fn stopped_at<C: Chances>(
    rt: &(impl AllocGlobal + Threads + Wait + Sync),
    images: &mut MapStore,
    budget: u64,
    chances: &mut C,
) -> Result<(u8, Vec<u8>), AllocError> {
    let line = format!(in rt.alloc(); "rebuild h --stop {budget}")?;
    make(rt, &line, Vec::new(rt.alloc()), images, chances)
}

/// Stops a recovery of the image in the store at this step: the answer is whether it is done.
fn is_done_at<C: Chances>(
    rt: &(impl Abort + AllocGlobal + Threads + Wait + Sync),
    images: &mut MapStore,
    budget: u64,
    chances: &mut C,
) -> Result<bool, Fail> {
    let (status, printed) = stopped_at(rt, images, budget, chances)?;
    must_hold(rt, status == 0, "its status");
    let is_done = printed.as_slice() == DONE.as_bytes();
    let is_stopped = printed.as_slice() == STOPPED.as_bytes();
    must_hold(rt, is_done || is_stopped, "what it prints");
    Ok(is_done)
}

/// Stops a recovery of the image at this step, and goes on from what the stop left: the answer is
/// whether there was no stop.
fn goes_on_from<C: Chances>(
    rt: &(impl Abort + AllocGlobal + Threads + Wait + Sync),
    image: &[u8],
    budget: u64,
    chances: &mut C,
) -> Result<bool, Fail> {
    let mut images = store_with(rt.alloc(), image)?;
    let is_done = is_done_at(rt, &mut images, budget, chances)?;
    let none = Vec::new(rt.alloc());
    runs(rt, &mut images, chances, "rebuild h", none, 0, DONE)?;
    Ok(is_done)
}

/// Stops a recovery at each step until it is done, and goes on from what each stop left.
fn is_told_at_each_stop<C: Chances>(
    rt: &(impl Abort + AllocGlobal + Threads + Wait + Sync),
    chances: &mut C,
) -> Result<(), Fail> {
    let image = one_block(rt.alloc())?;
    for budget in 0..10_000u64 {
        if goes_on_from(rt, &image, budget, chances)? {
            must_hold(rt, 2_000 < budget, "it takes steps");
            return Ok(());
        }
    }
    Err("it is never done".into())
}

#[test]
fn each_stop_with_nothing_written_back_early(rt: HostRuntime) -> Result<(), Fail> {
    is_told_at_each_stop(&rt, &mut ConstantChance(0))
}

#[test]
fn each_stop_with_each_store_written_back(rt: HostRuntime) -> Result<(), Fail> {
    is_told_at_each_stop(&rt, &mut ConstantChance(1))
}

#[test]
fn each_stop_with_stores_written_back_by_a_seed(rt: HostRuntime) -> Result<(), Fail> {
    is_told_at_each_stop(&rt, &mut SeededChances::new())
}
