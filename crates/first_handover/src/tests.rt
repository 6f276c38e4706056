//! A run with ample memory hands the block over.

use crate::{HandedOver, Received, hand_over};
use mixed_trace::recover_conservatively;
use region_header::format;
use std::test::Fail;

/// How many superblocks the heap has: each thread takes one.
const CAPACITY: u64 = 2;

const VALUE: u64 = 0x1234_5678;

/// What was received must be the value, in a block of as many words as the two others.
fn must_be_handed(left: &HandedOver) -> Result<Received, Fail> {
    let (Ok(kept), Ok(own), Some(received)) = (left.kept, left.own, left.received) else {
        return Err("no block was handed over".into());
    };
    if received.value != VALUE {
        return Err("another value was read".into());
    }
    if received.block.words != kept.words || received.block.words != own.words {
        return Err("the blocks have other sizes".into());
    }
    Ok(received)
}

#[test]
#[tactic(auto, unfolding(heap_model::specs::Geometry::largest_capacity))]
fn a_block_goes_from_one_thread_to_another(rt: HostRuntime) -> Result<(), Fail> {
    let alloc = rt.alloc();
    let image = format(alloc, CAPACITY)?;
    let heap = recover_conservatively(alloc, &image)?.heap;
    let left = hand_over(&rt, alloc, heap, VALUE)?;
    let received = must_be_handed(&left)?;
    if left.words.kept.get(received.block.first_word as usize) != Some(&VALUE) {
        return Err("a crash loses the value".into());
    }
    Ok(())
}
