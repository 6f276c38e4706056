//! A heap that stopped answers its ticket to whatever is asked of it.
use crate::fixtures::{must_hold, numbers, recovered};
use crate::script::make;
use block_heap::{Block, SeqHeap, Stopped};
use line_memory::ConstantChance;
use std::process::Abort;
use std::test::Fail;

/// A request of each kind. The last one frees the block.
const EACH_KIND: &str = "alloc 64
alloc 70000
fence
load 0 2 0
store 0 2 5
write-back 0 2
free 0";

/// The one block of that heap.
const BLOCK: Block = Block {
    first_word: 1_080,
    words: 8,
};

/// Asserts that the heap answers its ticket to each request.
fn must_answer(
    rt: &(impl Abort + AllocGlobal),
    heap: &mut SeqHeap<ConstantChance>,
) -> Result<(), Fail> {
    let mut given = vec![in rt.alloc(); Some(BLOCK); 1]?;
    let stopped = Some(Stopped { step: 0 });
    for line in EACH_KIND.split('\n') {
        must_hold(
            rt,
            make(rt.alloc(), heap, &mut given, line)? == stopped,
            line,
        );
    }
    Ok(())
}

#[test]
fn a_heap_that_stopped_answers_its_ticket(rt: HostRuntime) -> Result<(), Fail> {
    let ready = recovered(rt.alloc(), 2, "used 1, info:0 4, root:8 @1080")?;
    let mut heap = SeqHeap::new(rt.alloc(), ready, 0, ConstantChance(1))?;
    must_answer(&rt, &mut heap)?;
    must_hold(&rt, heap.held_at(8_640) == Some(BLOCK), "it is held");
    has_no_other(&rt, &heap)
}

/// Asserts that the heap has no other block than one of 64 bytes that begins at 8,640.
fn has_no_other(
    rt: &(impl Abort + AllocGlobal),
    heap: &SeqHeap<ConstantChance>,
) -> Result<(), Fail> {
    let others = "0 8639 8641 8632 8648 8704 139712 147904 18446744073709551615";
    for offset in &numbers(rt.alloc(), others)? {
        must_hold(rt, has_none_at(heap, *offset), "another block");
    }
    Ok(())
}

/// Whether no held block begins at the byte offset.
fn has_none_at(heap: &SeqHeap<ConstantChance>, offset: u64) -> bool {
    heap.held_at(offset).is_none()
}
