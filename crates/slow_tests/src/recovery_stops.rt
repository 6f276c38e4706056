//! A recovery of an image of two superblocks, in which one block of 64 bytes is held, stopped at
//! each of its steps: what each stop left is recovered to the same.
use crate::calls::must_hold;
use crate::in_place::in_place;
use line_memory::ConstantChance;
use recovery_tests::{holds, torn, write};
use std::alloc::Global;
use std::process::Abort;
use std::test::Fail;
use super_block::{Block, CLEAN, MAGIC, VERSION};

/// The one block that is held.
const HELD: [Block; 1] = [Block {
    first_word: 1_080,
    words: 8,
}];

/// Its words: the first two and the last.
const WORDS: [(usize, u64); 3] = [(1_080, 7), (1_081, 1), (1_087, u64::MAX)];

/// The kinds of the roots that lead to tables, behind the last superblock.
const KINDS: [(usize, u64); 8] = [
    (17_464, 1),
    (17_465, 1),
    (17_466, 1),
    (17_467, 1),
    (17_468, 1),
    (17_469, 1),
    (17_470, 1),
    (17_471, 1),
];

/// An image of two superblocks of which the first has blocks of 64 bytes; root 8 leads to its first
/// block.
fn image(alloc: Global) -> Result<Vec<u64>, Fail> {
    let mut image = vec![in alloc; 0; 18_488]?;
    let words = [
        (0, MAGIC),
        (1, VERSION),
        (2, 2),
        (3, CLEAN),
        (8, 1),
        (48, 0x5250_0000_0000_21c0),
        (1_064, 4),
    ];
    write(&mut image, &words);
    write(&mut image, &WORDS);
    write(&mut image, &KINDS);
    Ok(image)
}

/// Recovers what a crash left to its end.
fn is_recovered(
    rt: &(impl Abort + AllocGlobal),
    crashed: &[u64],
    chance: ConstantChance,
) -> Result<(), Fail> {
    let again = in_place(rt.alloc(), crashed, u64::MAX, chance)?;
    must_hold(
        rt,
        holds(&again.found, &HELD, &WORDS),
        "the block at the end",
    );
    let is_whole = again.kept.as_slice() == again.found.heap.words();
    must_hold(rt, !again.stopped && is_whole, "it is done");
    Ok(())
}

/// Stops the recovery at this step, and makes the recovery of what the stop left. The answer is
/// whether there was no stop.
fn goes_on_from(
    rt: &(impl Abort + AllocGlobal),
    image: &[u64],
    budget: u64,
    chance: ConstantChance,
) -> Result<bool, Fail> {
    let first = in_place(rt.alloc(), image, budget, chance)?;
    must_hold(
        rt,
        holds(&first.found, &HELD, &WORDS),
        "the block at a stop",
    );
    let is_done = !first.stopped;
    is_recovered(rt, &torn(first.kept, 2), chance)?;
    Ok(is_done)
}

/// Stops the recovery at each step until it is done, and makes the recovery of what each stop left.
fn goes_on_from_each_stop(
    rt: &(impl Abort + AllocGlobal),
    chance: ConstantChance,
) -> Result<(), Fail> {
    let image = image(rt.alloc())?;
    for budget in 0..10_000u64 {
        if goes_on_from(rt, &image, budget, chance)? {
            must_hold(rt, 2_000 < budget, "it takes steps");
            return Ok(());
        }
    }
    Err("it is never done".into())
}

#[test]
fn each_stop_with_nothing_written_back_early(rt: HostRuntime) -> Result<(), Fail> {
    goes_on_from_each_stop(&rt, ConstantChance(0))
}

#[test]
fn each_stop_with_each_store_written_back(rt: HostRuntime) -> Result<(), Fail> {
    goes_on_from_each_stop(&rt, ConstantChance(1))
}
