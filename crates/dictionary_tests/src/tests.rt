//! What the requests answer, and what is read back from the images that are left.
ghost use Rattle.std.specs.Prelude.{◌≤◌};

use crate::asks::{Ask, MANY, found_in, opened, run};
use crate::checks::must_hold;
use crate::recoveries::empty;
use crate::standing::Standing;
use block_heap::{AllocFault, Closed, Looks};
use line_memory::ConstantChance;
use std::alloc::Global;
use std::process::Abort;
use std::test::Fail;

/// Asserts that the image has what the requests leave of an empty map, in so many blocks.
fn must_have(
    rt: &(impl Abort + AllocGlobal),
    image: &[u64],
    asks: &[Ask],
    held: usize,
) -> Result<(), Fail> {
    let found = found_in(rt.alloc(), image)?;
    must_hold(rt, found.held == held, "the blocks");
    must_hold(rt, found.is_after(rt.alloc(), asks, asks.len()), "the map");
    Ok(())
}

/// Asserts it of what loads saw and of what a crash would have left.
fn must_both_have(
    rt: &(impl Abort + AllocGlobal),
    closed: &Closed,
    asks: &[Ask],
    held: usize,
) -> Result<(), Fail> {
    must_have(rt, &closed.now, asks, held)?;
    must_have(rt, &closed.kept, asks, held)
}

/// Makes the requests over the image, all of which are answered.
fn run_all(
    rt: &(impl Abort + AllocGlobal),
    image: &[u64],
    asks: &[Ask],
    number: u64,
) -> Result<Closed, Fail> {
    let left = run(rt.alloc(), image, asks, (MANY, number))?;
    must_hold(rt, left.answered == asks.len(), "all are answered");
    Ok(left.closed)
}

/// Makes the requests of an empty heap.
pub fn run_on_empty(
    rt: &(impl Abort + AllocGlobal),
    capacity: u64,
    asks: &[Ask],
    number: u64,
) -> Result<Closed, Fail>
    requires some { 1 ≤ capacity }
    requires small { capacity ≤ 16 }
{
    let image = empty(rt.alloc(), capacity)?;
    run_all(rt, &image, asks, number)
}

/// Opens an empty heap of up to sixteen superblocks, with more steps than are taken.
pub fn opened_empty(alloc: Global, capacity: u64) -> Result<Standing<ConstantChance>, Fail>
    requires some { 1 ≤ capacity }
    requires small { capacity ≤ 16 }
{
    opened(alloc, &empty(alloc, capacity)?, (MANY, 0))
}

/// Why a put finds no room for its node where the table takes the only superblock.
const FULL: AllocFault = AllocFault::Full(Looks {
    class_head: 0,
    free_head: 0,
    used: 1,
});

fn finds_no_room(rt: &impl Abort, heap: &mut Standing<ConstantChance>) -> Result<(), Fail> {
    must_hold(rt, heap.put(1, b"12345678")? == Err(FULL), "no room");
    Ok(())
}

/// What such a put leaves.
fn left_without_room(rt: &(impl Abort + AllocGlobal)) -> Result<Closed, Fail> {
    let mut heap = opened_empty(rt.alloc(), 1)?;
    finds_no_room(rt, &mut heap)?;
    Ok(heap.finish())
}

#[test]
fn a_put_without_room_for_its_node_leaves_a_table(rt: HostRuntime) -> Result<(), Fail> {
    must_both_have(&rt, &left_without_room(&rt)?, &[], 1)
}

const OLD: [Ask; 1] = [Ask::Put(0, 2, b'a')];

const NEW: [Ask; 1] = [Ask::Put(0, 2, b'b')];

/// Whether the value in the image is the new one, and not the old one.
fn has_new_value(rt: &(impl Abort + AllocGlobal), image: &[u64]) -> Result<bool, Fail> {
    let found = found_in(rt.alloc(), image)?;
    let is_new = found.is_after(rt.alloc(), &NEW, 1);
    let is_old = found.is_after(rt.alloc(), &OLD, 1);
    must_hold(rt, found.held == 2, "a table and a node");
    must_hold(rt, is_new || is_old, "a value");
    Ok(is_new)
}

/// Stops a put over the image of the old value; the answer is whether it was done, and whether the
/// value is the new one.
fn stop_put(
    rt: &(impl Abort + AllocGlobal),
    image: &[u64],
    bounds: (u64, u64),
) -> Result<(bool, bool), Fail> {
    let left = run(rt.alloc(), image, &NEW, bounds)?;
    let is_new = has_new_value(rt, &left.closed.kept)?;
    Ok((left.answered == 1, is_new))
}

/// The image of the old value.
fn old_image(rt: &(impl Abort + AllocGlobal), number: u64) -> Result<Vec<u64>, Fail> {
    Ok(run_on_empty(rt, 4, &OLD, number)?.kept)
}

/// Stops a put over that image at each step until it is done: from some step on the value is the
/// new one.
fn stop_each_put(rt: &(impl Abort + AllocGlobal), image: &[u64], number: u64) -> Result<(), Fail> {
    let mut was_new = false;
    for budget in 0..1_000u64 {
        let (is_done, is_new) = stop_put(rt, image, (budget, number))?;
        must_hold(rt, is_new || !was_new, "never the old value again");
        was_new = is_new;
        if is_done {
            must_hold(rt, is_new, "the put ends");
            return Ok(());
        }
    }
    Err("the put does not end".into())
}

#[test]
fn a_replaced_value_is_the_old_one_until_it_is_the_new_one(rt: HostRuntime) -> Result<(), Fail> {
    stop_each_put(&rt, &old_image(&rt, 0)?, 0)?;
    stop_each_put(&rt, &old_image(&rt, 1)?, 1)
}

/// The lengths of values at both ends, and near a word.
pub const LENGTHS: [usize; 6] = [0, 1, 8, 9, 131_071, 131_072];

/// Puts values of two lengths over the image, one in place of the other.
fn replaces(
    rt: &(impl Abort + AllocGlobal),
    image: &[u64],
    before: usize,
    after: usize,
) -> Result<(), Fail> {
    let asks = [Ask::Put(u64::MAX, before, 1), Ask::Put(u64::MAX, after, 2)];
    let closed = run_all(rt, image, &asks, 0)?;
    must_both_have(rt, &closed, &asks, 2)
}

/// Puts a value of each length in place of one of this length.
fn replaces_each(
    rt: &(impl Abort + AllocGlobal),
    image: &[u64],
    before: usize,
) -> Result<(), Fail> {
    for after in &LENGTHS {
        replaces(rt, image, before, *after)?;
    }
    Ok(())
}

#[test]
fn values_of_each_length_replace_one_another(rt: HostRuntime) -> Result<(), Fail> {
    let image = empty(rt.alloc(), 8)?;
    for before in &LENGTHS {
        replaces_each(&rt, &image, *before)?;
    }
    Ok(())
}

/// Three keys of one bucket, of which one goes; then it is gone, and so is another one.
fn leaves_its_chain(rt: &(impl Abort + AllocGlobal), gone: u64) -> Result<(), Fail> {
    let asks = [
        Ask::Put(0, 3, 1),
        Ask::Put(1_024, 4, 2),
        Ask::Put(2_048, 5, 3),
        Ask::Del(gone),
        Ask::Del(gone),
        Ask::Del(3_072),
    ];
    let closed = run_on_empty(rt, 4, &asks, 1)?;
    must_have(rt, &closed.kept, &asks, 3)
}

#[test]
fn a_key_leaves_its_chain_wherever_it_stands(rt: HostRuntime) -> Result<(), Fail> {
    leaves_its_chain(&rt, 0)?;
    leaves_its_chain(&rt, 1_024)?;
    leaves_its_chain(&rt, 2_048)
}
