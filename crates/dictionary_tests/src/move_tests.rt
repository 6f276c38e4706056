//! Nodes that go from key to key: what is read back from the images that are left, and what a stop
//! leaves of them.
use crate::asks::{Ask, MANY, found_in, opened, run, set};
use crate::checks::must_hold;
use crate::recoveries::empty;
use crate::standing::Standing;
use block_heap::Closed;
use line_memory::ConstantChance;
use std::alloc::Global;
use std::process::Abort;
use std::test::Fail;

/// An empty heap of four superblocks, with more steps than are taken.
fn opened_empty(alloc: Global) -> Result<Standing<ConstantChance>, Fail> {
    opened(alloc, &empty(alloc, 4)?, (MANY, 0))
}

/// Asserts that the image has what the requests leave of an empty map, in so many blocks.
fn must_have(
    rt: &(impl Abort + AllocGlobal),
    image: &[u64],
    asks: &[Ask],
    held: usize,
) -> Result<(), Fail> {
    let found = found_in(rt.alloc(), image)?;
    must_hold(rt, found.held == held, "the blocks");
    must_hold(rt, found.is_after(rt.alloc(), asks, asks.len()), "the map");
    Ok(())
}

/// Asserts it of what loads saw and of what a crash would have left.
fn must_both_have(
    rt: &(impl Abort + AllocGlobal),
    closed: &Closed,
    asks: &[Ask],
    held: usize,
) -> Result<(), Fail> {
    must_have(rt, &closed.now, asks, held)?;
    must_have(rt, &closed.kept, asks, held)
}

/// Sets keys of an empty heap, and moves a key; the answer is whether that was there.
fn moved(
    rt: &(impl Abort + AllocGlobal),
    puts: &[(u64, usize, u8)],
    (from, to): (u64, u64),
) -> Result<(bool, Closed), Fail> {
    let mut heap = opened_empty(rt.alloc())?;
    for put in puts {
        set(rt.alloc(), &mut heap, *put)?;
    }
    let Ok(found) = heap.move_key(from, to) else {
        return Err("the move ends".into());
    };
    Ok((found, heap.finish()))
}

/// Asserts that the move finds its key, and leaves what these requests leave, in so many blocks.
fn leaves(
    rt: &(impl Abort + AllocGlobal),
    puts: &[(u64, usize, u8)],
    ends: (u64, u64),
    (asks, held): (&[Ask], usize),
) -> Result<(), Fail> {
    let (found, closed) = moved(rt, puts, ends)?;
    must_hold(rt, found, "the key was there");
    must_both_have(rt, &closed, asks, held)
}

/// Asserts that the move finds nothing, and leaves what these requests leave, in so many blocks.
fn leaves_all(
    rt: &(impl Abort + AllocGlobal),
    puts: &[(u64, usize, u8)],
    ends: (u64, u64),
    (asks, held): (&[Ask], usize),
) -> Result<(), Fail> {
    let (found, closed) = moved(rt, puts, ends)?;
    must_hold(rt, !found, "the key was not there");
    must_both_have(rt, &closed, asks, held)
}

#[test]
fn a_missing_key_is_not_taken(rt: HostRuntime) -> Result<(), Fail> {
    leaves_all(&rt, &[], (0, 1), (&[], 1))?;
    leaves_all(&rt, &[(0, 2, 97)], (8, 1), (&[Ask::Put(0, 2, 97)], 3))?;
    leaves_all(&rt, &[(0, 2, 97)], (1_024, 0), (&[Ask::Put(0, 2, 97)], 2))
}

#[test]
fn a_node_is_brought_to_a_key_of_any_shard(rt: HostRuntime) -> Result<(), Fail> {
    leaves(&rt, &[(0, 2, 97)], (0, 9), (&[Ask::Put(9, 2, 97)], 3))?;
    leaves(&rt, &[(0, 0, 97)], (0, 8), (&[Ask::Put(8, 0, 97)], 2))?;
    leaves(
        &rt,
        &[(0, 9, 97)],
        (0, 1_024),
        (&[Ask::Put(1_024, 9, 97)], 2),
    )?;
    leaves(&rt, &[(0, 9, 97)], (0, 0), (&[Ask::Put(0, 9, 97)], 2))
}

/// Two keys of one bucket, and a third one of another shard.
const THREE: [(u64, usize, u8); 3] = [(0, 3, 1), (1_024, 40, 2), (9, 7, 3)];

#[test]
fn a_node_takes_the_place_of_the_keys_old_one(rt: HostRuntime) -> Result<(), Fail> {
    let asks = [Ask::Put(1_024, 40, 2), Ask::Put(9, 3, 1)];
    leaves(&rt, &THREE, (0, 9), (&asks, 4))?;
    let asks = [Ask::Put(9, 7, 3), Ask::Put(0, 40, 2)];
    leaves(&rt, &THREE, (1_024, 0), (&asks, 4))?;
    let asks = [Ask::Put(0, 3, 1), Ask::Put(1_024, 7, 3)];
    leaves(&rt, &THREE, (9, 1_024), (&asks, 4))
}

#[test]
fn a_table_is_made_once(rt: HostRuntime) -> Result<(), Fail> {
    let mut heap = opened_empty(rt.alloc())?;
    let first = heap.move_key(0, 1);
    let second = heap.move_key(0, 1);
    must_hold(&rt, first == Ok(false) && second == Ok(false), "no key");
    must_both_have(&rt, &heap.finish(), &[], 1)
}

/// The image in which key 0 has a value, and key 9 another one or none.
fn before(rt: &(impl Abort + AllocGlobal), asks: &[Ask], number: u64) -> Result<Vec<u64>, Fail> {
    let left = run(rt.alloc(), &empty(rt.alloc(), 4)?, asks, (MANY, number))?;
    must_hold(rt, left.answered == asks.len(), "all are answered");
    Ok(left.closed.kept)
}

/// Moves key 0 to key 9 until the heap stops; whether it was done, and what a crash leaves.
fn stop_move(alloc: Global, image: &[u64], bounds: (u64, u64)) -> Result<(bool, Vec<u64>), Fail> {
    let mut heap = opened(alloc, image, bounds)?;
    let is_done = heap.move_key(0, 9) == Ok(true);
    Ok((is_done, heap.finish().kept))
}

/// Which of the three maps the image has: that before the move, that between its two halves, or
/// that after it.
fn stage(
    rt: &(impl Abort + AllocGlobal),
    image: &[u64],
    maps: &[&[Ask]; 3],
) -> Result<usize, Fail> {
    let found = found_in(rt.alloc(), image)?;
    for (number, asks) in maps.iter().enumerate() {
        if found.is_after(rt.alloc(), asks, asks.len()) {
            return Ok(number);
        }
    }
    Err("another map".into())
}

/// Stops a move at each step until it is done: the maps that are left come in their order, and each
/// of them comes.
fn stop_each_move(
    rt: &(impl Abort + AllocGlobal),
    maps: &[&[Ask]; 3],
    number: u64,
) -> Result<(), Fail> {
    let image = before(rt, maps[0], number)?;
    let mut last: usize = 0;
    let mut was_between = false;
    for budget in 0..2_000u64 {
        let (is_done, kept) = stop_move(rt.alloc(), &image, (budget, number))?;
        let now = stage(rt, &kept, maps)?;
        must_hold(rt, last <= now, "never an earlier map again");
        last = now;
        was_between |= now == 1;
        if is_done {
            must_hold(rt, now == 2 && was_between, "the move ends");
            return Ok(());
        }
    }
    Err("the move does not end".into())
}

#[test]
fn a_stopped_move_leaves_the_key_at_its_begin_or_end_or_nowhere(
    rt: HostRuntime,
) -> Result<(), Fail> {
    let alone: [&[Ask]; 3] = [&[Ask::Put(0, 2, 97)], &[], &[Ask::Put(9, 2, 97)]];
    stop_each_move(&rt, &alone, 0)?;
    stop_each_move(&rt, &alone, 1)?;
    let both: [&[Ask]; 3] = [
        &[Ask::Put(0, 2, 97), Ask::Put(9, 1, 98)],
        &[Ask::Put(9, 1, 98)],
        &[Ask::Put(9, 2, 97)],
    ];
    stop_each_move(&rt, &both, 0)?;
    stop_each_move(&rt, &both, 1)
}
