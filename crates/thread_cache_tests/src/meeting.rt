//! Two seats, one of which acts between two steps of a call of the other: each exchange is lost once
//! that another seat can make in between.

use crate::apart::are_all_apart;
use crate::fixtures::MANY;
use crate::scenes::{Scene, must_recover, play_rows, play_scene};
use crate::together::Left;
use std::alloc::Global;
use std::test::Fail;
use std::thread::Threads;

/// With nobody between, a superblock that was never taken takes 12 draws, one of the free ones 11,
/// and the free blocks of one of the class 6. A lost exchange takes so many more: 2 of the mark or
/// of all free blocks, 3 of a pop, a push, or a batch that is given behind other free blocks.
const LOST: &str = "
# the mark
2 | - | 3 | take 14336 1 | take 14336 1 | 14 12 | used 2 | used 2
# a pop of a free superblock, and of one of the class
2 | used 2 | 3 | take 14336 1 | take 14336 1 | 14 11 | 16 33554432 | -
2 | used 2, info:0 20, info:1 20, root:8 @1080, root:9 @9272 | 2 | take 14336 1 | \
    take 14336 1 | 9 6 | 36 33554432 | -
# a push of a free superblock, and of one of the class
2 | - | 5 5 4 | take 65536 1, free 1 | take 65536 1, free 1 | 13 10 | 16 1, link:0 2, \
    link:1 0 | -
2 | - | 23 | take 14336 1, quiet | take 14336 1, quiet | 27 24 | 36 1, link:0 2, link:1 0 | -
# a batch that is given
1 | - | 24 8 5 | take 14336 1, quiet, free 1, quiet | take 14336 3, free 1, quiet | 33 18 | \
    anchor:0 17179869185 | -
# all free blocks
1 | - | 23 4 | take 14336 2, quiet, free 1, quiet | take 14336 1 | 30 8 | anchor:0 2 | -
";

#[test]
fn an_exchange_is_lost_where_another_seat_was_faster(rt: HostRuntime) -> Result<(), Fail> {
    play_rows(&rt, LOST, 0)
}

/// The first superblock of a list is the same again: it was popped, with what stood behind it, and
/// is pushed once more. The head counts the pops, so the exchange is lost.
const BACK: &str = "
# a pop of a free superblock, and of one of the class
2 | used 2 | 3 | take 14336 1 | take 14336 8, drop 0, drop 1, drop 2, drop 3 | 14 50 | \
    16 50331648 | -
2 | used 2, info:0 20, info:1 20, root:8 @1080, root:9 @9272 | 2 | take 14336 1 | \
    take 14336 6, drop 0, quiet | 9 26 | 36 50331648, anchor:0 2 | -
# a push of a free superblock, and of one of the class
2 | used 1 | 9 | take 65536 1, free 1 | take 14336 4, free 4 | 13 36 | 16 16777218, link:1 1 | -
2 | - | 15 24 9 | take 14336 4, free 1, quiet | take 14336 1, quiet, take 14336 3, free 1, \
    quiet | 28 42 | 36 16777217, link:0 2 | -
";

#[test]
fn an_exchange_is_lost_where_a_head_came_back(rt: HostRuntime) -> Result<(), Fail> {
    play_rows(&rt, BACK, 0)
}

/// What a seat stored last is durable where chance gives an odd number, and else only where it was
/// made so.
const LATE: &str = "
1 | - | - | take 14336 1 | quiet | 12 0 | 1072 2864, 4656 6448, anchor:0 2 | 1072 0, 4656 0, info:0 20
";

const EARLY: &str = "
1 | - | - | take 14336 1 | quiet | 12 0 | 1072 2864, 4656 6448, anchor:0 2 | 1072 2864, 4656 6448, \
    info:0 20
";

#[test]
fn chance_makes_the_last_store_durable(rt: HostRuntime) -> Result<(), Fail> {
    play_rows(&rt, LATE, 0)?;
    play_rows(&rt, EARLY, 1)
}

/// What one seat does, and at its end, when it takes all blocks that there are.
const FIRST: &str =
    "take 14336 3, free 1, quiet, take 14336 1, put 0, take 14336 1, free 1, clear 0, \
    free 3, quiet";

const END: &str = "take 14336 12, full 14336 3";

/// What the other one does, and leaves nothing.
const SECOND: &str =
    "take 14336 2, quiet, free 1, quiet, take 14336 4, put 0, drop 0, drop 0, quiet, \
    clear 0, free 3, quiet";

/// Asserts that so many blocks are given, each once, and that none is lost.
fn must_give(alloc: Global, left: &Left, given: usize) -> Result<(), Fail> {
    left.report.told?;
    if !are_all_apart(&left.report.given) || left.report.given.len() != given {
        return Err("not each block is given once".into());
    }
    must_recover(alloc, &left.closed)
}

/// Plays these lines, and the second seat's behind so many draws of the first one. How often that
/// drew.
fn meet_behind<R: Threads + Sync>(
    rt: &R,
    alloc: Global,
    first: &str,
    draws: u64,
    given: usize,
) -> Result<u64, Fail> {
    let order = format!(in alloc; "{draws}")?;
    let scene = Scene {
        capacity: 3,
        words: "used 1",
        order: &order,
        first,
        second: SECOND,
        drawn: draws,
    };
    let ([drawn, _], left) = play_scene(rt, alloc, &scene, MANY)?;
    must_give(alloc, &left, given)?;
    Ok(drawn)
}

#[test]
fn no_block_is_lost_wherever_another_seat_comes_between(rt: HostRuntime) -> Result<(), Fail> {
    let all = format!(in rt.alloc(); "{FIRST}, {END}")?;
    for draws in 0..=meet_behind(&rt, rt.alloc(), FIRST, MANY, 0)? {
        meet_behind(&rt, rt.alloc(), &all, draws, 12)?;
    }
    Ok(())
}
