//! A seat that stops at each ticket of a scene, and what recovery makes of what is left.

use crate::fixtures::must_hold;
use crate::holders::Halt;
use crate::rooted::held_in;
use crate::scenes::{Scene, play_scene};
use crate::together::Left;
use heap_seat::AllocFault;
use std::alloc::Global;
use std::process::Abort;
use std::test::Fail;
use std::thread::Threads;
use super_block::Block;

/// More tickets than a scene takes.
const LONG: u64 = 1_000;

/// A scene of one seat that publishes a block.
#[derive(Clone, Copy)]
struct Stops<'a> {
    acts: &'a str,
    /// The block that is published.
    block: Block,
    /// By how many acts are done: the least and the most blocks that are held in what a stop in the
    /// next one leaves, and at last in what the end leaves.
    held: &'a [(usize, usize)],
}

/// A seat takes the blocks of a superblock that was never taken and a large one, and frees them, the
/// large one first: the last one that it frees makes it flush its cache. Then it takes blocks of a
/// free superblock, and of one with free blocks, and publishes one of them for a while. At last it
/// finds a superblock in the list of the class all of whose blocks are free.
const FLUSHES: Stops<'static> = Stops {
    acts: "take 14336 4, take 65536 1, free 5, take 14336 2, quiet, take 14336 1, put 0, \
    drop 0, quiet, clear 0, free 1, quiet, free 1, quiet, take 14336 1, free 1, quiet",
    block: Block {
        first_word: 4_664,
        words: 1_792,
    },
    held: &[
        (0, 0),
        (0, 0),
        (0, 0),
        (0, 0),
        (0, 0),
        (0, 0),
        (0, 1),
        (1, 1),
        (1, 1),
        (0, 1),
        (0, 0),
        (0, 0),
        (0, 0),
        (0, 0),
        (0, 0),
        (0, 0),
        (0, 0),
        (0, 0),
    ],
};

/// A seat takes a block, publishes it, takes and frees a large one, clears the root, and frees the
/// block.
const PUBLISHES: Stops<'static> = Stops {
    acts: "take 14336 1, put 0, take 65536 1, free 1, clear 0, free 1",
    block: Block {
        first_word: 1_080,
        words: 1_792,
    },
    held: &[(0, 0), (0, 1), (1, 1), (1, 1), (0, 1), (0, 0), (0, 0)],
};

/// The ticket at which a seat stopped.
fn step_of(halt: Halt) -> Option<u64> {
    match halt {
        Halt::Stopped(stopped) | Halt::Refused(AllocFault::Stopped(stopped)) => Some(stopped.step),
        _ => None,
    }
}

/// Whether a scene came to its end, or else stopped at this very ticket.
fn has_ended(told: Result<(), Halt>, budget: u64) -> Result<bool, Halt> {
    match told {
        Ok(()) => Ok(true),
        Err(halt) if step_of(halt) == Some(budget) => Ok(false),
        Err(halt) => Err(halt),
    }
}

/// Whether recovery holds as many blocks as it may once so many acts are done: the published one.
fn holds_right(alloc: Global, stops: &Stops<'_>, image: &[u64], done: usize) -> Result<bool, Fail> {
    let held = held_in(alloc, image)?;
    let (least, most) = *stops.held.get(done).ok_or("no such act")?;
    let is_right = held.is_empty() || held.as_slice() == [stops.block].as_slice();
    Ok(is_right && least <= held.len() && held.len() <= most)
}

/// Asserts what is held in what a scene left.
fn must_leave(rt: &(impl Abort + AllocGlobal), stops: &Stops<'_>, left: &Left) -> Result<(), Fail> {
    let now = holds_right(rt.alloc(), stops, &left.closed.now, left.report.done)?;
    let kept = holds_right(rt.alloc(), stops, &left.closed.kept, left.report.done)?;
    must_hold(rt, now, "what loads see");
    must_hold(rt, kept, "what a crash leaves");
    Ok(())
}

/// Asserts what a scene of so many tickets leaves. Whether it ended.
fn ends<R: Threads + Sync + Abort + AllocGlobal>(
    rt: &R,
    stops: &Stops<'_>,
    budget: u64,
    drawn: u64,
) -> Result<bool, Fail> {
    let scene = Scene {
        capacity: 2,
        words: "",
        order: "-",
        first: stops.acts,
        second: "quiet",
        drawn,
    };
    let (_, left) = play_scene(rt, rt.alloc(), &scene, budget)?;
    must_leave(rt, stops, &left)?;
    Ok(has_ended(left.report.told, budget)?)
}

/// Plays a scene with each budget until it ends.
fn ends_everywhere<R: Threads + Sync + Abort + AllocGlobal>(
    rt: &R,
    stops: &Stops<'_>,
    drawn: u64,
) -> Result<(), Fail> {
    for budget in 0..LONG {
        if ends(rt, stops, budget, drawn)? {
            return Ok(());
        }
    }
    Err("the scene never ends".into())
}

#[test]
fn wherever_a_seat_stops_recovery_frees_what_no_root_reaches(rt: HostRuntime) -> Result<(), Fail> {
    ends_everywhere(&rt, &FLUSHES, 0)
}

#[test]
fn it_does_so_where_words_are_durable_early(rt: HostRuntime) -> Result<(), Fail> {
    ends_everywhere(&rt, &FLUSHES, 1)
}

#[test]
fn recovery_holds_a_block_while_a_root_leads_to_it(rt: HostRuntime) -> Result<(), Fail> {
    ends_everywhere(&rt, &PUBLISHES, 0)?;
    ends_everywhere(&rt, &PUBLISHES, 1)
}
