//! Scenes of two seats, one of which acts between two steps of a call of the other.

use crate::apart::are_all_apart;
use crate::fixtures::{MANY, must_hold, recovered};
use crate::order::Order;
use crate::rooted::held_in;
use crate::together::{Left, Plan, work_together};
use line_memory::Closed;
use std::alloc::Global;
use std::process::Abort;
use std::test::Fail;
use std::thread::Threads;
use test_images::{change, number};

/// What two seats do, over what recovery makes of an image.
#[derive(Clone, Copy)]
pub struct Scene<'a> {
    /// How many superblocks the image has, at most 32.
    pub capacity: u64,
    /// Changes of an empty image.
    pub words: &'a str,
    /// In which order they draw.
    pub order: &'a str,
    pub first: &'a str,
    pub second: &'a str,
    /// What chance gives.
    pub drawn: u64,
}

/// Plays a scene with so many tickets: how often both seats drew, and what is left.
pub fn play_scene<R: Threads + Sync>(
    rt: &R,
    alloc: Global,
    scene: &Scene<'_>,
    budget: u64,
) -> Result<([u64; 2], Left), Fail> {
    let order = Order::new(alloc, scene.order)?;
    let left = play_in_order(rt, alloc, scene, &order, budget)?;
    if !order.was_kept() {
        return Err("a seat waited in vain".into());
    }
    Ok(([order.draws(true), order.draws(false)], left))
}

/// Plays it in this order.
fn play_in_order<R: Threads + Sync>(
    rt: &R,
    alloc: Global,
    scene: &Scene<'_>,
    order: &Order,
    budget: u64,
) -> Result<Left, Fail> {
    let heap = recovered(alloc, scene.capacity, scene.words)?;
    let plan = Plan {
        order: Some(order),
        first: scene.first,
        others: scene.second,
        drawn: Some(scene.drawn),
    };
    work_together(rt, alloc, heap, 2, budget, plan)
}

/// Whether all words are as a text tells, as `used 1`: to write them changes nothing. `-` is none.
fn has_words(alloc: Global, words: &[u64], told: &str) -> Result<bool, Fail> {
    let mut written = Vec::from_slice(alloc, words)?;
    change(&mut written, told)?;
    Ok(written.as_slice() == words)
}

/// Recovery of what loads saw, and of what a crash leaves, holds the blocks that roots lead to.
pub fn must_recover(alloc: Global, closed: &Closed) -> Result<(), Fail> {
    held_in(alloc, &closed.now)?;
    held_in(alloc, &closed.kept)?;
    Ok(())
}

/// Whether both seats drew as often as is told.
fn drew(draws: [u64; 2], told: &str) -> bool {
    let (first, second) = told.split_once(' ').unwrap_or(("", ""));
    first.parse::<u64>().ok() == Some(draws[0]) && second.parse::<u64>().ok() == Some(draws[1])
}

/// A column of a row.
fn column(row: &str, index: usize) -> &str {
    row.split(" | ").nth(index).unwrap_or("")
}

/// The scene of a row, with columns between bars: the superblocks, the words of the image, the
/// order, what both seats do, how often each draws, and words that loads see and a crash leaves.
fn scene_of(row: &str, drawn: u64) -> Result<Scene<'_>, Fail> {
    Ok(Scene {
        capacity: number(column(row, 0))?,
        words: column(row, 1),
        order: column(row, 2),
        first: column(row, 3),
        second: column(row, 4),
        drawn,
    })
}

/// Whether loads see and a crash leaves the words that a row tells.
fn leaves_words(alloc: Global, row: &str, closed: &Closed) -> Result<bool, Fail> {
    let is_now = has_words(alloc, &closed.now, column(row, 6))?;
    Ok(has_words(alloc, &closed.kept, column(row, 7))? && is_now)
}

/// Whether a scene came to what its row tells.
fn is_as_wanted(alloc: Global, row: &str, draws: [u64; 2], left: &Left) -> Result<bool, Fail> {
    left.report.told?;
    must_recover(alloc, &left.closed)?;
    let is_counted = drew(draws, column(row, 5)) && are_all_apart(&left.report.given);
    Ok(leaves_words(alloc, row, &left.closed)? && is_counted)
}

/// Plays the scene of a row.
fn play_row<R: Threads + Sync + Abort + AllocGlobal>(
    rt: &R,
    row: &str,
    drawn: u64,
) -> Result<(), Fail> {
    let (draws, left) = play_scene(rt, rt.alloc(), &scene_of(row, drawn)?, MANY)?;
    must_hold(rt, is_as_wanted(rt.alloc(), row, draws, &left)?, row);
    Ok(())
}

/// Plays the scene of each row.
pub fn play_rows<R: Threads + Sync + Abort + AllocGlobal>(
    rt: &R,
    rows: &str,
    drawn: u64,
) -> Result<(), Fail> {
    for row in rows.split('\n') {
        if !row.is_empty() && !row.starts_with('#') {
            play_row(rt, row, drawn)?;
        }
    }
    Ok(())
}
