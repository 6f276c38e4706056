//! Schedules of which each answer is known.
//!
//! A table has schedules. One begins with its heap: how many superblocks and seats there are, and the
//! words that differ from those of an empty image, between bars. Then come its steps, between commas
//! and in lines, each with ` !` behind it where it is not done, and what is so after them: how many
//! tickets were drawn, and the blocks that recovery holds after a crash, each with its first word and
//! its length.
use crate::cores::{held_after_a_crash, opened, take_drawn};
use crate::fixtures::{MANY, must_hold, recovered};
use crate::schedules::parse;
use crash_core::{Core, StepAnswer};
use std::alloc::Global;
use std::process::Abort;
use std::test::Fail;
use super_block::Block;
use test_images::number;

/// A head that was seen before two pops and a push fits no more, though its descriptor is the first
/// one again. A cache is its seat's own: a block of 64 bytes is held. A superblock without a class
/// enters no class's list.
const KNOWN: &str = "
heap 2 | 2 | used 2
0 head 0, 0 link, 1 head 0, 1 link, 1 pop, 1 head 0, 1 link, 1 pop
1 head 0, 1 store link:0 0, 1 push 0, 0 pop !
tickets 12
heap 4 | 2 | used 1, info:0 4, root:8 @1096
0 head 4, 0 link, 0 pop, 0 anchor 0, 0 take-all 0, 0 alloc 4, 1 alloc 4 !, 0 store 1104 7
tickets 7
held 1096 8
heap 1 | 1 | used 1
0 head 0, 0 link, 0 pop, 0 store info:0 4, 0 head 4, 0 store link:0 0, 0 push 0 !
tickets 7
";

/// A core over the heap that the columns tell.
fn core_of(alloc: Global, columns: &str) -> Result<Core, Fail> {
    let mut columns = columns.split(" | ");
    let superblocks = number(columns.next().unwrap_or(""))?;
    let seats = number(columns.next().unwrap_or(""))? as usize;
    if !(1..=4).contains(&superblocks) || !(1..=8).contains(&seats) {
        return Err("no such heap".into());
    }
    let heap = recovered(alloc, superblocks, columns.next().unwrap_or(""))?;
    opened(alloc, &heap, seats, MANY)
}

/// Takes the steps of a line, each of which is done or is not.
fn take_line(rt: &impl Abort, core: &mut Core, line: &str) -> Result<(), Fail> {
    for told in line.split(", ") {
        let (step, wanted) = match told.strip_suffix(" !") {
            Some(step) => (step, StepAnswer::NotNow),
            None => (told, StepAnswer::Done),
        };
        let (seat, event) = parse(step)?;
        must_hold(rt, take_drawn(core, seat, event)? == wanted, line);
    }
    Ok(())
}

/// The blocks of the text.
fn blocks(alloc: Global, text: &str) -> Result<Vec<Block>, Fail> {
    let mut blocks = Vec::new(alloc);
    for told in text.split(", ") {
        let (first_word, words) = told.split_once(' ').ok_or("no block")?;
        blocks.push(Block {
            first_word: number(first_word)?,
            words: number(words)?,
        })?;
    }
    Ok(blocks)
}

/// Takes a line of steps, or looks whether what the line tells is so.
fn play_line(rt: &(impl Abort + AllocGlobal), core: &mut Core, line: &str) -> Result<(), Fail> {
    if let Some(tickets) = line.strip_prefix("tickets ") {
        must_hold(rt, core.tickets() == number(tickets)?, line);
        return Ok(());
    }
    if let Some(held) = line.strip_prefix("held ") {
        let found = held_after_a_crash(rt.alloc(), core)?;
        must_hold(rt, found == blocks(rt.alloc(), held)?, line);
        return Ok(());
    }
    take_line(rt, core, line)
}

/// Plays a schedule.
fn play(rt: &(impl Abort + AllocGlobal), schedule: &str) -> Result<(), Fail> {
    let mut lines = schedule.split('\n');
    let mut core = core_of(rt.alloc(), lines.next().unwrap_or(""))?;
    for line in lines {
        if !line.is_empty() {
            play_line(rt, &mut core, line)?;
        }
    }
    Ok(())
}

/// Plays the schedules of a table.
pub fn play_all(rt: &(impl Abort + AllocGlobal), table: &str) -> Result<(), Fail> {
    for schedule in table.split("heap ").skip(1) {
        play(rt, schedule)?;
    }
    Ok(())
}

#[test]
fn known_schedules_are_answered(rt: HostRuntime) -> Result<(), Fail> {
    play_all(&rt, KNOWN)
}
