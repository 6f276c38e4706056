//! Schedules in which a step of each kind is done, and what a crash leaves after them.
ghost use Rattle.std.specs.Prelude.{◌<◌, ◌≤◌, ℕ, Contains, IfOk};
ghost use Rattle.core_model.specs.declared.event.Event.{Event};

use crate::cores::{DRAW, held_after_a_crash, must_take, needs_ticket, opened};
use crate::fixtures::{MANY, must_hold, recovered};
use crate::schedules::parse;
use crash_core::{Core, Event, StepAnswer};
use line_memory::Chance;
use seat_state::opened_table;
use std::alloc::Global;
use std::process::Abort;
use std::test::Fail;
use super_block::{Block, DIRTY, HEAD_WORD, LISTS, Ready, STATE_WORD};
use test_images::{anchor_word, link_word, number};

/// Two seats over two superblocks, of which superblock 0 is free: seat 0 takes superblock 1, holds
/// it as a large block and splits it; seat 1 makes four blocks of superblock 0, holds them, and
/// gives one back, which seat 0 gets. All kinds of events and changes are there.
const ALL_KINDS: &str = "0 tick, 0 look-used, 0 take 1, 0 keep, 0 store info:1 511, \
    0 settle info:1, 0 large 1 1, 0 split 9272, 1 head 0, 1 link, 1 pop, 1 store info:0 20, \
    1 settle info:0, 1 store anchor:0 2, 1 store 1080 2872, 1 store 2872 4664, 1 store 4664 6456, \
    1 cut 0, 1 alloc 20, 1 alloc 20, 1 alloc 20, 1 alloc 20, 1 free 1080, 1 lift 20, 1 anchor 0, \
    1 give 0, 1 head 20, 1 store link:0 0, 1 push 0, 0 head 20, 0 link, 0 pop, 0 anchor 0, \
    0 take-all 0, 0 alloc 20, 0 load 1080, 0 head 0, 0 store link:1 0, 0 push 1";

/// An image whose superblock 0 of two is free.
const ONE_FREE: &str = "used 1";

/// Takes the steps, in which other seats stand for 0 and 1, and makes the block that seat 0 holds
/// then known to a root.
fn run_all(rt: &impl Abort, core: &mut Core, first: usize) -> Result<(), Fail> {
    let seats = core.seats();
    for line in ALL_KINDS.split(", ") {
        let (seat, event) = parse(line)?;
        let seat = first.wrapping_add(seat).checked_rem(seats).unwrap_or(0);
        must_take(rt, core, (seat, event), line)?;
    }
    let word = number("root:8")?.wrapping_add(first as u64);
    let value = number("@1080")?;
    must_take(rt, core, (first, Event::Store { word, value }), "the store")?;
    must_take(rt, core, (first, Event::Settle { word }), "the write-back")
}

/// Takes all steps, of which those of seat 0 are this seat's, and crashes: recovery holds the block
/// that is known.
fn all_are_done(
    rt: &(impl Abort + AllocGlobal),
    core: &mut Core,
    first: usize,
) -> Result<(), Fail> {
    run_all(rt, core, first)?;
    let alloc = rt.alloc();
    let held = Block {
        first_word: 1_080,
        words: 1_792,
    };
    let found = held_after_a_crash(alloc, core)?;
    must_hold(rt, found.as_slice() == [held].as_slice(), "it is held");
    Ok(())
}

/// Does so over the heap, open for so many seats, each of which is the first in turn.
fn all_are_done_over(
    rt: &(impl Abort + AllocGlobal),
    heap: &Ready,
    seats: usize,
) -> Result<(), Fail>
    requires some { 1 ≤ seats }
    requires seats { seats ≤ 8 }
{
    for first in 0..seats {
        let mut core = opened(rt.alloc(), heap, seats, MANY)?;
        all_are_done(rt, &mut core, first)?;
    }
    Ok(())
}

#[test]
fn steps_of_all_kinds_are_done_over_two_seats_and_eight(rt: HostRuntime) -> Result<(), Fail> {
    let heap = recovered(rt.alloc(), 2, ONE_FREE)?;
    all_are_done_over(&rt, &heap, 2)?;
    all_are_done_over(&rt, &heap, 8)
}

/// Stores to the word, if the image has it.
fn put(image: &mut [u64], word: u64, value: u64) {
    if let Some(place) = image.get_mut(word as usize) {
        *place = value;
    }
}

/// Scrambles what a crash may: the head of each list, and the anchor and the link of each
/// superblock. The image is dirty then.
fn scramble(image: &mut [u64], capacity: u64, numbers: &mut impl Chance) {
    for list in 0..LISTS {
        put(image, list.wrapping_add(HEAD_WORD), numbers.draw());
    }
    for d in 0..capacity {
        put(image, anchor_word(d), numbers.draw());
        put(image, link_word(d), numbers.draw());
    }
    put(image, STATE_WORD, DIRTY);
}

/// A source that counts.
#[derive(Drop)]
struct Counting(u64);

impl Chance for Counting {
    fn draw(&mut self) -> u64 {
        let number = self.0;
        self.0 = number.wrapping_add(1);
        number
    }
}

#[test]
fn a_crash_scrambles_heads_then_each_anchor_and_link(rt: HostRuntime) -> Result<(), Fail> {
    let alloc = rt.alloc();
    let heap = recovered(alloc, 3, "used 2, 39 5, 1067 6")?;
    let core = opened(alloc, &heap, 2, MANY)?;
    let mut numbers = Counting(100);
    let image = core.image(alloc, &mut numbers)?;
    let mut wanted = Vec::from_slice(alloc, heap.words())?;
    scramble(&mut wanted, 3, &mut Counting(100));
    assert!(rt; numbers.0 == 127 && image == wanted);
    Ok(())
}

/// The seats and events of the schedule, with the draws.
fn drawn(alloc: Global, schedule: &str, seats: usize) -> Result<Vec<(usize, Event)>, Fail>
    ensures { IfOk result (λ events. (e : ℕ × Event) → Contains events.items e → e.0 < seats) }
{
    let mut events = Vec::new(alloc);
    for line in schedule.split(", ") {
        let (seat, event) = parse(line)?;
        if seat >= seats {
            return Err("no such seat".into());
        }
        if needs_ticket(event) {
            events.push((seat, DRAW))?;
        }
        events.push((seat, event))?;
    }
    Ok(events)
}

/// How many of the events draw. Each of them was done.
fn draws(rt: &impl Abort, events: &[(usize, Event)], answers: &[StepAnswer]) -> u64 {
    let mut draws = 0u64;
    for ((_, event), answer) in events.iter().zip(answers) {
        must_hold(rt, *answer == StepAnswer::Done, "an event of the schedule");
        if matches!(event, Event::Tick { .. }) {
            draws = draws.wrapping_add(1);
        }
    }
    draws
}

#[test]
fn events_are_replayed_one_after_another(rt: HostRuntime) -> Result<(), Fail> {
    let alloc = rt.alloc();
    let heap = recovered(alloc, 2, ONE_FREE)?;
    let mut core = opened(alloc, &heap, 2, MANY)?;
    let events = drawn(alloc, ALL_KINDS, core.seats())?;
    let answers = core.replay(alloc, &events)?;
    let draws = draws(&rt, &events, &answers);
    assert!(rt; answers.len() == events.len() && core.tickets() == draws);
    Ok(())
}

#[test]
fn an_opened_table_has_its_length(rt: HostRuntime) -> Result<(), Fail> {
    let heap = recovered(rt.alloc(), 2, ONE_FREE)?;
    assert_eq!(rt; opened_table(rt.alloc(), &heap)?.len(), 36_977);
    Ok(())
}
