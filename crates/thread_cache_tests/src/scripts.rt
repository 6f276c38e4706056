//! What seats do, as texts: acts, with numbers.
//!
//! ```text
//! take 14336 8     the seat asks 8 times for 14,336 bytes, and is given a block each time
//! full 14336 2     it asks, and there is no room: 2 superblocks are taken, and no list has one
//! looks 16 5 0 2   it asks for 16 bytes, and there is no room: the head of the class is 5, that of
//!                  the free superblocks 0, and 2 are taken
//! has 1080 1792    its last block has the first word 1,080 and 1,792 words
//! free 4           it frees 4 of its blocks, the last ones first
//! drop 2           it frees its block 2, in whose place the last one comes
//! quiet            its caches are emptied
//! put 0            the first of its roots leads to its last block, durably
//! clear 0          that root leads to no block
//! publish          its roots lead to its blocks, in order
//! store 3 7        it stores 7 to the word 3 of its last block
//! back 3           it writes that word back
//! fence            it awaits what it wrote back
//! roll 9           9 random acts
//! ```
//!
//! Acts of one seat stand between commas.

ghost use Rattle.std.specs.Prelude.{◌≡◌, OnOk};
ghost use Rattle.seat_model.specs.CacheState.{heap_view};
ghost use Rattle.thread_cache.specs.Keeps.{KeepsSeat};
ghost use Rattle.thread_cache_tests.specs.Holding.{anything, Holds, OwnsRoots};

use crate::holders::{Halt, give_back, give_back_last, take, take_all};
use crate::order::Turn;
use crate::own_words::{store_last, write_back_last};
use crate::rolling::{quiet, roll_often};
use crate::rooted::put;
use heap_seat::{AllocFault, HeapSeat, Looks};
use super_block::Block;
use thread_cache::CacheSeat;

/// A list head has its list in its last so many bits, and none there where it is empty.
const LIST_BITS: u32 = 24;

/// What a refusal must tell.
#[derive(Clone, Copy)]
pub enum Wanted {
    /// So many superblocks are taken, and no list has one.
    Taken(u64),
    /// These very looks.
    Seen(Looks),
}

/// What a seat can be told.
#[derive(Clone, Copy)]
pub enum Act {
    Take { bytes: u64, count: u64 },
    Full { bytes: u64, wanted: Wanted },
    Has { first_word: u64, words: u64 },
    Free { count: u64 },
    Drop { index: u64 },
    Quiet,
    Put { root: u64 },
    Clear { root: u64 },
    Publish,
    Store { place: u64, value: u64 },
    Back { place: u64 },
    Fence,
    Roll { count: u64 },
}

/// The number of a word, which is 0 where there is none. What is no number is more than any act
/// takes.
fn number_of(word: Option<&str>) -> u64 {
    match word {
        Some(word) => word.parse::<u64>().unwrap_or(u64::MAX),
        None => 0,
    }
}

/// The act of this name, with its numbers.
fn act_named(name: &str, first: u64, second: u64) -> Option<Act> {
    let act = match name {
        "take" => Act::Take {
            bytes: first,
            count: second,
        },
        "full" => Act::Full {
            bytes: first,
            wanted: Wanted::Taken(second),
        },
        "has" => Act::Has {
            first_word: first,
            words: second,
        },
        "free" => Act::Free { count: first },
        "drop" => Act::Drop { index: first },
        "quiet" => Act::Quiet,
        "put" => Act::Put { root: first },
        "clear" => Act::Clear { root: first },
        "publish" => Act::Publish,
        "store" => Act::Store {
            place: first,
            value: second,
        },
        "back" => Act::Back { place: first },
        "fence" => Act::Fence,
        "roll" => Act::Roll { count: first },
        _ => return None,
    };
    Some(act)
}

/// The act that a text tells.
pub fn act_of(told: &str) -> Option<Act> {
    let mut words = told.split(' ');
    let name = words.next().unwrap_or("");
    let first = number_of(words.next());
    let second = number_of(words.next());
    if name == "looks" {
        let looks = Looks {
            class_head: second,
            free_head: number_of(words.next()),
            used: number_of(words.next()),
        };
        return Some(Act::Full {
            bytes: first,
            wanted: Wanted::Seen(looks),
        });
    }
    act_named(name, first, second)
}

/// Whether there was no room, as it is told.
fn is_full(answer: &Result<(), Halt>, wanted: Wanted) -> bool {
    match answer {
        Err(Halt::Refused(AllocFault::Full(looks))) => is_told(looks, wanted),
        _ => false,
    }
}

/// Whether a refusal tells what it must.
fn is_told(looks: &Looks, wanted: Wanted) -> bool {
    match wanted {
        Wanted::Taken(taken) => is_empty(looks) && looks.used == taken,
        Wanted::Seen(seen) => *looks == seen,
    }
}

/// Whether both list heads have no superblock.
fn is_empty(looks: &Looks) -> bool {
    let bits = 1 << LIST_BITS;
    looks.class_head % bits == 0 && looks.free_head % bits == 0
}

/// A request for so many bytes, for which there is no room.
fn must_be_full(
    seat: &mut CacheSeat<'_, Turn<'_>>,
    given: &mut Vec<Block>,
    bytes: u64,
    wanted: Wanted,
) -> Result<(), Halt>
    requires { Holds (heap_view seat.old.state).held given.old.items }
    ensures holds { OnOk result (Holds (heap_view seat.new.state).held given.new.items) }
    ensures kept { KeepsSeat anything seat.old seat.new }
{
    let answer = take(seat, given, bytes);
    if is_full(&answer, wanted) {
        Ok(())
    } else {
        Err(Halt::Room)
    }
}

/// Whether the last block has this first word and so many words.
fn ends_with(given: &[Block], first_word: u64, words: u64) -> Result<(), Halt> {
    if given.last() != Some(&Block { first_word, words }) {
        return Err(Halt::NoBlock);
    }
    Ok(())
}

/// What a seat is dealt beside its blocks: its number, and roots of its own.
#[derive(Clone, Copy)]
pub struct Dealt<'a> {
    pub number: u64,
    pub roots: &'a [u64],
}

/// Roots of the seat lead to its blocks, in order.
fn publish(seat: &mut CacheSeat<'_, Turn<'_>>, owned: &[u64], given: &[Block]) -> Result<(), Halt>
    requires { OwnsRoots owned.now seat.old.state.view.roots }
    ensures held { OnOk result ((heap_view seat.new.state).held ≡ (heap_view seat.old.state).held) }
    ensures kept { KeepsSeat anything seat.old seat.new }
{
    for (index, b) in given.iter().enumerate() {
        put(seat, owned, index as u64, Some(b))?;
    }
    Ok(())
}

/// A seat does something to a word of its last block, or awaits what it wrote back.
fn perform_on_words(
    seat: &mut CacheSeat<'_, Turn<'_>>,
    given: &[Block],
    act: Act,
) -> Result<(), Halt>
    requires { Holds (heap_view seat.old.state).held given.now }
    ensures held { OnOk result ((heap_view seat.new.state).held ≡ (heap_view seat.old.state).held) }
    ensures kept { KeepsSeat anything seat.old seat.new }
{
    match act {
        Act::Store { place, value } => store_last(seat, given, place, value),
        Act::Back { place } => write_back_last(seat, given, place),
        Act::Fence => Ok(seat.fence()?),
        _ => Err(Halt::NoSuchAct),
    }
}

/// A seat does what its roots or its number are for.
fn perform_dealt(
    seat: &mut CacheSeat<'_, Turn<'_>>,
    given: &mut Vec<Block>,
    dealt: Dealt<'_>,
    act: Act,
) -> Result<(), Halt>
    requires holds { Holds (heap_view seat.old.state).held given.old.items }
    requires owns { OwnsRoots dealt.roots.now seat.old.state.view.roots }
    ensures holds { OnOk result (Holds (heap_view seat.new.state).held given.new.items) }
    ensures kept { KeepsSeat anything seat.old seat.new }
{
    match act {
        Act::Put { root } => put(seat, dealt.roots, root, given.last()),
        Act::Clear { root } => put(seat, dealt.roots, root, None),
        Act::Publish => publish(seat, dealt.roots, given),
        Act::Roll { count } => roll_often(seat, given, dealt.number, count),
        _ => perform_on_words(seat, given, act),
    }
}

/// A seat does what it is told.
pub fn perform(
    seat: &mut CacheSeat<'_, Turn<'_>>,
    given: &mut Vec<Block>,
    dealt: Dealt<'_>,
    act: Act,
) -> Result<(), Halt>
    requires holds { Holds (heap_view seat.old.state).held given.old.items }
    requires owns { OwnsRoots dealt.roots.now seat.old.state.view.roots }
    ensures holds { OnOk result (Holds (heap_view seat.new.state).held given.new.items) }
    ensures kept { KeepsSeat anything seat.old seat.new }
{
    match act {
        Act::Take { bytes, count } => take_all(seat, given, bytes, count),
        Act::Full { bytes, wanted } => must_be_full(seat, given, bytes, wanted),
        Act::Has { first_word, words } => ends_with(given, first_word, words),
        Act::Free { count } => give_back_last(seat, given, count),
        Act::Drop { index } => give_back(seat, given, index as usize),
        Act::Quiet => quiet(seat),
        _ => perform_dealt(seat, given, dealt, act),
    }
}

/// A seat does what the acts between commas tell, in their order. It counts those that are done.
#[tactic(auto, using(crate::proofs::HoldLemmas::still_owns))]
pub fn follow(
    seat: &mut CacheSeat<'_, Turn<'_>>,
    given: &mut Vec<Block>,
    dealt: Dealt<'_>,
    acts: &str,
    done: &mut usize,
) -> Result<(), Halt>
    requires holds { Holds (heap_view seat.old.state).held given.old.items }
    requires owns { OwnsRoots dealt.roots.now seat.old.state.view.roots }
    ensures { KeepsSeat anything seat.old seat.new }
{
    for told in acts.split(", ") {
        let Some(act) = act_of(told) else {
            return Err(Halt::NoSuchAct);
        };
        perform(seat, given, dealt, act)?;
        *done = done.wrapping_add(1);
    }
    Ok(())
}
