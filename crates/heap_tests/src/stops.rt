//! Scripts of requests over a heap that stops: what is held is named by whatever is left.
ghost use Rattle.std.specs.Prelude.{◌<◌, ◌^◌};

use crate::fixtures::{at, offset_of, recovered};
use crate::script::make;
use block_heap::{Block, Closed, SeqHeap, Stopped};
use line_memory::ConstantChance;
use region_header::read_header;
use std::alloc::{AllocError, Global};
use std::process::Abort;
use std::test::Fail;
use super_block::{VERSION, name};

/// Forty requests over four superblocks. A line that begins with `#` is a comment.
const SCRIPT: &str = "alloc 14000
store 0 3 31
write-back 0 3
fence
alloc 70000
alloc 14000
store 1 16383 17
store 2 0 20
write-back 1 16383
alloc 14000
alloc 14000
# this one needs a superblock of its own
alloc 14000
load 2 0 20
fence
# there is no room for this one
alloc 200000
free 2
load 1 16383 17
free 1
alloc 1000
store 7 127 70
free 3
write-back 7 127
free 5
# the caches give back what they have too much of
free 4
free 0
fence
alloc 1000
alloc 3000
store 9 383 90
load 7 127 70
alloc 500
store 8 1 81
alloc 14000
write-back 9 383
free 7
free 9
alloc 60000
load 8 1 81
fence
free 8";

/// Where the kinds of the roots begin in an image of four superblocks, and where it ends.
const FIRST_KIND: usize = 33_864;

const END: usize = 34_888;

/// Words of an image of four superblocks that have no meaning, and kinds of roots.
const OTHERS: &str = "4 7, 9 70, 15 71, 38 72, 1067 73, 1071 74, 1095 75, 33864 2, 33873 1, \
                      34887 2";

/// What a run of the script left.
#[derive(Drop)]
struct Left {
    /// The first answer that was no request of the script.
    stopped: Option<Stopped>,
    /// The block of each request that is held for sure.
    given: Vec<Option<Block>>,
    opened: Vec<u64>,
    closed: Closed,
}

/// Makes the request of a line, if it is no comment.
fn make_line(
    alloc: Global,
    heap: &mut SeqHeap<ConstantChance>,
    given: &mut Vec<Option<Block>>,
    line: &str,
) -> Result<Option<Stopped>, Fail> {
    if line.starts_with('#') {
        return Ok(None);
    }
    make(alloc, heap, given, line)
}

/// Makes the requests of the script until the heap stops.
fn play(
    alloc: Global,
    heap: &mut SeqHeap<ConstantChance>,
    given: &mut Vec<Option<Block>>,
) -> Result<Option<Stopped>, Fail> {
    for line in SCRIPT.split('\n') {
        let stopped = make_line(alloc, heap, given, line)?;
        if stopped.is_some() {
            return Ok(stopped);
        }
    }
    Ok(None)
}

/// Runs the script with a budget of so many steps.
fn played(alloc: Global, budget: u64, drawn: u64) -> Result<Left, Fail>
    requires { budget < 2 ^ 40 }
{
    let ready = recovered(alloc, 4, OTHERS)?;
    let opened = Vec::from_slice(alloc, ready.words())?;
    let mut heap = SeqHeap::new(alloc, ready, budget, ConstantChance(drawn))?;
    let mut given = Vec::new(alloc);
    let stopped = play(alloc, &mut heap, &mut given)?;
    Ok(Left {
        stopped,
        given,
        opened,
        closed: heap.finish(),
    })
}

/// Whether a crash may leave any value of the word, in an image of four superblocks.
fn is_transient(place: usize) -> bool {
    let in_descriptor = 1_064 <= place && place < 1_096 && (place % 8 == 1 || place % 8 == 2);
    in_descriptor || 16 <= place && place <= 36
}

/// The value of a word that a stop may leave, picked by a number.
fn picked(closed: &Closed, place: usize, number: u64) -> u64 {
    if is_transient(place) {
        number
    } else if number % 2 == 0 {
        at(&closed.now, place)
    } else {
        at(&closed.kept, place)
    }
}

/// The number behind this one, in a row of Marsaglia's.
fn next_number(number: u64) -> u64 {
    let number = number ^ (number << 13);
    let number = number ^ (number >> 7);
    number ^ (number << 17)
}

/// An image that a stop may leave: a mixture of what loads saw and what a crash leaves.
fn mixed(alloc: Global, closed: &Closed, seed: u64) -> Result<Vec<u64>, AllocError> {
    let mut image = Vec::new(alloc);
    let mut number = seed;
    for place in 0..closed.now.len() {
        number = next_number(number);
        image.push(picked(closed, place, number))?;
    }
    Ok(image)
}

/// Whether the header is good, as one of this version, and each block is named by its offset.
fn are_named(image: &[u64], given: &[Option<Block>]) -> bool {
    let Ok(header) = read_header(image, None) else {
        return false;
    };
    if header.version != VERSION {
        return false;
    }
    for b in given.iter().flatten() {
        if name(image, offset_of(*b)) != Some(*b) {
            return false;
        }
    }
    true
}

/// Whether a word of an image of four superblocks stays as it is: one of the header that is not
/// `used`, one without a meaning, or the kind of a root.
fn stays(place: usize) -> bool {
    match place {
        0..8 | 9..16 | 37..40 => true,
        1_064..1_096 => place % 8 > 2,
        FIRST_KIND..END => true,
        _ => false,
    }
}

/// Whether the words from `from` on that stay are as they were, up to the word `until`.
fn keeps_between(opened: &[u64], left: &[u64], from: usize, until: usize) -> bool {
    for place in from..until {
        if stays(place) && at(left, place) != at(opened, place) {
            return false;
        }
    }
    true
}

/// Whether the words that stay are as they were, no more superblocks are taken than the four, and
/// there are as many words.
fn keeps_rest(opened: &[u64], left: &[u64]) -> bool {
    keeps_between(opened, left, 0, 1_096)
        && keeps_between(opened, left, FIRST_KIND, END)
        && at(left, 8) <= 4
        && left.len() == END
}

/// Runs the script with a budget of so many steps, and asserts what is so of what is left. Whether
/// the script ended.
fn ends(rt: &(impl Abort + AllocGlobal), budget: u64, drawn: u64) -> Result<bool, Fail>
    requires { budget < 2 ^ 40 }
{
    let left = played(rt.alloc(), budget, drawn)?;
    let has_ended = left.stopped.is_none();
    let is_at_budget = left.stopped == Some(Stopped { step: budget });
    must_be(rt, has_ended || is_at_budget, "the ticket", budget);
    let seed = budget.wrapping_add(1).wrapping_mul(0x9e37_79b9_7f4a_7c15);
    let image = mixed(rt.alloc(), &left.closed, seed)?;
    is_left(rt, &left, &image, budget);
    Ok(has_ended)
}

/// Asserts what is so of what a run left, and of an image that is mixed of it.
fn is_left(rt: &impl Abort, left: &Left, image: &[u64], budget: u64) {
    let Closed { now, kept } = &left.closed;
    must_be(rt, keeps_rest(&left.opened, now), "the rest now", budget);
    must_be(rt, keeps_rest(&left.opened, kept), "the rest kept", budget);
    must_be(rt, are_named(now, &left.given), "names now", budget);
    must_be(rt, are_named(kept, &left.given), "names kept", budget);
    must_be(rt, are_named(image, &left.given), "names mixed", budget);
}

/// Asserts what the text tells of, which was found with this budget.
fn must_be(rt: &impl Abort, holds: bool, told: &str, budget: u64) {
    assert!(rt; holds, "{told} of {budget} steps");
}

/// Runs the script with each budget below 60, and then every nineteenth, until it ends.
fn keeps_names(rt: &(impl Abort + AllocGlobal), drawn: u64) -> Result<(), Fail> {
    for nth in 0..3_000u64 {
        if ends(rt, nth + 18 * nth.saturating_sub(60), drawn)? {
            return Ok(());
        }
    }
    Err("the script never ends".into())
}

#[test]
fn wherever_it_stops_what_is_held_is_named(rt: HostRuntime) -> Result<(), Fail> {
    keeps_names(&rt, 0)?;
    keeps_names(&rt, 1)
}
