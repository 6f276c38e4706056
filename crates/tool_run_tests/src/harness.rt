//! Calls of the tool over a store, an input and an output in memory, as a turn of a session tells
//! them.
use crate::turn::{first_behind, first_line, input_of, numbers};
use line_memory::ConstantChance;
use std::alloc::{AllocError, Global};
use std::process::Abort;
use std::str;
use std::sync::Wait;
use std::test::Fail;
use std::thread::Threads;
use test_images::number;
use tool_ports::{BytesSource, Chances, Gate, MapStore, OpenGate, SeededChances, VecSink};
use tool_run::run_tool;

// Room for the longest text of a test.
const ROOM: usize = 1 << 22;

fn push_word(words: &mut Vec<String>, alloc: Global, word: &str) -> Result<(), AllocError> {
    words.push(String::from_str(alloc, if word == "''" { "" } else { word })?)?;
    Ok(())
}

/// The words of a line, of which '' is an empty one.
fn words_of(alloc: Global, line: &str) -> Result<Vec<String>, AllocError> {
    let mut words = Vec::new(alloc);
    for word in line.split(' ') {
        push_word(&mut words, alloc, word)?;
    }
    Ok(words)
}

fn sink_of(alloc: Global, turn: &str) -> Result<VecSink, AllocError> {
    VecSink::new(alloc, numbers(alloc, turn, "!")?, 8, ROOM)
}

fn source_of(alloc: Global, turn: &str) -> Result<BytesSource, AllocError> {
    let input = input_of(alloc, turn)?;
    Ok(BytesSource::new(numbers(alloc, turn, "?")?, 7, input.into_bytes()))
}

/// What a call is made with, beside the store.
#[derive(Drop)]
struct Outside {
    words: Vec<String>,
    trace: BytesSource,
    out: VecSink,
}

fn outside_of(alloc: Global, turn: &str) -> Result<Outside, AllocError> {
    Ok(Outside {
        words: words_of(alloc, first_line(turn))?,
        trace: source_of(alloc, turn)?,
        out: sink_of(alloc, turn)?,
    })
}

/// What a call ended with, and what it printed.
#[derive(Drop)]
pub struct Ended {
    pub status: u8,
    out: VecSink,
}

impl Ended {
    /// The text that was printed.
    pub fn text(&self) -> &str {
        str::from_utf8(self.out.bytes()).unwrap_or("no text")
    }
}

/// Makes the call that a turn tells.
pub fn make<G: Gate + Sync, C: Chances>(
    rt: &(impl AllocGlobal + Threads + Wait + Sync),
    images: &mut MapStore,
    turn: &str,
    gate: &G,
    chances: &mut C,
) -> Result<Ended, AllocError> {
    let Outside {
        words,
        mut trace,
        mut out,
    } = outside_of(rt.alloc(), turn)?;
    let mut help = sink_of(rt.alloc(), "")?;
    let status = run_tool(
        rt,
        rt.alloc(),
        &words,
        images,
        &mut trace,
        &mut out,
        &mut help,
        gate,
        chances,
    );
    Ok(Ended {
        status: status.code(),
        out,
    })
}

/// Makes it with an open gate, and with the chances that the turn tells.
pub fn make_turn(
    rt: &(impl AllocGlobal + Threads + Wait + Sync),
    images: &mut MapStore,
    turn: &str,
) -> Result<Ended, AllocError> {
    match first_behind(turn, "%") {
        Some(word) => {
            let mut chance = ConstantChance(word.parse::<u64>().unwrap_or(0));
            make(rt, images, turn, &OpenGate, &mut chance)
        }
        None => make(rt, images, turn, &OpenGate, &mut SeededChances::new()),
    }
}

/// Asserts what the text tells of. An assertion makes a long function slow to prove; a call of this
/// one does not.
pub fn must_hold(rt: &impl Abort, holds: bool, told: &str) {
    assert!(rt; holds, "{told}");
}

/// The text with the number in place of its name, N.
pub fn numbered(alloc: Global, text: &str, number: u64) -> Result<String, AllocError> {
    text.replace(alloc, "N", &format!(in alloc; "{number}")?)
}

/// Makes the call of a turn that has the number in place of N.
pub fn make_numbered(
    rt: &(impl AllocGlobal + Threads + Wait + Sync),
    images: &mut MapStore,
    turn: &str,
    number: u64,
) -> Result<Ended, AllocError> {
    make_turn(rt, images, &numbered(rt.alloc(), turn, number)?)
}

/// The word of an image at the index, or 0 behind its end.
pub fn word_at(image: &[u8], index: u64) -> u64 {
    let from = (index as usize).saturating_mul(8);
    let mut word = 0u64;
    for byte in image
        .get(from..from.saturating_add(8))
        .unwrap_or(&[])
        .iter()
        .rev()
    {
        word = word.wrapping_mul(256) | u64::from(*byte);
    }
    word
}

/// Whether the words of the image are as told: the first one, how many they are, and their value.
pub fn has_words(image: &[u8], told: &str) -> Result<bool, Fail> {
    let (first, rest) = told.split_once(' ').ok_or("no words")?;
    let (count, value) = rest.split_once(' ').ok_or("no words")?;
    let (first, value) = (number(first)?, number(value)?);
    for index in 0..number(count)? {
        if word_at(image, first.wrapping_add(index)) != value {
            return Ok(false);
        }
    }
    Ok(true)
}
