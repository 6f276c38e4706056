//! What the standard error says of a line of a trace that asks for nothing.
use crate::harness::{call, empty_store, must_hold};
use std::alloc::{AllocError, Global};
use std::process::Abort;
use std::sync::Wait;
use std::test::Fail;
use std::thread::Threads;

/// Traces, and what is said of the first line that asks for nothing.
const REFUSED: [(&str, &str); 20] = [
    ("\n", "1: it is empty"),
    ("get 1\n\nget 2\n", "2: it is empty"),
    (
        "get 1\r\n",
        "1: it has a carriage return; lines end in a line feed alone",
    ),
    (
        "get\t1\n",
        "1: it has a tab; one space stands between words",
    ),
    (
        "get 1 \n",
        "1: it has a space too many; one stands between words, none at an end",
    ),
    (
        " get 1\n",
        "1: it has a space too many; one stands between words, none at an end",
    ),
    (
        "get  1\n",
        "1: it has a space too many; one stands between words, none at an end",
    ),
    (
        "GET 1\n",
        "1: its first word is none of put, get, del and move",
    ),
    ("put 1\n", "1: it has too few words"),
    ("get\n", "1: it has too few words"),
    ("del 1 2\n", "1: it has too many words"),
    ("put 1 ff ff\n", "1: it has too many words"),
    ("get -1\n", "1: its key is no decimal number"),
    ("get 01\n", "1: its key begins with a zero"),
    (
        "get 18446744073709551616\n",
        "1: its key is above 18446744073709551615",
    ),
    ("move 1 x\n", "1: its second key is no decimal number"),
    ("move 1 00\n", "1: its second key begins with a zero"),
    (
        "move 1 99999999999999999999\n",
        "1: its second key is above 18446744073709551615",
    ),
    ("put 1 fff\n", "1: its value has an odd number of digits"),
    (
        "put 1 0x\n",
        "1: its value has a byte that is no hexadecimal digit",
    ),
];

fn must_say(
    rt: &(impl Abort + AllocGlobal + Threads + Wait + Sync),
    trace: &str,
    said: &str,
) -> Result<(), Fail> {
    let alloc = rt.alloc();
    let mut images = empty_store(alloc);
    call(rt, &mut images, "format h 1", "")?;
    let ended = call(rt, &mut images, "run h --workers 1", trace)?;
    let line = format!(in alloc; "heap_tool: trace line {said}\n")?;
    must_hold(rt, ended.errors() == line.as_str(), said);
    must_hold(rt, ended.text().starts_with("bad trace line "), said);
    Ok(())
}

#[test]
fn the_cause_of_a_bad_line_is_told(rt: HostRuntime) -> Result<(), Fail> {
    for (trace, said) in REFUSED.iter() {
        must_say(&rt, trace, said)?;
    }
    Ok(())
}

// A put of a value of so many bytes.
fn long_put(alloc: Global, bytes: usize) -> Result<String, AllocError> {
    let mut line = String::from_str(alloc, "put 1 ")?;
    for _ in 0..bytes {
        line.push_str("00")?;
    }
    Ok(line)
}

#[test]
fn a_value_that_is_too_long_is_told(rt: HostRuntime) -> Result<(), Fail> {
    let line = long_put(rt.alloc(), (1 << 17) + 1)?;
    must_say(
        &rt,
        line.as_str(),
        "1: its value is longer than 131072 bytes",
    )
}

#[test]
fn nothing_is_said_of_a_schedule(rt: HostRuntime) -> Result<(), Fail> {
    let mut images = empty_store(rt.alloc());
    call(&rt, &mut images, "format h 1", "")?;
    let ended = call(&rt, &mut images, "replay h", "seats 9\n")?;
    must_hold(&rt, ended.text() == "bad schedule line 1\n", "the line");
    must_hold(&rt, ended.errors() == "", "and nothing more");
    Ok(())
}
