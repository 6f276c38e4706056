//! What is read of texts, in tables that are texts.
//!
//! A row is a line: what is read, ` =>`, and behind a space what is told of it. In both `;` stands
//! for a line feed, and `?` for the byte 255. Empty lines say nothing.
use crate::checks::must_hold;
use core_model::Event;
use std::alloc::{AllocError, Global};
use std::process::Abort;
use trace_text::{Request, TraceError, parse_schedule, parse_trace};

/// What a text is read as.
#[derive(Clone, Copy)]
pub enum Grammar {
    Trace,
    Schedule,
}

fn byte_of(sign: u8) -> u8 {
    match sign {
        b';' => b'\n',
        b'?' => 255,
        _ => sign,
    }
}

/// The bytes that a part of a row tells.
fn bytes_of(alloc: Global, part: &str) -> Result<Vec<u8>, AllocError> {
    let mut bytes = Vec::new(alloc);
    for sign in part.as_bytes() {
        bytes.push(byte_of(*sign))?;
    }
    Ok(bytes)
}

fn write_value(text: &mut String, value: &[u8]) -> Result<(), AllocError> {
    if value.is_empty() {
        return text.push_str("-");
    }
    for byte in value {
        write!(text, "{byte:02x}")?;
    }
    Ok(())
}

fn write_request(text: &mut String, request: &Request) -> Result<(), AllocError> {
    match request {
        Request::Put(key, value) => {
            write!(text, "put {key} ")?;
            write_value(text, value.as_slice())?;
            text.push_str("\n")
        }
        Request::Get(key) => writeln!(text, "get {key}"),
        Request::Del(key) => writeln!(text, "del {key}"),
        Request::Move(key, to) => writeln!(text, "move {key} {to}"),
    }
}

/// The requests, one a line.
fn requests_text(alloc: Global, requests: &[Request]) -> Result<String, AllocError> {
    let mut text = String::new(alloc);
    for request in requests {
        write_request(&mut text, request)?;
    }
    Ok(text)
}

fn write_step(text: &mut String, seat: usize, event: Event) -> Result<(), AllocError> {
    write!(text, ", {seat} {event:?}")
}

/// How many seats there are, and each step behind its seat.
fn steps_text(alloc: Global, seats: usize, lines: &[(usize, Event)]) -> Result<String, AllocError> {
    let mut text = format!(in alloc; "{seats} seats")?;
    for (seat, event) in lines {
        write_step(&mut text, *seat, *event)?;
    }
    Ok(text)
}

fn fault_text(alloc: Global, fault: TraceError) -> Result<String, AllocError> {
    match fault {
        TraceError::BadLine { line } => format!(in alloc; "bad line {line}"),
        TraceError::Memory => Err(AllocError),
    }
}

/// The requests of a trace printed again, or its first bad line.
pub fn trace_told(alloc: Global, text: &[u8]) -> Result<String, AllocError> {
    match parse_trace(alloc, text) {
        Ok(requests) => requests_text(alloc, &requests),
        Err(fault) => fault_text(alloc, fault),
    }
}

/// The seats and steps of a schedule, or its first bad line.
fn schedule_told(alloc: Global, text: &[u8]) -> Result<String, AllocError> {
    match parse_schedule(alloc, text) {
        Ok(schedule) => steps_text(alloc, schedule.seats, &schedule.lines),
        Err(fault) => fault_text(alloc, fault),
    }
}

/// What is told of the text that a part of a row tells.
fn told_of(alloc: Global, grammar: Grammar, part: &str) -> Result<String, AllocError> {
    let text = bytes_of(alloc, part)?;
    match grammar {
        Grammar::Trace => trace_told(alloc, &text),
        Grammar::Schedule => schedule_told(alloc, &text),
    }
}

/// Whether this is told of the text that a part of a row tells.
fn is_told(alloc: Global, grammar: Grammar, part: &str, told: &str) -> Result<bool, AllocError> {
    let found = told_of(alloc, grammar, part)?;
    let told = bytes_of(alloc, told.strip_prefix(' ').unwrap_or(told))?;
    Ok(found.as_bytes() == told.as_slice())
}

fn reads(rt: &(impl Abort + AllocGlobal), grammar: Grammar, row: &str) {
    let (text, told) = row.split_once(" =>").unwrap_or((row, "no row"));
    let is_told = is_told(rt.alloc(), grammar, text, told);
    must_hold(rt, is_told == Ok(true), row);
}

/// Reads the text of each row, and asserts what is told of it.
pub fn reads_each(rt: &(impl Abort + AllocGlobal), grammar: Grammar, table: &str) {
    for row in table.split('\n') {
        if !row.is_empty() {
            reads(rt, grammar, row);
        }
    }
}
