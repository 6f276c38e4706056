//! What the lines of a text say of a call, by the marks that they begin with.
use std::alloc::{AllocError, Global};

/// What stands behind the mark, in a line that begins with it.
pub fn behind<'a>(line: &'a str, mark: &str) -> Option<&'a str> {
    let rest = line.strip_prefix(mark)?;
    if rest.is_empty() {
        return Some(rest);
    }
    rest.strip_prefix(' ')
}

/// What stands behind the mark, in the first line that begins with it.
pub fn first_behind<'a>(turn: &'a str, mark: &str) -> Option<&'a str> {
    for line in turn.split('\n') {
        let text = behind(line, mark);
        if text.is_some() {
            return text;
        }
    }
    None
}

/// The first line of a text.
pub fn first_line(text: &str) -> &str {
    text.split('\n').next().unwrap_or("")
}

fn first_word(line: &str) -> &str {
    line.split(' ').next().unwrap_or("")
}

/// The number in a text of words parted by spaces, by its place from 0, or 0 where there is none.
pub fn nth_number(words: &str, place: usize) -> u64 {
    words
        .split(' ')
        .nth(place)
        .unwrap_or("")
        .parse::<u64>()
        .unwrap_or(0)
}

/// Adds so many zero bytes.
fn push_zeros(input: &mut String, count: u64) -> Result<(), AllocError> {
    for _ in 0..count {
        input.push_str("00")?;
    }
    Ok(())
}

/// Adds a request that puts zero bytes: its key, and how many they are.
fn push_put(input: &mut String, put: &str) -> Result<(), AllocError> {
    for piece in ["put ", first_word(put), " "] {
        input.push_str(piece)?;
    }
    push_zeros(input, nth_number(put, 1))
}

/// Adds a line of input, if it is one, with a line feed behind it.
fn push_input(input: &mut String, line: &str) -> Result<(), AllocError> {
    if let Some(text) = behind(line, "<") {
        input.push_str(text)?;
        return input.push_str("\n");
    }
    let Some(put) = behind(line, "<0") else {
        return Ok(());
    };
    push_put(input, put)?;
    input.push_str("\n")
}

/// The input of a call. Its last line has no line feed.
pub fn input_of(alloc: Global, turn: &str) -> Result<String, AllocError> {
    let mut input = String::new(alloc);
    for line in turn.split('\n') {
        push_input(&mut input, line)?;
    }
    input.pop();
    Ok(input)
}

/// The numbers behind the mark.
pub fn numbers(alloc: Global, turn: &str, mark: &str) -> Result<Vec<u64>, AllocError> {
    let mut numbers = Vec::new(alloc);
    for word in first_behind(turn, mark).unwrap_or("").split(' ') {
        if let Ok(number) = word.parse::<u64>() {
            numbers.push(number)?;
        }
    }
    Ok(numbers)
}

/// The text with the first of each pair replaced by the second, one pair after the other.
pub fn replaced(alloc: Global, text: &str, pairs: &[(&str, &str)]) -> Result<String, AllocError> {
    let mut told = String::from_str(alloc, text)?;
    for (from, to) in pairs {
        told = told.replace(alloc, from, to)?;
    }
    Ok(told)
}
