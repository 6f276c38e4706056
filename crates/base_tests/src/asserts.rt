//! What the tests assert, what they count, and the columns of their tables.
use std::process::Abort;
use std::test::Fail;

/// Asserts what the text tells of. An assertion makes a long function slow to prove; a call of this
/// one does not.
pub fn must_hold(rt: &impl Abort, holds: bool, told: &str) {
    assert!(rt; holds, "{told}");
}

/// How many of the words have this value.
pub fn count_of(words: &[u64], value: u64) -> usize {
    words.iter().filter(|word| **word == value).count()
}

/// The three columns of a row, between bars.
pub fn three_columns(row: &str) -> Result<(&str, &str, &str), Fail> {
    match three_parts(row, " | ") {
        Some(columns) => Ok(columns),
        None => Err("no three columns".into()),
    }
}

/// The three parts of a text, with this between them.
pub fn three_parts<'a>(text: &'a str, between: &str) -> Option<(&'a str, &'a str, &'a str)> {
    let (first, rest) = text.split_once(between)?;
    let (second, third) = rest.split_once(between)?;
    Some((first, second, third))
}
