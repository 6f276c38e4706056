//! Reads a line of a trace, and its words.
ghost use Rattle.std.specs.Prelude.{◌++◌, ◌≤◌, ◌*◌, ◌↔◌, codes, length, IfOk, IsTrue};
ghost use Rattle.trace_text.specs.Lines.{IsReadAs};
ghost use Rattle.trace_text.specs.Trace.{longest_value, IsLine, IsValue};

use crate::number::parse_number;
use crate::pieces::{behind, split_once};
use crate::request::Request;
use dict_model::LARGEST_VALUE;
use hex::FromHexError;
use region_header::Bytes;
use std::alloc::{AllocError, Global};

/// The request that a line asks for, or `None` where it asks for nothing.
pub(crate) fn parse_line(alloc: Global, line: &[u8]) -> Result<Option<Request>, AllocError>
    ensures ok { IfOk result (IsReadAs IsLine line.now) }
{
    if let Some(words) = behind(line, b"put ") {
        return parse_put(alloc, words);
    }
    if let Some(word) = behind(line, b"get ") {
        return Ok(parse_number(word).map(Request::Get));
    }
    if let Some(word) = behind(line, b"del ") {
        return Ok(parse_number(word).map(Request::Del));
    }
    if let Some(words) = behind(line, b"move ") {
        return Ok(parse_move(words));
    }
    Ok(None)
}

/// The request of the words of a line behind its `put `.
fn parse_put(alloc: Global, words: &[u8]) -> Result<Option<Request>, AllocError>
    ensures ok { IfOk result (IsReadAs IsLine (codes "put " ++ words.now)) }
{
    let Some((key, value)) = split_once(words, b' ') else {
        return Ok(None);
    };
    let Some(key) = parse_number(key) else {
        return Ok(None);
    };
    let Some(value) = parse_value(alloc, value)? else {
        return Ok(None);
    };
    Ok(Some(Request::Put(key, value)))
}

/// The request of the words of a line behind its `move `.
fn parse_move(words: &[u8]) -> Option<Request>
    ensures { IsReadAs IsLine (codes "move " ++ words.now) result }
{
    let (key, to) = split_once(words, b' ')?;
    let key = parse_number(key)?;
    let to = parse_number(to)?;
    Some(Request::Move(key, to))
}

/// The value that a word writes.
fn parse_value(alloc: Global, word: &[u8]) -> Result<Option<Bytes>, AllocError>
    ensures ok { IfOk result (IsReadAs IsValue word.now) }
{
    if word == b"-".as_slice() {
        return Ok(Some(Bytes::from_vec(Vec::new(alloc))));
    }
    if !may_be_digits(word) {
        return Ok(None);
    }
    match hex::decode(alloc, word) {
        Ok(value) => Ok(Some(Bytes::from_vec(value))),
        Err(FromHexError::OutOfMemory) => Err(AllocError),
        Err(_) => Ok(None),
    }
}

/// Whether the word is as long as the digits of a value of some bytes.
fn may_be_digits(word: &[u8]) -> bool
    ensures { IsTrue result ↔ ((1 ≤ length word.now) × (length word.now ≤ 2 * longest_value)) }
{
    !word.is_empty() && word.len() <= 2 * LARGEST_VALUE as usize
}
