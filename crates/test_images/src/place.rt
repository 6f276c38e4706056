//! Numbers told as texts.
use offset_ptr::encode;
use std::test::Fail;
use super_block::{
    ANCHOR_OFFSET, DESCRIPTOR_WORDS, FIXED_WORDS, LINK_OFFSET, ROOT_WORD, STATE_WORD, USED_WORD,
    WORD_BYTES,
};

/// Where the info of superblock d stands; its anchor and its link follow.
pub fn info_word(d: u64) -> u64 {
    d.wrapping_mul(DESCRIPTOR_WORDS).wrapping_add(FIXED_WORDS)
}

pub fn anchor_word(d: u64) -> u64 {
    info_word(d).wrapping_add(ANCHOR_OFFSET)
}

pub fn link_word(d: u64) -> u64 {
    info_word(d).wrapping_add(LINK_OFFSET)
}

/// The number that a text tells, as `20`; the word index of the state, of the count of superblocks
/// taken, of a root, or of a word of a superblock's descriptor, as `state`, `used`, `root:8`,
/// `info:0`, `anchor:0` and `link:0`; or the pointer to a word, as `@1080`.
pub fn number(text: &str) -> Result<u64, Fail> {
    if let Some(word) = text.strip_prefix('@') {
        let word = word.parse::<u32>().ok().ok_or("no word to point to")?;
        return Ok(encode(u64::from(word) * WORD_BYTES));
    }
    match text.split_once(':') {
        Some((kind, index)) => place(kind, digits(index)?),
        None => match header_word(text) {
            Some(word) => Ok(word),
            None => digits(text),
        },
    }
}

fn digits(text: &str) -> Result<u64, Fail> {
    let number = text.parse::<u64>().ok().ok_or("no number")?;
    Ok(number)
}

/// The word of the header of this name.
fn header_word(name: &str) -> Option<u64> {
    match name {
        "state" => Some(STATE_WORD),
        "used" => Some(USED_WORD),
        _ => None,
    }
}

/// The word of this kind of the root or the superblock of this index.
fn place(kind: &str, index: u64) -> Result<u64, Fail> {
    match kind {
        "root" => Ok(index.wrapping_add(ROOT_WORD)),
        "info" => Ok(info_word(index)),
        "anchor" => Ok(anchor_word(index)),
        "link" => Ok(link_word(index)),
        _ => Err("no word of this name".into()),
    }
}
