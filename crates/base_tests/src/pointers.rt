//! Pointer words, and words that are none.
use crate::asserts::must_hold;
use offset_ptr::{Ptr, decode, encode};
use std::process::Abort;

/// Asserts that the word points to the offset.
fn must_point(rt: &impl Abort, offset: u64, word: u64) {
    assert!(rt; offset < 1 << 48);
    must_hold(rt, encode(offset) == word, "the word");
    must_hold(rt, decode(word) == Ptr::At(offset), "the offset");

    // By its field: no clause says what the derived `==` answers.
    let is_there = matches!(decode(word), Ptr::At(at) if at == offset);
    must_hold(rt, is_there, "the field");
}

#[test]
fn a_pointer_word_is_decoded_to_its_offset(rt: HostRuntime) {
    must_point(&rt, 0, 0x5250_0000_0000_0000);
    must_point(&rt, 8_576, 0x5250_0000_0000_2180);
    must_point(&rt, 8_640, 0x5250_0000_0000_21c0);
    must_point(&rt, 8_768, 0x5250_0000_0000_2240);
    must_point(&rt, 0xffff_ffff_ffff, 0x5250_ffff_ffff_ffff);
}

#[test]
fn a_word_without_the_tag_is_no_pointer(rt: HostRuntime) {
    must_hold(&rt, decode(0) == Ptr::Null, "0");
    must_hold(&rt, is_alien(5), "5");
    must_hold(&rt, is_alien(0x2180), "no tag");
    must_hold(&rt, is_alien(0x524f_ffff_ffff_ffff), "a tag below");
    must_hold(&rt, is_alien(0x5251_0000_0000_2180), "a tag above");
}

fn is_alien(word: u64) -> bool {
    decode(word) == Ptr::Alien
}
