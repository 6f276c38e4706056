//! The anchor of a superblock, as a word and as its parts.
use crate::asserts::must_hold;
use anchor_word::{Anchor, FULL, State, give, pack, take_all, unpack};
use std::process::Abort;

/// Asserts that the word has these parts.
fn must_have(rt: &impl Abort, word: u64, state: State, first: u64, count: u64) {
    assert!(rt; first < 1 << 31 && count < 1 << 31);
    let anchor = Anchor {
        state,
        first,
        count,
    };
    must_hold(rt, pack(&anchor) == word, "the word");
    must_hold(rt, unpack(word) == Some(anchor), "the parts");
}

#[test]
fn the_word_of_an_anchor_has_its_parts(rt: HostRuntime) {
    must_have(&rt, 0, State::Empty, 0, 0);
    must_have(&rt, 2, State::Full, 0, 0);
    must_have(&rt, 42_949_672_973, State::Partial, 3, 5);
    must_have(&rt, 8_787_503_087_621, State::Partial, 1, 1_023);
    must_have(&rt, u64::MAX - 2, State::Partial, 0x7fff_ffff, 0x7fff_ffff);
    must_hold(&rt, unpack(3).is_none(), "no state");
}

#[test]
fn blocks_given_back_change_the_state(rt: HostRuntime) {
    let one = give(&FULL, 7, 1, 64);
    must_hold(&rt, pack(&one) == 8_589_934_621, "one block");
    must_hold(&rt, take_all(&one) == FULL, "taken again");
    let all = give(&one, 3, 63, 64);
    let wanted = Anchor {
        state: State::Empty,
        first: 3,
        count: 64,
    };
    must_hold(&rt, all == wanted, "all blocks");

    // Field by field: no clause says what the derived `==` answers.
    must_hold(&rt, all.first == 3 && all.count == 64, "first and count");
    must_hold(&rt, matches!(all.state, State::Empty), "empty");
}
