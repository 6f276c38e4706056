//! The roots of an image, and their kinds.
use crate::asserts::must_hold;
use crate::images::good_image;
use root_table::{kind, kinds, root, set_kind, set_root};
use std::alloc::Global;
use std::process::Abort;
use std::test::Fail;
use super_block::FIXED_WORDS;

/// Asserts that root i stands in this word.
fn must_stand(rt: &impl Abort, i: usize, index: usize) {
    assert!(rt; i < 1024 && index < FIXED_WORDS as usize);
    let mut words = [9; FIXED_WORDS as usize];
    set_root(&mut words, i, 5);
    must_hold(rt, words[index] == 5, "the word");
    must_hold(rt, root(&words, i) == 5, "the root");
}

#[test]
fn a_root_is_stored_in_its_own_word(rt: HostRuntime) {
    must_stand(&rt, 0, 40);
    must_stand(&rt, 7, 47);
    must_stand(&rt, 8, 48);
    must_stand(&rt, 1023, 1063);
}

/// An empty image of two superblocks in which root i has kind 5.
fn with_kind(alloc: Global, i: usize) -> Result<Vec<u64>, Fail> {
    let mut words = good_image(alloc, 2, "")?;
    if i < 1024 {
        set_kind(&mut words, i, 5);
    }
    Ok(words)
}

/// Asserts that the kind of root i stands in this word.
fn kind_must_stand(rt: &(impl Abort + AllocGlobal), i: usize, index: usize) -> Result<(), Fail> {
    let words = with_kind(rt.alloc(), i)?;
    must_hold(rt, words.get(index) == Some(&5), "the word of the kind");
    Ok(())
}

#[test]
fn a_kind_is_stored_in_its_own_word(rt: HostRuntime) -> Result<(), Fail> {
    kind_must_stand(&rt, 0, 17_464)?;
    kind_must_stand(&rt, 7, 17_471)?;
    kind_must_stand(&rt, 8, 17_472)?;
    kind_must_stand(&rt, 1_023, 18_487)
}

#[test]
fn an_empty_image_has_kind_1_for_eight_roots(rt: HostRuntime) -> Result<(), Fail> {
    let words = good_image(rt.alloc(), 2, "kind:1023 7")?;
    must_hold(&rt, kind(&words, 7) == 1, "of root 7");
    must_hold(&rt, kind(&words, 8) == 0, "of root 8");
    must_hold(&rt, kind(&words, 1_023) == 7, "of root 1023");
    Ok(())
}
