//! What `get` puts of a value: as much as fits.
use crate::asks::{all_are, set, value_of};
use crate::checks::must_hold;
use crate::standing::Standing;
use crate::tests::{LENGTHS, opened_empty};
use line_memory::ConstantChance;
use std::alloc::Global;
use std::process::Abort;
use std::test::Fail;

/// Whether the bytes are a value of so many bytes 1, as far as that fits, and 2 behind it.
fn are_filled(bytes: &[u8], len: usize) -> bool {
    let (filled, others) = bytes.split_at(len.min(bytes.len()));
    all_are(filled, 1) && all_are(others, 2)
}

/// Asks for a value of `len` bytes 1, which is put as far as it fits.
fn puts(
    rt: &impl Abort,
    heap: &mut Standing<ConstantChance>,
    key: u64,
    len: usize,
    out: &mut [u8],
) {
    must_hold(rt, heap.get(key, out) == Ok(Some(len)), "its length");
    must_hold(rt, are_filled(out, len), "the value, and the rest");
}

/// Asks for such a value with room for so many, all 2 before.
fn fits(
    rt: &impl Abort,
    alloc: Global,
    heap: &mut Standing<ConstantChance>,
    key: u64,
    (len, room): (usize, usize),
) -> Result<(), Fail> {
    let mut out = value_of(alloc, room, 2)?;
    puts(rt, heap, key, len, &mut out);
    must_hold(rt, out.len() == room, "the room");
    Ok(())
}

/// Asks for a value of so many bytes with no room, too little, enough and more.
fn fits_each(
    rt: &impl Abort,
    alloc: Global,
    heap: &mut Standing<ConstantChance>,
    (key, len): (u64, usize),
) -> Result<(), Fail> {
    set(alloc, heap, (key, len, 1))?;
    for room in &[0, len / 2, len, len.wrapping_add(9)] {
        fits(rt, alloc, heap, key, (len, *room))?;
    }
    Ok(())
}

/// Asks for a key that is not there.
fn gets_nothing(rt: &impl Abort, heap: &mut Standing<ConstantChance>, key: u64) {
    let mut out = [3; 4];
    must_hold(rt, matches!(heap.get(key, &mut out), Ok(None)), "no value");
    must_hold(rt, out == [3; 4], "nothing is put");
}

/// Asks for values of each length under the key, and then for a key that is not there.
fn gets_all(
    rt: &(impl Abort + AllocGlobal),
    heap: &mut Standing<ConstantChance>,
    key: u64,
) -> Result<(), Fail> {
    for len in &LENGTHS {
        fits_each(rt, rt.alloc(), heap, (key, *len))?;
    }
    gets_nothing(rt, heap, key ^ 8);
    Ok(())
}

/// Does so in an empty heap.
fn gets_each(rt: &(impl Abort + AllocGlobal), key: u64) -> Result<(), Fail> {
    gets_all(rt, &mut opened_empty(rt.alloc(), 16)?, key)
}

#[test]
fn get_puts_as_much_of_a_value_as_fits(rt: HostRuntime) -> Result<(), Fail> {
    gets_each(&rt, 0)?;
    gets_each(&rt, u64::MAX)
}
