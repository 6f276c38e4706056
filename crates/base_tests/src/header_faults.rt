//! What is told of a header: the first cause for which an image is refused.
use crate::asserts::must_hold;
use crate::headers::empty;
use region_header::{BadHeader, Header, check_bytes, read_header, words_to_bytes};
use std::alloc::{AllocError, Global};
use std::process::Abort;
use std::test::Fail;
use super_block::OLD_VERSION;
use test_images::{image_of, old_image_of};

/// What is told of a header, as `1 clean 0`: the capacity, the state and how many superblocks are
/// taken, and `old` of one of the old version; or the name of the fault.
fn told(alloc: Global, found: Result<Header, BadHeader>) -> Result<String, AllocError> {
    match found {
        Ok(header) => told_header(alloc, header),
        Err(cause) => format!(in alloc; "{cause:?}"),
    }
}

fn told_header(alloc: Global, header: Header) -> Result<String, AllocError> {
    let state = if header.clean { "clean" } else { "dirty" };
    let age = if header.version == OLD_VERSION {
        " old"
    } else {
        ""
    };
    format!(in alloc; "{} {state} {}{age}", header.capacity, header.used)
}

/// Asserts that this is told.
fn must_tell(
    rt: &(impl Abort + AllocGlobal),
    found: Result<Header, BadHeader>,
    wanted: &str,
    case: &str,
) -> Result<(), Fail> {
    let told = told(rt.alloc(), found)?;
    must_hold(rt, told.as_str() == wanted, case);
    Ok(())
}

/// Changes of an empty image of one superblock, and what is told of its words, and of its bytes.
/// Word 0 is the mark, 1 the version and 2 the capacity.
const TOLD: &str = "
# The mark, another, and the mark's bytes the other way round.
0 5927102475227312177 => 1 clean 0
0 5927102475227312178 => Magic
0 3544406914602123602 => Magic
1 0 => Version
1 1 => Length
1 2 => 1 clean 0
1 3 => Version
2 0 => Capacity
2 1 => 1 clean 0
2 2 => Length
2 257 => Length
2 4096 => Length
2 4097 => Capacity
state 0 => State
state 1 => 1 clean 0
state 2 => 1 dirty 0
state 3 => State
used 1 => 1 clean 1
used 2 => Used
# Word 9 has no meaning.
9 2 => 1 clean 0
# The first cause is told.
0 1, 1 3 => Magic
1 3, 2 0 => Version
state 0, used 2 => State
state 1, used 2 => Used
state 2, used 1 => 1 dirty 1
";

/// The same of an empty image of the old version.
const OLD_TOLD: &str = "
0 5927102475227312178 => Magic
1 0 => Version
1 1 => 1 clean 0 old
1 2 => Length
1 3 => Version
2 0 => Capacity
2 2 => Length
2 256 => Length
2 257 => Capacity
2 4096 => Capacity
state 2 => 1 dirty 0 old
state 3 => State
used 1 => 1 clean 1 old
used 2 => Used
";

/// The same of kinds of roots, where the limit is 3.
const KINDS_TOLD: &str = "
kind:0 2 => 1 clean 0
kind:0 3 => Kind
kind:0 18446744073709551615 => Kind
kind:500 3 => Kind
kind:1023 2 => 1 clean 0
kind:1023 3 => Kind
# It is the last cause, of kinds alone.
kind:1023 3, used 2 => Used
10287 3 => Kind
9264 3 => Kind
9263 3 => 1 clean 0
";

/// Asserts what is told of these words, and of their bytes, with this limit of kinds.
fn must_tell_of_both(
    rt: &(impl Abort + AllocGlobal),
    words: &[u64],
    kinds: Option<u32>,
    wanted: &str,
    case: &str,
) -> Result<(), Fail> {
    must_tell(rt, read_header(words, kinds), wanted, case)?;
    let bytes = words_to_bytes(rt.alloc(), words)?;
    must_tell(rt, check_bytes(bytes.as_slice(), kinds), wanted, case)
}

/// Asserts what a row tells of an image of one superblock.
#[tactic(auto, unfolding(heap_model::specs::Geometry::largest_capacity))]
fn must_tell_row(
    rt: &(impl Abort + AllocGlobal),
    changes: &str,
    kinds: Option<u32>,
    wanted: &str,
) -> Result<(), Fail> {
    let words = image_of(rt.alloc(), 1, changes)?;
    must_tell_of_both(rt, &words, kinds, wanted, changes)
}

/// Asserts what a row tells of one of the old version, whatever the limit of kinds is.
#[tactic(auto, unfolding(heap_model::specs::Geometry::largest_capacity))]
fn must_tell_old_row(
    rt: &(impl Abort + AllocGlobal),
    changes: &str,
    wanted: &str,
) -> Result<(), Fail> {
    let words = old_image_of(rt.alloc(), 1, changes)?;
    must_tell_of_both(rt, &words, None, wanted, changes)?;
    must_tell_of_both(rt, &words, Some(0), wanted, changes)
}

#[test]
fn the_first_cause_is_told_where_it_holds_and_not_beside_it(rt: HostRuntime) -> Result<(), Fail> {
    for line in TOLD.split('\n') {
        if let Some((changes, wanted)) = line.split_once(" => ") {
            must_tell_row(&rt, changes, None, wanted)?;
        }
    }
    Ok(())
}

#[test]
fn the_old_version_has_its_own_limits(rt: HostRuntime) -> Result<(), Fail> {
    for line in OLD_TOLD.split('\n') {
        if let Some((changes, wanted)) = line.split_once(" => ") {
            must_tell_old_row(&rt, changes, wanted)?;
        }
    }
    Ok(())
}

#[test]
fn a_kind_at_the_limit_is_told(rt: HostRuntime) -> Result<(), Fail> {
    for line in KINDS_TOLD.split('\n') {
        if let Some((changes, wanted)) = line.split_once(" => ") {
            must_tell_row(&rt, changes, Some(3), wanted)?;
        }
    }
    Ok(())
}

#[test]
fn kinds_have_no_limit_where_none_is_given(rt: HostRuntime) -> Result<(), Fail> {
    must_tell_row(
        &rt,
        "kind:0 3, kind:1023 18446744073709551615",
        None,
        "1 clean 0",
    )?;
    must_tell_row(&rt, "kind:0 3", Some(u32::MAX), "1 clean 0")?;
    must_tell_row(&rt, "", Some(1), "Kind")
}

/// Asserts that this is told of an empty image of one superblock, cut or filled to so many bytes.
fn must_tell_of_bytes(
    rt: &(impl Abort + AllocGlobal),
    length: usize,
    wanted: &str,
) -> Result<(), Fail> {
    let mut bytes = words_to_bytes(rt.alloc(), &empty(rt.alloc(), 1)?)?.into_vec();
    bytes.resize(length, 0)?;
    must_tell(rt, check_bytes(&bytes, None), wanted, wanted)
}

/// Asserts the same of so many words.
fn must_tell_of_words(
    rt: &(impl Abort + AllocGlobal),
    length: usize,
    wanted: &str,
) -> Result<(), Fail> {
    let mut words = empty(rt.alloc(), 1)?;
    words.resize(length, 0)?;
    must_tell(rt, read_header(&words, None), wanted, wanted)
}

/// Numbers of bytes, and what is told.
const BYTES_TOLD: [(usize, &str); 7] = [
    (0, "Short"),
    (8_511, "Short"),
    (8_512, "Length"),
    (74_112, "Length"),
    (82_303, "Length"),
    (82_304, "1 clean 0"),
    (82_312, "Length"),
];

/// Numbers of words, and what is told.
const WORDS_TOLD: [(usize, &str); 4] = [
    (1_063, "Short"),
    (1_064, "Length"),
    (10_287, "Length"),
    (10_289, "Length"),
];

/// The same of one of the old version.
const OLD_BYTES_TOLD: [(usize, &str); 4] = [
    (8_511, "Short"),
    (74_111, "Length"),
    (74_112, "1 clean 0 old"),
    (82_304, "Length"),
];

/// Asserts that this is told of an empty image of one superblock of the old version, cut or filled
/// to so many bytes.
#[tactic(auto, unfolding(heap_model::specs::Geometry::largest_capacity))]
fn must_tell_of_old_bytes(
    rt: &(impl Abort + AllocGlobal),
    length: usize,
    wanted: &str,
) -> Result<(), Fail> {
    let mut bytes = words_to_bytes(rt.alloc(), &old_image_of(rt.alloc(), 1, "")?)?.into_vec();
    bytes.resize(length, 0)?;
    must_tell(rt, check_bytes(&bytes, None), wanted, wanted)
}

#[test]
fn a_file_of_the_old_version_has_its_own_length(rt: HostRuntime) -> Result<(), Fail> {
    for (length, wanted) in OLD_BYTES_TOLD {
        must_tell_of_old_bytes(&rt, length, wanted)?;
    }
    Ok(())
}

#[test]
fn a_file_of_another_length_is_refused(rt: HostRuntime) -> Result<(), Fail> {
    for (length, wanted) in BYTES_TOLD {
        must_tell_of_bytes(&rt, length, wanted)?;
    }
    for (length, wanted) in WORDS_TOLD {
        must_tell_of_words(&rt, length, wanted)?;
    }
    Ok(())
}
