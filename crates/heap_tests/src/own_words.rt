//! Which words are a seat's own, and what may be stored to them.
use crate::guards::{is_row, steps, try_guard, try_guards};
use crate::pieces::image;
use crash_core::Event::{self, Load, Settle, Store};
use std::process::Abort;
use std::test::Fail;
use test_images::number;

/// Images, what is done before, a seat, words, and whether all of these are its own then, or none.
const OWNED: &str = "
# roots, which are owned in turn; the header, the kinds of roots and words behind the end never are
fresh | - | 0 | root:0 root:2 root:1022 | own
fresh | - | 1 | root:1 root:1023 | own
fresh | - | 0 | root:1 root:1023 | not own
fresh | - | 1 | root:0 root:1022 | not own
fresh | - | 0 | 0 2 3 8 16 36 39 17464 18487 18488 18446744073709551615 | not own
# held blocks, and nothing of their superblock beside
all-held | - | 0 | 1080 2871 4664 6455 | own
all-held | - | 1 | 2872 4663 6456 8247 | own
all-held | - | 0 | info:0 anchor:0 link:0 1067 2872 4663 8248 9271 9272 | not own
one-held | - | 1 | 1080 2871 2872 | not own
# the link of a claimed superblock, and all of it where it has no class
one-held | pop-class | 0 | link:0 1080 | own
one-held | pop-class | 0 | info:0 anchor:0 1067 2872 9271 | not own
one-held | pop-class | 1 | link:0 | not own
one-free | - | 0 | info:0 anchor:0 link:0 1080 | not own
one-free | pop-free | 0 | info:0 anchor:0 link:0 1080 9271 | own
one-free | pop-free | 0 | 1067 1071 info:1 link:1 9272 | not own
one-free | take-one | 0 | info:1 anchor:1 link:1 9272 17463 | own
one-free | pop-free, 0 head 0, 0 push 0 | 0 | info:0 link:0 1080 | not own
# one whose blocks are being made, and its blocks once they are made
one-free | pop-free, begin | 0 | info:0 anchor:0 1080 9271 | own
one-free | make-0, cut-blocks | 0 | 1081 2871 8247 | own
one-free | make-0, cut-blocks | 0 | info:0 anchor:0 link:0 8248 | not own
# cached blocks, held ones, and those of the batch until it is given back
one-held | pop-class, take-all | 0 | 2873 4663 8247 | own
one-held | pop-class, take-all | 0 | link:0 | not own
one-held | pop-class, take-all, 0 alloc 20 | 0 | 2872 4665 | own
all-held | free-one, lift-one | 0 | 1080 2871 | own
one-held | give-one | 0 | 1080 1081 link:0 | not own
all-held | free-one, lift-one | 1 | 1080 2871 | not own
# a large block's words, and its superblocks' descriptors once it is split
large | - | 0 | 1080 9271 9272 17463 | own
large | - | 0 | info:0 link:0 info:1 link:1 | not own
large | 0 split 1080 | 0 | info:0 link:0 info:1 link:1 1080 17463 | own
large | - | 1 | info:0 1080 17463 | not own
";

/// Loads the word, stores to it and settles it, each in a heap of its own.
fn try_word(
    rt: &(impl Abort + AllocGlobal),
    row: &str,
    words: &str,
    before: &[(usize, Event)],
    (seat, word): (usize, u64),
    is_own: bool,
) -> Result<(), Fail> {
    for event in [Load { word }, Store { word, value: 0 }, Settle { word }] {
        try_guard(rt, row, words, before, (seat, event), is_own)?;
    }
    Ok(())
}

/// Each word is worked on where it is the seat's own, and only there.
fn try_words(rt: &(impl Abort + AllocGlobal), row: &str) -> Result<(), Fail> {
    let mut columns = row.split(" | ");
    let words = image(columns.next().unwrap_or(""))?;
    let before = steps(rt.alloc(), columns.next().unwrap_or(""))?;
    let seat = number(columns.next().unwrap_or(""))? as usize;
    let places = columns.next().unwrap_or("");
    let is_own = match columns.next() {
        Some("own") => true,
        Some("not own") => false,
        _ => return Err("neither own nor not".into()),
    };
    for place in places.split(' ') {
        try_word(rt, row, words, &before, (seat, number(place)?), is_own)?;
    }
    Ok(())
}

#[test]
fn a_seat_works_on_its_own_words(rt: HostRuntime) -> Result<(), Fail> {
    for line in OWNED.split('\n') {
        if is_row(line) {
            try_words(&rt, line)?;
        }
    }
    Ok(())
}

/// Stores to own words that are not done, and those that are beside them.
const STORE_GUARDS: &str = "
# an anchor becomes full or 0, and full where it is empty or counts as empty
one-free | pop-free | 0 store anchor:0 2 | done
one-free | pop-free | 0 store anchor:0 1 | not now
one-free | pop-free | 0 store anchor:0 3 | not now
one-free | pop-free | 0 store anchor:0 18446744073709551615 | not now
large | 0 split 1080 | 0 store anchor:1 2 | done
large | 0 split 1080 | 0 store anchor:1 0 | done
large | 0 split 1080 | 0 store anchor:1 4 | not now
# while its blocks are made, its info may change and its link may not
one-free | pop-free, begin | 0 store anchor:0 2 | not now
one-free | pop-free, begin | 0 store anchor:0 0 | done
one-free | pop-free, begin | 0 store info:0 7 | done
one-free | pop-free, begin | 0 store link:0 0 | not now
one-free | pop-free, begin | 0 load link:0 | done
one-free | pop-free, begin | 0 settle link:0 | done
one-free | pop-free, begin, 0 store anchor:0 0 | 0 store link:0 0 | done
# the first word of a cached block stays
one-held | free-one | 0 store 1080 0 | not now
one-held | free-one | 0 store 1081 0 | done
one-held | free-one | 0 load 1080 | done
one-held | free-one | 0 settle 1080 | done
one-held | free-one, 0 alloc 20 | 0 store 1080 0 | done
# and of the blocks of the batch, but the last one's
one-held | free-one, lift-one | 0 store 1080 0 | done
all-held | free-one, free-next, lift-one | 0 store 4664 0 | done
all-held | free-one, free-next, lift-one | 0 store 1080 0 | not now
all-held | free-one, free-next, lift-one, lift-one | 0 store 4664 0 | not now
all-held | free-one, free-next, lift-one, lift-one | 0 store 4665 0 | done
all-held | free-one, free-next, lift-one, lift-one | 0 store 1080 0 | done
# a large block has no link: all its words may change
large | - | 0 store 9272 5 | done
one-free | pop-free, info-of-1, 0 large 0 1 | 0 store 1080 5 | done
";

#[test]
fn links_of_free_blocks_and_anchors_are_kept(rt: HostRuntime) -> Result<(), Fail> {
    try_guards(&rt, STORE_GUARDS)
}
