//! Fences over words of which a crash leaves what loads see, over words of which it leaves another
//! value, and over words that are another seat's.

use crate::scenes::play_rows;
use std::process::Abort;
use std::test::Fail;
use std::thread::Threads;

/// The odd numbers below it name a seat's last sixteen stores, each to be made durable early.
const CHOICES: u64 = 32;

/// Plays the scene of each row whatever chance gives.
fn play_by_chance<R: Threads + Sync + Abort + AllocGlobal>(rt: &R, rows: &str) -> Result<(), Fail> {
    for drawn in 0..CHOICES {
        play_rows(rt, rows, drawn)?;
    }
    Ok(())
}

/// A crash leaves what loads see of a word that was written back and not stored to since.
const UNSTORED: &str = "
# the image has a value there
1 | 1075 55 | - | take 14336 1, back 3, fence | quiet | 14 0 | 1075 55 | 1075 55
# the link to the next free block is there, which was never made durable
1 | - | - | take 14336 1, back 0, fence | quiet | 14 0 | 1072 2864 | 1072 2864
# the seat stored there before it freed the block, or another seat did
1 | 2867 55 | - | take 14336 2, store 3 7, free 1, take 14336 1, has 2864 1792, back 3, fence | \
    quiet | 19 0 | 2867 7 | 2867 7
1 | 2867 55 | - | take 14336 2, store 3 7, free 1, quiet | \
    take 14336 1, has 2864 1792, back 3, fence | 28 8 | 2867 7 | 2867 7
";

#[test]
fn a_fence_makes_words_durable_that_were_not_stored_to(rt: HostRuntime) -> Result<(), Fail> {
    play_by_chance(&rt, UNSTORED)
}

/// Three words of a line are stored to, of which two had a value in the image, as one other word
/// has: all eight are durable.
const LINE: &str = "
1 | 1081 5, 1082 6, 1083 7 | - | take 14336 1, store 8 21, store 10 22, store 11 23, back 8, \
    back 9, back 10, back 11, back 12, back 13, back 14, back 15, fence | quiet | 24 0 | \
    1080 21, 1081 5, 1082 22, 1083 23, 1084 0, 1085 0, 1086 0, 1087 0 | \
    1080 21, 1081 5, 1082 22, 1083 23, 1084 0, 1085 0, 1086 0, 1087 0
";

#[test]
fn a_fence_makes_a_line_durable_of_which_some_words_changed(rt: HostRuntime) -> Result<(), Fail> {
    play_by_chance(&rt, LINE)
}

/// A crash leaves a value that is stored again, once it was durable, whether another one was written
/// back before or not; and what is stored after the fence, only behind a further one.
const AGAIN: &str = "
1 | 1075 55 | - | take 14336 1, store 3 7, back 3, store 3 55, fence | quiet | 16 0 | 1075 55 | 1075 55
1 | 1075 55 | - | take 14336 1, store 3 7, back 3, store 3 55, back 3, fence | quiet | 17 0 | \
    1075 55 | 1075 55
1 | 1075 55 | - | take 14336 1, store 3 7, store 3 55, back 3, fence, store 3 8 | quiet | 17 0 | \
    1075 8 | 1075 55
1 | 1075 55 | - | take 14336 1, store 3 7, store 3 55, back 3, fence, store 3 8, back 3, fence | \
    quiet | 19 0 | 1075 8 | 1075 8
";

#[test]
fn a_fence_keeps_a_durable_value_that_is_stored_again(rt: HostRuntime) -> Result<(), Fail> {
    play_by_chance(&rt, AGAIN)
}

/// A fence leaves alone what another seat stored to, and what no seat has, where nothing is durable
/// early.
const OTHERS: &str = "
# the blocks of both seats share a line, and the other seat's own fence makes its word durable
1 | - | 2058 | take 96 1, quiet, store 8 5, back 8, fence | take 96 1, has 1084 12, store 1 9 | \
    2061 7 | 1080 5, 1085 9 | 1080 5, 1085 0
1 | - | 2058 7 | take 96 1, quiet, store 8 5, back 8, fence | \
    take 96 1, has 1084 12, store 1 9, back 1, fence | 2061 9 | 1080 5, 1085 9 | 1080 5, 1085 9
# a word was written back, and its block is another seat's now, or free
1 | 2867 55 | 28 | take 14336 2, back 3, free 1, quiet, fence | \
    take 14336 1, has 2864 1792, store 3 9 | 29 7 | 2867 9 | 2867 55
1 | 2867 55 | 29 | take 14336 2, store 3 7, back 3, free 1, quiet, fence | \
    take 14336 1, has 2864 1792, store 3 9 | 30 7 | 2867 9 | 2867 55
1 | 2867 55 | - | take 14336 2, store 3 7, back 3, free 1, quiet, fence | quiet | 30 0 | \
    2867 7 | 2867 55
";

#[test]
fn a_fence_leaves_words_alone_that_are_another_seats(rt: HostRuntime) -> Result<(), Fail> {
    play_rows(&rt, OTHERS, 0)
}
