//! `show` by threads: what it prints and how it ends is what `show` without them does.
use crate::harness::{Ended, make_turn, must_hold};
use crate::session::{Table, image_in, played, plays};
use std::alloc::AllocError;
use std::process::Abort;
use std::sync::Wait;
use std::test::Fail;
use std::thread::Threads;
use tool_ports::MapStore;

/// Images of one to four superblocks, among them large blocks, free and fresh superblocks, those of
/// version 1, and those that are refused.
const IMAGES: &str = "1
4: state 2
table
table: 1 1; 139712
# Superblocks of different classes.
4: used 4, info:0 12, info:1 2, info:2 20, info:3 4, root:0 @1096, 1096 @9288, root:8 @17480, root:9 @25680
4: used 3, info:0 12, info:1 2, info:2 20, root:1 @1096, root:8 @9288, root:9 @9296, root:10 @9300
# Large blocks, between others and behind them.
4: used 4, info:0 12, info:1 767, info:3 2, root:0 @1096, root:8 @9288, 1097 @25672, 25673 1
4: used 4, info:0 1279, root:8 @1096
4: used 4, info:0 4, info:1 1023, root:8 @9288
2: used 2, info:0 511, info:1 511, root:8 @1080
# Words outside, alone and together.
1: used 1, info:0 12, root:0 @1073
4: used 4, info:0 12, info:1 2, root:0 @1096, 1096 @9289, root:9 5
4: used 4, info:0 767, info:1 4, root:8 @1096
# Bad headers.
1; 8511
1: state 0, used 2
1: 9273 3
1: 1 1, 2 257; 74112
# Shards without a map.
table: 9273 8
1: 9264 0";

/// Requests that leave keys, long values in blocks of their own, and a free superblock.
const RUN: &str = "+ 4
$ run h --workers 1
< put 1 aa
< put 2 bbbbbbbbbbbbbbbbbbbbbbbbbbbbbbbbbbbbbbbb
< put 8 cc
< put 9 dd
< put 17 ee
< put 25 ff
< del 9
< put 3 00
< put 7 11
< del 3
>* run closed";

/// Whether two calls ended alike.
fn ended_alike(one: Result<Ended, AllocError>, other: Result<Ended, AllocError>) -> bool {
    let (Ok(one), Ok(other)) = (one, other) else {
        return false;
    };
    one.status == other.status && one.text() == other.text()
}

/// Shows the image with threads and without, by these two lines: all is the same.
fn shows_alike(
    rt: &(impl Abort + AllocGlobal + Threads + Wait + Sync),
    images: &mut MapStore,
    line: &str,
    by_threads: &str,
) {
    let ended = make_turn(rt, images, line);
    let other = make_turn(rt, images, by_threads);
    must_hold(rt, ended_alike(ended, other), by_threads);
}

/// Shows the image that a session leaves, with the map of superblocks and without. It stays as it
/// is.
fn is_shown_alike(
    rt: &(impl Abort + AllocGlobal + Threads + Wait + Sync),
    session: &str,
) -> Result<(), Fail> {
    let mut images = played(rt, session)?;
    let image = Vec::from_slice(rt.alloc(), image_in(&images))?;
    shows_alike(rt, &mut images, "show h", "show h --par");
    shows_alike(rt, &mut images, "show h --map", "show --par h --map");
    must_hold(rt, image_in(&images) == image.as_slice(), session);
    Ok(())
}

/// Shows each image alike, and that which a run leaves.
fn are_shown_alike(rt: &(impl Abort + AllocGlobal + Threads + Wait + Sync)) -> Result<(), Fail> {
    for told in IMAGES.split('\n') {
        if !told.starts_with('#') {
            is_shown_alike(rt, told)?;
        }
    }
    is_shown_alike(rt, RUN)
}

/// What is printed, byte for byte.
const PRINTED: &str = "
@ 4: used 4, info:0 12, info:1 2, info:2 511, info:3 4, root:0 @1096, 1096 @9288, root:8 @17480, root:9 @25680
$ show h --par
> heap 4 clean
> key 0 -
> held 32 1
> held 64 1
> held 1024 1
> held large 1 1
$ show --par --map -- h
> heap 4 clean
> key 0 -
> held 32 1
> held 64 1
> held 1024 1
> held large 1 1
> used 4 free 0 fresh 0
> sb 0 class 12 held 0
> sb 1 class 2 held 0
> sb 2 large 1
> sb 3 class 4 held 1
@ table: root:0 @1081
$ show h --par
= 8
> pointer outside at 40 value 52500000000021c8
@ 1: state 0
$ show h --par
= 7
> bad header state
";

/// Faults are told with threads too.
const OUTSIDE: &str = "
$ show none.img --par
= 6
> no image none.img
$ format h 1
> formatted 1 bytes 82304
$ show h --par
! 0
= 5
> write fault
$ show h --par
! 1
= 5
> heap 1 cwrite fault
@ 1
! 1
$ show h --par
= 4
> read fault
";

const TABLES: [Table; 2] = [(PRINTED, &[]), (OUTSIDE, &[])];

#[test]
fn threads_show_what_one_does(rt: HostRuntime) -> Result<(), Fail> {
    are_shown_alike(&rt)?;
    plays(&rt, &TABLES)
}
