//! Runs of which a call of the outside fails, with so many workers in place of N.
use crate::harness::must_hold;
use crate::session::{Table, image_in, played, plays};
use crate::turn::replaced;
use std::process::Abort;
use std::sync::Wait;
use std::test::Fail;
use std::thread::Threads;
use tool_ports::MapStore;

/// A run whose image can't be read, whose trace can't be, at its first, its second or its last read,
/// and whose image can't be put. The store's call 0 put the image there, 1 gets it, and 2 puts what
/// is left.
const LEAVE_OLD: &str = "
@ 4
! 1
$ RUN
= 4
> read fault
@ 4
$ RUN
? 0
= 4
> read fault
@ 4
$ RUN
? 1
= 4
> read fault
@ 4
$ RUN
? 4
= 4
> read fault
@ 4
! 2
$ RUN
= 5
> write fault
";

/// A run of which nothing fails, of which a put fails that leaves the new image, and whose output
/// fails at its first write, or would at one that it doesn't make.
const LEAVE_NEW: [&str; 4] = [
    "+ 4
$ RUN
TOLD",
    "+ 4
!+ 2
$ RUN
= 5
> write fault",
    "+ 4
$ RUN
! 0
= 5
> write fault",
    "+ 4
$ RUN
! 99
TOLD",
];

const RUN: &str = "run h --workers N --map
< put 5 6162
< get 5
< del 5
< get 5
% 0";

/// All keys are of one shard, so its map is the same by any number of workers.
const TOLD: &str = "> ok
> 6162
> ok
> none
> run closed
> heap 4 clean
> held 1024 1
> used 2 free 1 fresh 2
> sb 0 class 12 held 0
> sb 1 free";

/// The run by one worker, two or eight.
const RUN_BY_ONE: [(&str, &str); 3] = [("RUN", RUN), ("TOLD", TOLD), ("N", "1")];

const RUN_BY_TWO: [(&str, &str); 3] = [("RUN", RUN), ("TOLD", TOLD), ("N", "2")];

const RUN_BY_EIGHT: [(&str, &str); 3] = [("RUN", RUN), ("TOLD", TOLD), ("N", "8")];

/// The store that such a session leaves.
fn left_by(
    rt: &(impl Abort + AllocGlobal + Threads + Wait + Sync),
    session: &str,
    pairs: &[(&str, &str)],
) -> Result<MapStore, Fail> {
    played(rt, &replaced(rt.alloc(), session, pairs)?)
}

/// Plays a session, which leaves this image.
fn leaves(
    rt: &(impl Abort + AllocGlobal + Threads + Wait + Sync),
    session: &str,
    pairs: &[(&str, &str)],
    image: &[u8],
) -> Result<(), Fail> {
    let images = left_by(rt, session, pairs)?;
    must_hold(rt, image_in(&images) == image, session);
    Ok(())
}

/// Plays the sessions, which leave the same image.
fn leave_the_same(
    rt: &(impl Abort + AllocGlobal + Threads + Wait + Sync),
    pairs: &[(&str, &str)],
) -> Result<(), Fail> {
    let images = left_by(rt, LEAVE_NEW[0], pairs)?;
    for session in &LEAVE_NEW {
        leaves(rt, session, pairs, image_in(&images))?;
    }
    Ok(())
}

/// A failing store is told, and has the old bytes, which are three here, or the new ones.
const STORE_FAILURES: &str = "
@ 1; 3
! 1
$ show h
= 4
> read fault
~ 3
@ 1; 3
! 1
$ drain h 4
= 4
> read fault
~ 3
@ 1; 3
! 1
$ format h 1
= 5
> write fault
~ 3
@+ 1; 3
!+ 1
$ format h 1
= 5
> write fault
~ 82304
@+ 1; 3
! 2
$ format h 1
> formatted 1 bytes 82304
~ 82304
";

const TABLES: [Table; 4] = [
    (LEAVE_OLD, &RUN_BY_ONE),
    (LEAVE_OLD, &RUN_BY_TWO),
    (LEAVE_OLD, &RUN_BY_EIGHT),
    (STORE_FAILURES, &[]),
];

#[test]
fn each_call_of_the_outside_fails(rt: HostRuntime) -> Result<(), Fail> {
    plays(&rt, &TABLES)?;
    leave_the_same(&rt, &RUN_BY_ONE)?;
    leave_the_same(&rt, &RUN_BY_TWO)?;
    leave_the_same(&rt, &RUN_BY_EIGHT)
}
