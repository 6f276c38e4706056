//! Recovery made in place, stopped at each step, and begun again on what a stop left.
use crate::harness::{make_numbered, must_hold};
use crate::session::{Table, play, plays, store_of};
use std::process::Abort;
use std::sync::Wait;
use std::test::Fail;
use std::thread::Threads;
use tool_ports::MapStore;

/// An image whose superblock 0 of two has blocks of 64 bytes, to the first of which root 8 points.
const ONE_BLOCK: &str = "2: used 1, info:0 4, root:8 @1080";

/// A recovery that is done, behind one that was stopped or not.
const AGAIN: &str = "
$ rebuild h
> rebuild done
> heap 2 dirty
> held 64 1
";

/// A recovery that is to stop at step N, by both chances, and its two ends.
const STOPS: [&str; 2] = ["rebuild h --stop N", "rebuild h --stop N\n% 0"];

const DONE: &str = "rebuild done\nheap 2 dirty\nheld 64 1\n";

const STOPPED: &str = "rebuild stopped\nheap 2 dirty\nheld 64 1\n";

/// Stops a recovery, and answers whether there was no stop.
fn stop_recovery(
    rt: &(impl Abort + AllocGlobal + Threads + Wait + Sync),
    images: &mut MapStore,
    stop: &str,
    budget: u64,
) -> Result<bool, Fail> {
    let ended = make_numbered(rt, images, stop, budget)?;
    let is_done = ended.text() == DONE;
    must_hold(
        rt,
        ended.status == 0 && (is_done || ended.text() == STOPPED),
        stop,
    );
    Ok(is_done)
}

/// Stops a recovery, recovers what is left, and answers whether there was no stop.
fn stop_at(
    rt: &(impl Abort + AllocGlobal + Threads + Wait + Sync),
    stop: &str,
    budget: u64,
) -> Result<bool, Fail> {
    let mut images = store_of(rt.alloc(), ONE_BLOCK)?;
    let is_done = stop_recovery(rt, &mut images, stop, budget)?;
    play(rt, &mut images, AGAIN)?;
    Ok(is_done)
}

/// Stops a recovery at each early step and at a few later ones until it is done, and recovers what
/// each stop left. (The crate slow_tests takes every step.)
fn goes_on_from(
    rt: &(impl Abort + AllocGlobal + Threads + Wait + Sync),
    stop: &str,
) -> Result<(), Fail> {
    for budget in (0..4).chain((4..100_000).step_by(683)) {
        if stop_at(rt, stop, budget)? {
            must_hold(rt, 1 < budget, "it takes steps");
            return Ok(());
        }
    }
    Err("it is never done".into())
}

/// Does so by both chances.
fn goes_on_from_stops(rt: &(impl Abort + AllocGlobal + Threads + Wait + Sync)) -> Result<(), Fail> {
    for stop in &STOPS {
        goes_on_from(rt, stop)?;
    }
    Ok(())
}

/// What recovery refuses is left as it is.
const REFUSED: &str = "
@ 2: used 1, info:0 4, root:8 @1080, state 0
$ rebuild h
= 7
> bad header state
$ rebuild none
= 6
> no image none
$ rebuild h --stop -1
= 2
> usage
$ rebuild h --map
= 2
> usage
@ 2: used 1, info:0 4, root:8 1
$ rebuild h
= 8
> pointer outside at 48 value 0000000000000001
$ rebuild none
= 6
> no image none
$ rebuild h --stop -1
= 2
> usage
$ rebuild h --map
= 2
> usage
";

/// A failed get and a failed put, which leaves the old image or the new one. The store's call 0 put
/// the image there, 1 gets it, and 2 puts what is left.
const FAILURES: &str = "
@ 2: used 1, info:0 4, root:8 @1080
! 1
$ rebuild h
= 4
> read fault
@ 2: used 1, info:0 4, root:8 @1080
! 2
$ rebuild h
= 5
> write fault
@+ 2: used 1, info:0 4, root:8 @1080
!+ 2
$ rebuild h
= 5
> write fault
";

/// A stop leaves what is durable, and not what was stored: where nothing is written back early, no
/// block is linked behind any number of stores. Where each word is, the first ones are.
const KEPT: &str = "
@+ 2: used 1, info:0 4, root:8 @1080
$ rebuild h --stop 1000
% 0
> rebuild stopped
> heap 2 dirty
> held 64 1
& 1080 8192 0
$ rebuild h
> rebuild done
> heap 2 dirty
> held 64 1
& 1088 1 1096
@+ 2: used 1, info:0 4, root:8 @1080
$ rebuild h --stop 1000
% 1
> rebuild stopped
> heap 2 dirty
> held 64 1
& 1088 1 1096
";

const TABLES: [Table; 3] = [(REFUSED, &[]), (FAILURES, &[]), (KEPT, &[])];

#[test]
fn recovery_in_place_is_gone_on_with(rt: HostRuntime) -> Result<(), Fail> {
    goes_on_from_stops(&rt)?;
    plays(&rt, &TABLES)
}
