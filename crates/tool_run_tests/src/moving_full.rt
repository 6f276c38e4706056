//! Moves to shards that have no table, in heaps with no room for one: the key stays.
use crate::harness::numbered;
use crate::session::{play, played};
use std::alloc::{AllocError, Global};
use std::process::Abort;
use std::sync::Wait;
use std::test::Fail;
use std::thread::Threads;
use tool_ports::MapStore;

/// The table that the move needs is made first, and takes the only superblock: the put has a table
/// there too, and no room for its node.
const ONE_SUPERBLOCK: &str = "+ 1
$ run h --workers 1
< put 0 aa
< move 0 1
> full
> none
> run closed
> heap 1 clean
> held 1024 2
$ show h
> heap 1 clean
> held 1024 2";

/// A heap of one superblock, which is filled by the table of shard 0 and 63 values in blocks of the
/// same size.
const FILLED: &str = "+ 1
$ run h --workers 1 --sum
PUTS
<
> requests 63 ok 63 none 0 value 0 full 0 unanswered 0
> run closed
> heap 1 clean
> keys 63 bytes 63000
> held 1024 64";

/// Shard 0 has its table, and there is none for shard 1. Missing keys are told as such.
const REFUSED: &str = "
$ run h --workers N --sum
< move 0 1
< move 8 8
< move 16 9
< move 2 1
< get 0
< get 8
<
> requests 6 ok 1 none 2 value 1 full 2 unanswered 0
> run closed
> heap 1 clean
> keys 63 bytes 63000
> held 1024 64";

/// Whether there is a table is told before the first request, so one that a put makes comes too
/// late. In the next run it is there.
const MADE_TOO_LATE: &str = "
$ run h --workers 1 --sum
< del 8
< put 1 -
< move 0 1
<
> requests 3 ok 1 none 0 value 0 full 2 unanswered 0
> run closed
> heap 1 clean
> keys 62 bytes 62000
> held 1024 64
$ run h --workers 2 --sum
< move 0 1
< get 0
<
> requests 2 ok 1 none 1 value 0 full 0 unanswered 0
> run closed
> heap 1 clean
> keys 62 bytes 62000
> held 1024 64
$ run h --workers 1 --sum
< get 0
< get 1
<
> requests 2 ok 0 none 1 value 1 full 0 unanswered 0
> run closed
> heap 1 clean
> keys 62 bytes 62000
> held 1024 64";

/// Lines of input that put 1,000 zero bytes under each of 63 keys of shard 0.
fn puts(alloc: Global) -> Result<String, AllocError> {
    let mut lines = String::new(alloc);
    for key in (0..504u64).step_by(8) {
        writeln!(lines, "<0 {key} 1000")?;
    }
    Ok(lines)
}

/// Moves by each number of workers over the heap, which stays as it was; and then by one and two.
fn are_refused(
    rt: &(impl Abort + AllocGlobal + Threads + Wait + Sync),
    images: &mut MapStore,
) -> Result<(), Fail> {
    for workers in 1..9 {
        play(rt, images, &numbered(rt.alloc(), REFUSED, workers)?)?;
    }
    play(rt, images, MADE_TOO_LATE)
}

/// Fills a heap, and moves there.
fn refuses(rt: &(impl Abort + AllocGlobal + Threads + Wait + Sync)) -> Result<(), Fail> {
    let filled = FILLED.replace(rt.alloc(), "PUTS", &puts(rt.alloc())?)?;
    let mut images = played(rt, &filled)?;
    are_refused(rt, &mut images)
}

#[test]
fn a_move_without_a_table_is_refused(rt: HostRuntime) -> Result<(), Fail> {
    played(&rt, ONE_SUPERBLOCK)?;
    refuses(&rt)
}
