//! Traces whose moves bring values to other keys, by each number of workers in place of N. What is
//! moved is out at once, and arrives once all requests are answered, in the order of the trace.
use crate::harness::numbered;
use crate::session::{play, played, show_of};
use std::process::Abort;
use std::sync::Wait;
use std::test::Fail;
use std::thread::Threads;

/// To another shard, to the key itself, to a key of the same bucket, and of keys that are missing:
/// their moves make tables all the same.
const ALONE: &str = "+ 4
$ run h --workers N
< put 0 6162
< move 0 9
< get 0
< get 9
> ok
> ok
> none
> none
> run closed
> heap 4 clean
> key 9 6162
> held 32 1
> held 1024 2
@+ 4
$ run h --workers N
< put 3 aa
< move 3 3
< get 3
< del 3
> ok
> ok
> none
> none
> run closed
> heap 4 clean
> key 3 aa
> held 32 1
> held 1024 1
@+ 4
$ run h --workers N
< put 0 aa
< move 0 1024
< put 8 bb
> ok
> ok
> ok
> run closed
> heap 4 clean
> key 8 bb
> key 1024 aa
> held 32 2
> held 1024 1
@+ 4
$ run h --workers N
< move 0 9
< move 9 0
> none
> none
> run closed
> heap 4 clean
> held 1024 2
";

/// A node that the other key had is freed.
const ONTO_A_KEY: &str = "+ 8
$ run h --workers N
< put 0 aa
< put 1 010203040506070809
< move 0 1
< get 1
> ok
> ok
> ok
> 010203040506070809
> run closed
> heap 8 clean
> key 1 aa
> held 32 1
> held 1024 2
@+ 8
$ run h --workers N
< put 0 aa
< move 0 1
< put 1 bb
< del 1
< put 1 010203040506070809
> ok
> ok
> ok
> ok
> ok
> run closed
> heap 8 clean
> key 1 aa
> held 32 1
> held 1024 2
";

/// Of several moves to one key that of the later request wins, whoever sends it.
const TO_ONE_KEY: &str = "+ 8
$ run h --workers N
< put 0 aa
< put 1 bb
< move 1 2
< move 0 2
> ok
> ok
> ok
> ok
> run closed
> heap 8 clean
> key 2 aa
> held 32 1
> held 1024 3
@+ 8
$ run h --workers N
< put 0 aa
< put 1 bb
< move 0 2
< move 1 2
> ok
> ok
> ok
> ok
> run closed
> heap 8 clean
> key 2 bb
> held 32 1
> held 1024 3
@+ 8
$ run h --workers N
< put 0 aa
< move 0 1
< put 0 bb
< move 0 1
> ok
> ok
> ok
> ok
> run closed
> heap 8 clean
> key 1 bb
> held 32 1
> held 1024 2
";

/// A move of what is still to arrive finds no key. It finds the value that was there before.
const CHAIN: &str = "+ 8
$ run h --workers N
< put 0 aa
< move 0 1
< move 1 2
> ok
> ok
> none
> run closed
> heap 8 clean
> key 1 aa
> held 32 1
> held 1024 3
$ run h --workers N
< put 0 bb
< move 0 1
< move 1 2
< get 1
< get 2
> ok
> ok
> ok
> none
> none
> run closed
> heap 8 clean
> key 1 bb
> key 2 aa
> held 32 2
> held 1024 3
";

/// The empty value, one in a block of its own, and the last key.
const EACH_LENGTH: &str = "+ 8
$ run h --workers N --sum
<0 0 65513
< put 2 -
< move 0 9
< move 2 18446744073709551615
<
> requests 4 ok 4 none 0 value 0 full 0 unanswered 0
> run closed
> heap 8 clean
> keys 2 bytes 65513
> held 32 1
> held 1024 4
> held large 2 1
$ run h --workers N
< get 18446744073709551615
< del 9
> -
> ok
> run closed
> heap 8 clean
> key 18446744073709551615 -
> held 32 1
> held 1024 4
";

/// Each value goes on by one shard, all at once.
const RING: &str = "+ 4
$ run h --workers 1
< put 0 a0
< put 1 a1
< put 2 a2
< put 3 a3
< put 4 a4
< put 5 a5
< put 6 a6
< put 7 a7
>* run closed
$ run h --workers N
< move 0 1
< move 1 2
< move 2 3
< move 3 4
< move 4 5
< move 5 6
< move 6 7
< move 7 0
> ok
> ok
> ok
> ok
> ok
> ok
> ok
> ok
> run closed
> heap 4 clean
> key 0 a7
> key 1 a0
> key 2 a1
> key 3 a2
> key 4 a3
> key 5 a4
> key 6 a5
> key 7 a6
> held 32 8
> held 1024 8
";

/// Plays a session, and shows what it leaves.
fn play_and_show(
    rt: &(impl Abort + AllocGlobal + Threads + Wait + Sync),
    session: &str,
) -> Result<(), Fail> {
    let mut images = played(rt, session)?;
    play(rt, &mut images, &show_of(rt.alloc(), session)?)
}

/// Plays the sessions of the text by so many workers.
fn play_by(
    rt: &(impl Abort + AllocGlobal + Threads + Wait + Sync),
    text: &str,
    workers: u64,
) -> Result<(), Fail> {
    for session in numbered(rt.alloc(), text, workers)?.split("\n@") {
        play_and_show(rt, session)?;
    }
    Ok(())
}

/// One worker, two, and one for each shard; and each number.
const SOME: [u64; 3] = [1, 2, 8];

const EACH: [u64; 8] = [1, 2, 3, 4, 5, 6, 7, 8];

/// Plays them by each of these numbers of workers.
fn play_by_each(
    rt: &(impl Abort + AllocGlobal + Threads + Wait + Sync),
    text: &str,
    numbers: &[u64],
) -> Result<(), Fail> {
    for workers in numbers {
        play_by(rt, text, *workers)?;
    }
    Ok(())
}

#[test]
fn what_is_moved_arrives_behind_all_requests(rt: HostRuntime) -> Result<(), Fail> {
    for text in [ALONE, RING] {
        play_by_each(&rt, text, &EACH)?;
    }
    for text in [ONTO_A_KEY, TO_ONE_KEY, CHAIN, EACH_LENGTH] {
        play_by_each(&rt, text, &SOME)?;
    }
    Ok(())
}
