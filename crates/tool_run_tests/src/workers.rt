//! Runs by several workers: what is told whatever their steps come to.
use crate::session::{Table, plays};
use std::test::Fail;

/// Requests to all shards, with so many workers in place of N. Only the map tells how many there
/// were.
const EVERY_SHARD: &str = "
$ format h 16
> formatted 16 bytes 1066304
$ run h --workers N
< put 0 aa
< put 1 bb
< put 2 -
< put 3 0102030405060708
< put 4 dd
< put 5 ee
< put 6 ff
< put 7 00
< get 0
< get 8
< put 8 cc
< put 0 abcd
< del 1
< get 1
< get 8
< put 1 11
<
> ok
> ok
> ok
> ok
> ok
> ok
> ok
> ok
> aa
> none
> ok
> ok
> ok
> none
> cc
> ok
> run closed
> heap 16 clean
> key 0 abcd
> key 1 11
> key 2 -
> key 3 0102030405060708
> key 4 dd
> key 5 ee
> key 6 ff
> key 7 00
> key 8 cc
> held 32 9
> held 1024 8
$ run h --workers N --sum
< del 0
< put 3 -
< get 7
< del 9
<
> requests 4 ok 2 none 1 value 1 full 0 unanswered 0
> run closed
> heap 16 clean
> keys 8 bytes 6
> held 32 8
> held 1024 8
$ run h --workers N --stop 0
< put 1 12
< get 8
<
> unanswered
> unanswered
> run stopped
> heap 16 dirty
> key 1 11
> key 2 -
> key 3 -
> key 4 dd
> key 5 ee
> key 6 ff
> key 7 00
> key 8 cc
> held 32 8
> held 1024 8
";

/// Requests to one shard: they are one worker's, and the others have none.
const ONE_SHARD: &str = "
$ format h 9
> formatted 9 bytes 607104
$ run h --workers N
< put 3 aa
< get 3
< put 11 bb
< del 3
< get 3
< put 19 cc
< get 11
> ok
> aa
> ok
> ok
> none
> ok
> bb
> run closed
> heap 9 clean
> key 11 bb
> key 19 cc
> held 32 2
> held 1024 1
";

/// One worker, two or eight, in place of N.
pub const BY_ONE: [(&str, &str); 1] = [("N", "1")];

pub const BY_TWO: [(&str, &str); 1] = [("N", "2")];

pub const BY_EIGHT: [(&str, &str); 1] = [("N", "8")];

/// A put that finds no room, a deletion, and the same put, by one of two workers; and the same with
/// a deletion by the other worker, in a run of its own.
const ROOM_AGAIN: &str = "
$ format h 2
> formatted 2 bytes 147904
$ run h --workers 1 --sum
<0 0 14312
<0 1 14312
<0 8 14312
<0 9 14312
<
> requests 4 ok 4 none 0 value 0 full 0 unanswered 0
> run closed
> heap 2 clean
> keys 4 bytes 57248
> held 1024 2
> held 14336 4
$ run h --workers 2 --sum
< get 3
<0 16 14312
< del 0
<0 16 14312
<
> requests 4 ok 2 none 1 value 0 full 1 unanswered 0
> run closed
> heap 2 clean
> keys 4 bytes 57248
> held 1024 2
> held 14336 4
$ run h --workers 2 --sum
<0 0 14312
<
> requests 1 ok 0 none 0 value 0 full 1 unanswered 0
> run closed
> heap 2 clean
> keys 4 bytes 57248
> held 1024 2
> held 14336 4
$ run h --workers 2 --sum
< del 1
< get 4
<
> requests 2 ok 1 none 1 value 0 full 0 unanswered 0
> run closed
> heap 2 clean
> keys 3 bytes 42936
> held 1024 2
> held 14336 3
$ run h --workers 2 --sum
<0 0 14312
<
> requests 1 ok 1 none 0 value 0 full 0 unanswered 0
> run closed
> heap 2 clean
> keys 4 bytes 57248
> held 1024 2
> held 14336 4
";

/// Runs by several numbers of workers over one heap. What a stopped one was asked for is asked once
/// more by the next.
const CHAIN: &str = "
$ format h 24
> formatted 24 bytes 1591104
$ run h --workers 1
< put 0 aa
< put 1 bb
< put 2 cc
< put 11 dd
< put 20 ee
>* run closed
$ run h --workers 8 --stop 3000
< put 0 -
< del 1
< put 3 0102
< put 4 ff
< put 14 03
< del 20
< put 7 04
< put 9 05
>* run stopped
$ run h --workers 2
< put 0 -
< del 1
< put 3 0102
< put 4 ff
< put 14 03
< del 20
< put 7 04
< put 9 05
< put 12 06
>* run closed
$ run h --workers 4 --stop 3000
< del 2
< put 1 07
< put 3 -
< put 12 08
< del 7
< put 18446744073709551615 09
>* run stopped
$ run h --workers 3
< del 2
< put 1 07
< put 3 -
< put 12 08
< del 7
< put 18446744073709551615 09
< del 11
< put 8 0a
>* run closed
$ show h
> heap 24 clean
> key 0 -
> key 1 07
> key 3 -
> key 4 ff
> key 8 0a
> key 9 05
> key 12 08
> key 14 03
> key 18446744073709551615 09
> held 32 9
> held 1024 7
";

const TABLES: [Table; 8] = [
    (EVERY_SHARD, &BY_ONE),
    (EVERY_SHARD, &BY_TWO),
    (EVERY_SHARD, &BY_EIGHT),
    (ONE_SHARD, &BY_ONE),
    (ONE_SHARD, &BY_TWO),
    (ONE_SHARD, &BY_EIGHT),
    (ROOM_AGAIN, &[]),
    (CHAIN, &[]),
];

#[test]
fn any_number_of_workers_answers_the_same(rt: HostRuntime) -> Result<(), Fail> {
    plays(&rt, &TABLES)
}
