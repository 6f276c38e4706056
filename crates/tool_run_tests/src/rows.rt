//! Traces worked off to their end, with so many workers in place of N: the replies, the report, and
//! the image that is left. A map is told where all keys are of one shard: its worker alone takes
//! superblocks, and the others take no step.
use crate::session::{Table, plays};
use crate::workers::{BY_EIGHT, BY_ONE, BY_TWO};
use std::test::Fail;

const ANSWERED: &str = "
$ format h 4
> formatted 4 bytes 279104
$ run h --workers N --map
< put 5 6162
< get 5
< del 5
< get 5
> ok
> 6162
> ok
> none
> run closed
> heap 4 clean
> held 1024 1
> used 2 free 1 fresh 2
> sb 0 class 12 held 0
> sb 1 free
$ format h 4
> formatted 4 bytes 279104
$ run --map h --stop 32768 --workers=N
< put 5 6162
< get 5
< del 5
< get 5
> ok
> 6162
> ok
> none
> run closed
> heap 4 clean
> held 1024 1
> used 2 free 1 fresh 2
> sb 0 class 12 held 0
> sb 1 free
$ format h 1
> formatted 1 bytes 82304
$ run h --workers N
< put 1 0102030405060708
> full
> run closed
> heap 1 clean
> held 1024 1
$ run h --workers N
> run closed
> heap 1 clean
> held 1024 1
$ format h 1
> formatted 1 bytes 82304
$ run h --workers N
< put 1 aa
< get 1
< put 5 abc
<
= 10
> bad trace line 3
$ run h --workers N
> run closed
> heap 1 clean
$ run h --workers 9
= 2
> usage
$ run h --workers 0
= 2
> usage
$ show none.img
= 6
> no image none.img
";

/// The last call shows that those before it left the heap as it was stopped.
const REFUSED: &str = "
$ format h 4
> formatted 4 bytes 279104
$ run h --workers N --map
< put 5 6162
< get 5
< del 5
< get 5
> ok
> 6162
> ok
> none
> run closed
> heap 4 clean
> held 1024 1
> used 2 free 1 fresh 2
> sb 0 class 12 held 0
> sb 1 free
$ run --sum h --workers=N --seed 18446744073709551615
< put 5 6162
<
> requests 1 ok 1 none 0 value 0 full 0 unanswered 0
> run closed
> heap 4 clean
> keys 1 bytes 2
> held 32 1
> held 1024 1
$ run h --workers N --stop 0
< del 5
<
> unanswered
> run stopped
> heap 4 dirty
> key 5 6162
> held 32 1
> held 1024 1
$ run h --workers N
< put 1 aa
< get 1
< put 5 abc
= 10
> bad trace line 3
$ run none --workers N
< put
= 6
> no image none
$ run h --workers 0
= 2
> usage
$ run h --workers N --workers N
= 2
> usage
$ run h --workers N --stop 1099511627776
= 2
> usage
$ show h
> heap 4 dirty
> key 5 6162
> held 32 1
> held 1024 1
";

/// A stopped run is gone on with.
const GONE_ON_WITH: &str = "
$ format h 4
> formatted 4 bytes 279104
$ run h --workers N
< put 5 6162
> ok
> run closed
> heap 4 clean
> key 5 6162
> held 32 1
> held 1024 1
$ run h --workers N --stop 0
< del 5
> unanswered
> run stopped
> heap 4 dirty
> key 5 6162
> held 32 1
> held 1024 1
$ run h --workers N
< del 5
> ok
> run closed
> heap 4 clean
> held 1024 1
";

/// Keys at the end stand in the last bucket: the last root leads to a table, and its last bucket to
/// a node.
const LAST_BUCKET: &str = "
$ format h 2
> formatted 2 bytes 147904
$ run h --workers N
< put 18446744073709551615 -
< get 18446744073709551615
<
> ok
> -
> run closed
> heap 2 clean
> key 18446744073709551615 -
> held 32 1
> held 1024 1
& root:7 1 @1080
& 1207 1 @9272
";

/// The last word of a value is filled up with zeros, also where another value stood in its block.
const FILLED_UP: &str = "
$ format h 2
> formatted 2 bytes 147904
$ run h --workers 1
< put 7 ffffffffffffffffffffffffffffffff
< del 7
< put 7 aabbccddeeff112233
> ok
> ok
> ok
> run closed
> heap 2 clean
> key 7 aabbccddeeff112233
> held 48 1
> held 1024 1
& 9273 1 7
& 9274 1 9
& 9275 1 2455024673282112426
& 9276 1 51
";

const TABLES: [Table; 13] = [
    (ANSWERED, &BY_ONE),
    (ANSWERED, &BY_TWO),
    (ANSWERED, &BY_EIGHT),
    (REFUSED, &BY_ONE),
    (REFUSED, &BY_TWO),
    (REFUSED, &BY_EIGHT),
    (GONE_ON_WITH, &BY_ONE),
    (GONE_ON_WITH, &BY_TWO),
    (GONE_ON_WITH, &BY_EIGHT),
    (LAST_BUCKET, &BY_ONE),
    (LAST_BUCKET, &BY_TWO),
    (LAST_BUCKET, &BY_EIGHT),
    (FILLED_UP, &[]),
];

#[test]
fn requests_are_answered_and_the_heap_is_told(rt: HostRuntime) -> Result<(), Fail> {
    plays(&rt, &TABLES)
}
