//! Images that are counted: opened by their own anchors where these tell what is held, and else
//! recovered.
use crate::session::{Table, plays};
use crate::workers::{BY_EIGHT, BY_ONE, BY_TWO};
use std::test::Fail;

/// What a run left, and what `format` put; a dirty image is recovered.
const LEFT: &str = "
$ format h 4
> formatted 4 bytes 279104
$ run h --workers 1
< put 5 6162
< get 5
< del 5
< get 5
> ok
> 6162
> ok
> none
> run closed
> heap 4 clean
> held 1024 1
$ count h --map
> quick
> heap 4 clean
> held 1024 1
> used 2 free 1 fresh 2
> sb 0 class 12 held 0
> sb 1 free
~ 279104
$ run h --workers 1 --stop 0
< put 5 6162
> unanswered
> run stopped
> heap 4 dirty
> held 1024 1
$ count h --map
> traced
> heap 4 dirty
> held 1024 1
> used 2 free 1 fresh 2
> sb 0 class 12 held 0
> sb 1 free
$ rebuild h
> rebuild done
> heap 4 dirty
> held 1024 1
$ count h
> traced
> heap 4 dirty
> held 1024 1
$ run h --workers 2
< get 5
> none
> run closed
> heap 4 clean
> held 1024 1
$ count --map -- h
> quick
> heap 4 clean
> held 1024 1
> used 2 free 1 fresh 2
> sb 0 class 12 held 0
> sb 1 free
$ format h 1
> formatted 1 bytes 82304
$ count h
> quick
> heap 1 clean
";

/// Runs with so many workers in place of N: values replaced and deleted, large ones held and freed,
/// with a seed and a step that no run comes to.
const CLOSED: &str = "
$ format h 24
> formatted 24 bytes 1591104
$ run h --workers N
< put 0 aa
< put 1 bb
< put 2 -
< put 3 0102030405060708
< put 4 dd
< put 5 ee
< put 6 ff
< put 7 00
< del 2
<0 8 14400
<0 9 100
< put 10 aabb
< del 9
< del 8
> ok
> ok
> ok
> ok
> ok
> ok
> ok
> ok
> ok
> ok
> ok
> ok
> ok
> ok
> run closed
> heap 24 clean
> key 0 aa
> key 1 bb
> key 3 0102030405060708
> key 4 dd
> key 5 ee
> key 6 ff
> key 7 00
> key 10 aabb
> held 32 8
> held 1024 8
$ show h
> heap 24 clean
> key 0 aa
> key 1 bb
> key 3 0102030405060708
> key 4 dd
> key 5 ee
> key 6 ff
> key 7 00
> key 10 aabb
> held 32 8
> held 1024 8
$ count h
> quick
> heap 24 clean
> held 32 8
> held 1024 8
$ run h --workers N --seed 7 --stop 1099511627775 --sum
<0 16 14400
< del 0
< put 1 1234
< get 3
<0 24 65600
> requests 5 ok 4 none 0 value 1 full 0 unanswered 0
> run closed
> heap 24 clean
> keys 9 bytes 80016
> held 32 7
> held 1024 8
> held large 1 1
> held large 2 1
$ count h
> quick
> heap 24 clean
> held 32 7
> held 1024 8
> held large 1 1
> held large 2 1
";

/// A put that finds no room.
const FULL: &str = "
$ format h 2
> formatted 2 bytes 147904
$ run h --workers 1 --sum
<0 0 14312
<0 1 14312
<0 8 14312
<0 9 14312
> requests 4 ok 4 none 0 value 0 full 0 unanswered 0
> run closed
> heap 2 clean
> keys 4 bytes 57248
> held 1024 2
> held 14336 4
$ run h --workers N --sum
<0 16 14312
> requests 1 ok 0 none 0 value 0 full 1 unanswered 0
> run closed
> heap 2 clean
> keys 4 bytes 57248
> held 1024 2
> held 14336 4
$ count h --map
> quick
> heap 2 clean
> held 1024 2
> held 14336 4
> used 2 free 0 fresh 0
> sb 0 class 12 held 0-1
> sb 1 class 20 held 0-3
";

/// Images of version 1 stay as they are.
const OLD: &str = "
@ table: 1 1, anchor:0 2; 139712
$ count h
> quick
> heap 2 clean
> held 1024 64
~ 139712
@ table: 1 1, anchor:0 3; 139712
$ count h
> traced
> heap 2 clean
> held 32 1
> held 1024 1
~ 139712
";

const TABLES: [Table; 8] = [
    (LEFT, &[]),
    (CLOSED, &BY_ONE),
    (CLOSED, &BY_TWO),
    (CLOSED, &BY_EIGHT),
    (FULL, &BY_ONE),
    (FULL, &BY_TWO),
    (FULL, &BY_EIGHT),
    (OLD, &[]),
];

#[test]
fn images_are_counted(rt: HostRuntime) -> Result<(), Fail> {
    plays(&rt, &TABLES)
}
