//! Traces that fill superblocks, worked off with so many workers in place of N: long values, blocks
//! that serve again once they are freed, and traces that `gen` makes.
use crate::session::{Table, plays};
use crate::workers::{BY_EIGHT, BY_ONE, BY_TWO};
use std::test::Fail;

/// Long values take blocks of their own.
const LONG: &str = "
$ format h 4
> formatted 4 bytes 279104
$ run h --workers N --sum --map
<0 1 65513
<
> requests 1 ok 1 none 0 value 0 full 0 unanswered 0
> run closed
> heap 4 clean
> keys 1 bytes 65513
> held 1024 1
> held large 2 1
> used 3 free 0 fresh 1
> sb 0 class 12 held 0
> sb 1 large 2
> sb 2 inside 1
$ format h 4
> formatted 4 bytes 279104
$ run h --workers N --sum --map
<0 1 65513
< del 1
<0 1 131072
<
> requests 3 ok 2 none 0 value 0 full 1 unanswered 0
> run closed
> heap 4 clean
> keys 0 bytes 0
> held 1024 1
> used 3 free 2 fresh 1
> sb 0 class 12 held 0
> sb 1 free
> sb 2 free
";

/// Freed superblocks serve other classes.
const OTHER_CLASS: &str = "
$ format h 2
> formatted 2 bytes 147904
$ run h --workers N --map
<0 0 14312
<0 8 14312
<0 16 14312
<0 24 14312
< del 0
< del 8
< del 16
< del 24
< put 0 ab
<
> ok
> ok
> ok
> ok
> ok
> ok
> ok
> ok
> ok
> run closed
> heap 2 clean
> key 0 ab
> held 32 1
> held 1024 1
> used 2 free 0 fresh 0
> sb 0 class 12 held 0
> sb 1 class 2 held 0
";

/// A block that was freed serves a value that had no room.
const FIFTH_REFUSED: &str = "
$ format h 2
> formatted 2 bytes 147904
$ run h --workers N --sum
<0 0 14312
<0 8 14312
<0 16 14312
<0 24 14312
<0 32 14312
< del 0
<0 32 14312
<
> requests 7 ok 6 none 0 value 0 full 1 unanswered 0
> run closed
> heap 2 clean
> keys 4 bytes 57248
> held 1024 1
> held 14336 4
";

/// Its puts are to two shards, whose workers find room for a table and a node each in four
/// superblocks, whichever comes first.
const GENERATED: &str = "
$ gen 4 0
> put 0 -
> put 2531 3738393a3b3c3d3e3f404142434445464748494a4b4c4d4e
> get 966
> del 3498
$ gen 0 7
$ gen 0 1000000
$ gen 1 0
! 0
= 5
> write fault
$ gen 100001 0
= 2
> usage
$ gen 1 1000001
= 2
> usage
$ gen 1
= 2
> usage
$ format h 4
> formatted 4 bytes 279104
$ run h --workers N --sum
< put 0 -
< put 2531 3738393a3b3c3d3e3f404142434445464748494a4b4c4d4e
< get 966
< del 3498
<
> requests 4 ok 2 none 2 value 0 full 0 unanswered 0
> run closed
> heap 4 clean
> keys 2 bytes 24
> held 32 1
> held 48 1
> held 1024 2
$ format h 8
> formatted 8 bytes 541504
";

/// A made trace is run. Its map is told of one worker alone: of several each takes superblocks of
/// its own, as they come.
const EIGHT: &str = "
$ gen 8 1
> put 61 d1d2d3d4d5d6d7d8d9dadbdcdddedfe0e1e2e3e4e5e6e7e8e9eaebecedeeeff0f1f2f3f4f5f6f7f8f9fafbfc\
    fdfeff000102030405060708090a0b0c
> put 2592 08090a0b0c0d0e0f101112131415161718191a1b1c1d1e1f202122232425262728292a2b2c2d2e2f303132\
    333435363738393a3b3c3d3e3f404142434445464748494a4b4c4d4e4f505152535455565758595a5b
> get 1027
> del 3559
> put 1994 adaeafb0b1b2b3b4b5b6b7b8b9babbbcbdbebfc0c1c2c3c4c5c6c7c8c9cacbcccdcecfd0d1d2d3d4d5d6d7\
    d8d9dadbdcdddedfe0e1e2e3e4e5e6e7e8e9eaebecedeeeff0f1f2f3f4f5f6f7f8f9fafbfcfdfeff00
> put 430 e4e5e6e7e8e9eaebecedeeeff0f1f2f3f4f5f6f7f8f9fafbfcfdfeff000102030405060708090a0b0c0d0e0f\
    101112131415161718191a1b1c1d1e1f202122232425262728292a2b
> get 2961
> del 1397
$ format h 8
> formatted 8 bytes 541504
$ run h --workers 1 --sum --map
TRACE
TOLD
> used 3 free 0 fresh 5
> sb 0 class 12 held 0-3
> sb 1 class 5 held 0-1
> sb 2 class 6 held 0-1
$ format h 8
> formatted 8 bytes 541504
$ run h --workers 2 --sum
TRACE
TOLD
$ format h 8
> formatted 8 bytes 541504
$ run h --workers 8 --sum
TRACE
TOLD
";

const MADE: [(&str, &str); 2] = [
    (
        "TRACE",
        "< put 61 d1d2d3d4d5d6d7d8d9dadbdcdddedfe0e1e2e3e4e5e6e7e8e9eaebecedeeeff0f1f2f3f4f5f6f7f8\
            f9fafbfcfdfeff000102030405060708090a0b0c
< put 2592 08090a0b0c0d0e0f101112131415161718191a1b1c1d1e1f202122232425262728292a2b2c2d2e2f303132\
    333435363738393a3b3c3d3e3f404142434445464748494a4b4c4d4e4f505152535455565758595a5b
< get 1027
< del 3559
< put 1994 adaeafb0b1b2b3b4b5b6b7b8b9babbbcbdbebfc0c1c2c3c4c5c6c7c8c9cacbcccdcecfd0d1d2d3d4d5d6d7\
    d8d9dadbdcdddedfe0e1e2e3e4e5e6e7e8e9eaebecedeeeff0f1f2f3f4f5f6f7f8f9fafbfcfdfeff00
< put 430 e4e5e6e7e8e9eaebecedeeeff0f1f2f3f4f5f6f7f8f9fafbfcfdfeff000102030405060708090a0b0c0d0e0f\
    101112131415161718191a1b1c1d1e1f202122232425262728292a2b
< get 2961
< del 1397
<",
    ),
    (
        "TOLD",
        "> requests 8 ok 4 none 4 value 0 full 0 unanswered 0
> run closed
> heap 8 clean
> keys 4 bytes 300
> held 96 2
> held 128 2
> held 1024 4",
    ),
];

const TABLES: [Table; 13] = [
    (LONG, &BY_ONE),
    (LONG, &BY_TWO),
    (LONG, &BY_EIGHT),
    (OTHER_CLASS, &BY_ONE),
    (OTHER_CLASS, &BY_TWO),
    (OTHER_CLASS, &BY_EIGHT),
    (FIFTH_REFUSED, &BY_ONE),
    (FIFTH_REFUSED, &BY_TWO),
    (FIFTH_REFUSED, &BY_EIGHT),
    (GENERATED, &BY_ONE),
    (GENERATED, &BY_TWO),
    (GENERATED, &BY_EIGHT),
    (EIGHT, &MADE),
];

#[test]
fn values_fill_superblocks_and_made_traces_are_run(rt: HostRuntime) -> Result<(), Fail> {
    plays(&rt, &TABLES)
}
