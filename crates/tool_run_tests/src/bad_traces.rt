//! Runs that name a damaged image, or whose trace is outside the grammar, with so many workers in
//! place of N.
use crate::session::{Table, plays};
use crate::workers::{BY_EIGHT, BY_ONE, BY_TWO};
use std::test::Fail;

/// Each trace has a line outside the grammar. (The crate dictionary_tests has more of them.)
const BAD_TRACES: &str = "
@ 1
$ run h --workers N
< get 1
<
< get 2
= 10
> bad trace line 2
$ run h --workers N
< get 1
< get  2
= 10
> bad trace line 2
$ run h --workers N
< get 1\x20
= 10
> bad trace line 1
$ run h --workers N
<  get 1
= 10
> bad trace line 1
$ run h --workers N
< get 1\r
= 10
> bad trace line 1
$ run h --workers N
< get\t1
= 10
> bad trace line 1
$ run h --workers N
< Get 1
= 10
> bad trace line 1
$ run h --workers N
< get
= 10
> bad trace line 1
$ run h --workers N
< get 1 2
= 10
> bad trace line 1
$ run h --workers N
< get 01
= 10
> bad trace line 1
$ run h --workers N
< get +1
= 10
> bad trace line 1
$ run h --workers N
< get -1
= 10
> bad trace line 1
$ run h --workers N
< get 18446744073709551616
= 10
> bad trace line 1
$ run h --workers N
< del x
= 10
> bad trace line 1
$ run h --workers N
< put 1
= 10
> bad trace line 1
$ run h --workers N
< put 1\x20
= 10
> bad trace line 1
$ run h --workers N
< put 1 a
= 10
> bad trace line 1
$ run h --workers N
< put 1 ag
= 10
> bad trace line 1
$ run h --workers N
< put 1 --
= 10
> bad trace line 1
$ run h --workers N
< put 1 aa bb
= 10
> bad trace line 1
$ run h --workers N
< move 1
= 10
> bad trace line 1
$ run h --workers N
< move 1 2 3
= 10
> bad trace line 1
$ run h --workers N
< move  1 2
= 10
> bad trace line 1
$ run h --workers N
< move 01 2
= 10
> bad trace line 1
$ run h --workers N
< move 1 18446744073709551616
= 10
> bad trace line 1
";

/// The last key and the last line are read.
const LAST_KEY: &str = "
$ format h 1
> formatted 1 bytes 82304
$ run h --workers N
< get 18446744073709551615
< put 0 -
< del 1
> none
> full
> none
> run closed
> heap 1 clean
> held 1024 1
";

/// An image is refused before its trace, which is outside the grammar each time.
const BEFORE_ITS_TRACE: &str = "
@ 1; 0
$ run h --workers N
< outside
= 7
> bad header short
@ table: state 0
$ run h --workers N
< outside
= 7
> bad header state
@ table: root:0 1
$ run h --workers N
< outside
= 8
> pointer outside at 40 value 0000000000000001
@ table: 9273 8
$ run h --workers N
< outside
= 9
> bad shard 0 at 1080
@ table
$ run h --workers N
< outside
= 10
> bad trace line 1
$ run none.img --workers N
< outside
= 6
> no image none.img
";

const TABLES: [Table; 9] = [
    (BAD_TRACES, &BY_ONE),
    (BAD_TRACES, &BY_TWO),
    (BAD_TRACES, &BY_EIGHT),
    (LAST_KEY, &BY_ONE),
    (LAST_KEY, &BY_TWO),
    (LAST_KEY, &BY_EIGHT),
    (BEFORE_ITS_TRACE, &BY_ONE),
    (BEFORE_ITS_TRACE, &BY_TWO),
    (BEFORE_ITS_TRACE, &BY_EIGHT),
];

#[test]
fn what_is_refused_is_told(rt: HostRuntime) -> Result<(), Fail> {
    plays(&rt, &TABLES)
}
