//! Images made by hand whose anchors are believed where they tell what is held, whatever roots and
//! links reach.
use crate::session::{Table, plays};
use crate::workers::{BY_ONE, BY_TWO};
use std::test::Fail;

/// Anchors alone are believed, where they tell what is held, and roots and links where they don't.
const BELIEVED: &str = "
@ 1
$ count h
> quick
> heap 1 clean
@ 1: 16 1
$ count h
> traced
> heap 1 clean
# Empty anchors hold nothing, whatever the roots reach.
@ table
$ count h --map
> quick
> heap 2 clean
> used 2 free 2 fresh 0
> sb 0 free
> sb 1 free
@ table: state 2
$ count h --map
> traced
> heap 2 dirty
> held 32 1
> held 1024 1
> used 2 free 0 fresh 0
> sb 0 class 12 held 0
> sb 1 class 2 held 0
@ table: anchor:0 2, anchor:1 2
$ count h --map
> quick
> heap 2 clean
> held 32 2048
> held 1024 64
> used 2 free 0 fresh 0
> sb 0 class 12 held 0-63
> sb 1 class 2 held 0-2047
# Another state of an anchor, and one superblock in the free list that isn't empty.
@ table: anchor:0 3
$ count h
> traced
> heap 2 clean
> held 32 1
> held 1024 1
@ table: anchor:0 2, 16 1
$ count h
> traced
> heap 2 clean
> held 32 1
> held 1024 1
# A chain from block 1 to block 3 of four, one that leads back, and one that is too long.
@ 1: used 1, info:0 20, anchor:0 17179869189, 2864 6448
$ count h --map
> quick
> heap 1 clean
> held 14336 2
> used 1 free 0 fresh 0
> sb 0 class 20 held 0 2
@ 1: used 1, info:0 20, anchor:0 17179869189, 2864 2864
$ count h --map
> traced
> heap 1 clean
> used 1 free 1 fresh 0
> sb 0 free
@ 1: used 1, info:0 20, anchor:0 34359738373, 2864 6448
$ count h
> traced
> heap 1 clean
# A large block, and the same freed: its superblocks are in the free list.
@ 2: used 2, info:0 767
$ count h --map
> quick
> heap 2 clean
> held large 2 1
> used 2 free 0 fresh 0
> sb 0 large 2
> sb 1 inside 0
@ 2: used 2, info:0 767, 16 1, link:0 2
$ count h --map
> quick
> heap 2 clean
> used 2 free 2 fresh 0
> sb 0 free
> sb 1 free
# One of its superblocks alone, and a word of a superblock that has not been taken.
@ 2: used 2, info:0 767, 16 2
$ count h
> traced
> heap 2 clean
@ 2: used 1, info:0 511, link:1 1
$ count h
> traced
> heap 2 clean
";

/// A closed image, made by hand, whose anchors tell of all blocks and are wrong: superblock 0 has
/// no free block, and the chain of superblock 1 runs through block 1, which root 8 reaches, to the
/// node of key 0. A count believes them. A run by N workers looks at the roots: it gives neither
/// block away, and frees what nothing reaches.
const CHAINED: &str = "
@+ table: root:8 @9276, anchor:0 2, anchor:1 17179869189, 9276 9272
$ count h --map
> quick
> heap 2 clean
> held 32 2046
> held 1024 64
> used 2 free 0 fresh 0
> sb 0 class 12 held 0-63
> sb 1 class 2 held 2-2047
$ show h --map
> heap 2 clean
> key 0 -
> held 32 2
> held 1024 1
> used 2 free 0 fresh 0
> sb 0 class 12 held 0
> sb 1 class 2 held 0-1
$ run h --workers N
< get 0
< put 8 bb
< get 0
< get 8
> -
> ok
> -
> bb
> run closed
> heap 2 clean
> key 0 -
> key 8 bb
> held 32 3
> held 1024 1
$ show h --map
> heap 2 clean
> key 0 -
> key 8 bb
> held 32 3
> held 1024 1
> used 2 free 0 fresh 0
> sb 0 class 12 held 0
> sb 1 class 2 held 0-2
$ count h --map
> quick
> heap 2 clean
> held 32 3
> held 1024 1
> used 2 free 0 fresh 0
> sb 0 class 12 held 0
> sb 1 class 2 held 0-2
";

const TABLES: [Table; 3] = [(BELIEVED, &[]), (CHAINED, &BY_ONE), (CHAINED, &BY_TWO)];

#[test]
fn anchors_are_believed(rt: HostRuntime) -> Result<(), Fail> {
    plays(&rt, &TABLES)
}
