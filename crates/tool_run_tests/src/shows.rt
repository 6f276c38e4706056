//! What is told of images: the report, what a class gives, and why there is none.
use crate::session::{Table, plays};
use std::test::Fail;

/// An image is made and shown.
const MADE: &str = "
$ format h 1
> formatted 1 bytes 82304
~ 82304
$ show h
> heap 1 clean
$ format h 2
> formatted 2 bytes 147904
~ 147904
$ format h 004
> formatted 4 bytes 279104
$ show h
> heap 4 clean
~ 279104
";

/// An image of one superblock with these words, of a length, the status, and what is told of it.
const LENGTHS: &str = "
1: state 1, used 0; 0 = 7 > bad header short
1: state 1, used 0; 8511 = 7 > bad header short
1: state 1, used 0; 8512 = 7 > bad header length
1: state 1, used 0; 82303 = 7 > bad header length
1: state 1, used 0; 82312 = 7 > bad header length
1: state 0, used 2; 82304 = 7 > bad header state
1: state 1, used 2; 82304 = 7 > bad header used
1: state 2, used 1; 82304 = 0 > heap 1 dirty
";

/// The call on each row: an image, the status, and the line that is told.
const SHOWN: [(&str, &str); 4] = [
    ("\n", "\n@ "),
    ("\n@ #", "\n#"),
    (" = ", "\n$ show h\n= "),
    (" > ", "\n> "),
];

/// A table in block 0 of superblock 0, to which root 0 points, and two ways to a node behind it.
const REACHED: &str = "
@ 1
$ show h --map
> heap 1 clean
> used 0 free 0 fresh 1
@ 1: used 1, info:0 12, root:0 @1072, state 2
$ show h
> heap 1 dirty
> held 1024 1
@ 1: used 1, info:0 12, root:0 @1072, 1072 @1328
$ show h --map
> heap 1 clean
> key 0 -
> held 1024 2
> used 1 free 0 fresh 0
> sb 0 class 12 held 0 2
@ 1: used 1, info:0 12, root:0 @1072, 1072 @1328, 1328 @1328
$ show h --map
= 9
> bad shard 0 at 1328
@ 1: used 1, info:0 12, root:8 @1072, 1075 5
$ show h
> heap 1 clean
> held 1024 1
@ 1: used 1, info:0 12
$ show h --map
> heap 1 clean
> used 1 free 1 fresh 0
> sb 0 free
";

/// Pointers into a block, to a superblock that was never taken, with another upper half, and of the
/// last root; and a link.
const OUTSIDE: &str = "
@ 1: used 1, info:0 12, root:0 @1073
$ show h --map
= 8
> pointer outside at 40 value 5250000000002188
@ 1: used 0, info:0 12, root:0 @1072
$ show h --map
= 8
> pointer outside at 40 value 5250000000002180
@ 1: used 1, info:0 12, root:0 5931522184223662464
$ show h --map
= 8
> pointer outside at 40 value 5251000000002180
@ 1: used 1, info:0 12, root:1023 1
$ show h --map
= 8
> pointer outside at 1063 value 0000000000000001
@ 1: used 1, info:0 12, root:0 @1072, 1072 @1328, 1328 7
$ show h
= 8
> pointer outside at 1328 value 0000000000000007
";

/// Words that make shards bad, of which the lowest is told and its first bad link. Superblock 1 has
/// nodes of four words, of which the first two begin at 9,272 and 9,276.
const BAD_SHARDS: &str = "
# A root leads to a node, or to a table that another root leads to.
table: root:0 @9272, 1080 0 = 9 > bad shard 0 at 40
table: root:1 @1080, 9273 0 = 9 > bad shard 0 at 40
table: root:8 @1080, 9273 0 = 9 > bad shard 0 at 40
table: root:7 @9276, 9273 0 = 9 > bad shard 7 at 47
# A bucket leads to the table, or to a node that another root reaches.
table: 1080 @1080, 9273 0 = 9 > bad shard 0 at 1080
table: root:8 @9272, 9273 0 = 9 > bad shard 0 at 1080
table: root:1 @1208, 1208 @9272 = 9 > bad shard 0 at 1080
# The key is of another bucket or shard, or the value has no room.
table: 9273 8, 9274 0 = 9 > bad shard 0 at 1080
table: 9273 1, 9274 0 = 9 > bad shard 0 at 1080
table: 9274 9, 9275 0 = 9 > bad shard 0 at 1080
table: 9274 131073, 9275 0 = 9 > bad shard 0 at 1080
table: 9274 18446744073709551615, 9275 0 = 9 > bad shard 0 at 1080
# A node leads to itself, to a node with its key, or to one of another bucket.
table: 9272 @9272, 9273 0 = 9 > bad shard 0 at 9272
table: 9272 @9276, 9277 0 = 9 > bad shard 0 at 9272
table: 9272 @9276, 9277 8 = 9 > bad shard 0 at 9272
# A later bucket leads to a node of the first, or to one that is not its own.
table: 1081 @9272, 9273 0 = 9 > bad shard 0 at 1081
table: 1207 @9276, 9277 1024 = 9 > bad shard 0 at 1207
";

/// The same with `--map`.
const SHOWN_WITH_MAP: [(&str, &str); 4] = [
    ("\n", "\n@ "),
    ("\n@ #", "\n#"),
    (" = ", "\n$ show h --map\n= "),
    (" > ", "\n> "),
];

/// The keys of all shards, in ascending order.
const KEYS: &str = "
@ table: 1080 @9276, 9276 @9272, 9277 1024, 9274 2, 9275 16961, root:1 @1208, 1209 @9280, 9281 9
$ show h
> heap 2 clean
> key 0 4142
> key 9 -
> key 1024 -
> held 32 3
> held 1024 2
";

/// Superblocks of two kinds.
const KINDS: &str = "
@ table: info:1 2
$ show h
> heap 2 clean
> key 0 -
> held 32 1
> held 1024 1
@ table: info:1 21
$ show h
= 8
> pointer outside at 1080 value 52500000000121c0
@ table: info:1 255
$ show h
= 8
> pointer outside at 1080 value 52500000000121c0
@ table: info:1 767
$ show h
= 8
> pointer outside at 1080 value 52500000000121c0
@ table: info:1 511
$ show h
> heap 2 clean
> key 0 -
> held 1024 1
> held large 1 1
@ 2: used 1, info:0 12, root:0 @1080, root:8 @1080
$ show h --map
= 9
> bad shard 0 at 40
@ 2: used 2, info:0 767, root:8 @1080
$ show h --map
> heap 2 clean
> held large 2 1
> used 2 free 0 fresh 0
> sb 0 large 2
> sb 1 inside 0
@ 2: used 1, info:0 4, root:8 @1080
$ show h --map
> heap 2 clean
> held 64 1
> used 1 free 0 fresh 1
> sb 0 class 4 held 0
";

/// Listed blocks of a class, in ascending order.
const DRAINED: &str = "
@ 2: used 1, info:0 4, root:8 @1080
$ drain h 04
> class 4 size 64 blocks 2047
>+ 8704 64 2047
$ drain h 012
> class 12 size 1024 blocks 64
>+ 74176 1024 64
@ 2: state 2
$ drain h 01
> class 1 size 16 blocks 8192
>+ 8640 16 8192
@ 2: used 2, info:0 767, root:8 @1080
$ drain h 02
> class 2 size 32 blocks 0
";

/// Free superblocks are cut for any class; and what `show` refuses is refused.
const GIVEN: &str = "
@ 1
$ drain h 20
> class 20 size 14336 blocks 4
> 8576
> 22912
> 37248
> 51584
@ 1: used 1, info:0 12
$ drain h 20
> class 20 size 14336 blocks 4
> 8576
> 22912
> 37248
> 51584
@ 1: used 1, info:0 12, root:0 @1072
$ drain h 20
> class 20 size 14336 blocks 0
@ 1: used 1, info:0 20, root:8 @2864
$ drain h 20
> class 20 size 14336 blocks 3
> 8576
> 37248
> 51584
@ 1: used 1, info:0 12, state 0
$ drain h 12
= 7
> bad header state
@ 1: used 1, root:0 @1072, info:0 0
$ drain h 12
= 8
> pointer outside at 40 value 5250000000002180
";

const TABLES: [Table; 9] = [
    (MADE, &[]),
    (REACHED, &[]),
    (KEYS, &[]),
    (KINDS, &[]),
    (DRAINED, &[]),
    (GIVEN, &[]),
    (LENGTHS, &SHOWN),
    (OUTSIDE, &[]),
    (BAD_SHARDS, &SHOWN_WITH_MAP),
];

#[test]
fn images_are_made_shown_and_drained(rt: HostRuntime) -> Result<(), Fail> {
    plays(&rt, &TABLES)
}
