//! What is told of an image in which words have values that no run leaves there. Each session
//! changes nothing else of the image, and the store is as it was after each.
use crate::session::{Table, plays};
use std::test::Fail;

/// The words of the header behind the mark, and of the descriptors of two superblocks, that
/// recovery makes anew. Clause `ok`: with their greatest values they change nothing.
const NOT_READ: &str = "
@ table: 16, 17, 18, 19, 20, 21, 22, 23, 24, 25, 26, 27, 28, 29, 30, 31, 32, 33, 34, 35, 36, \
    anchor:0, link:0, anchor:1, link:1 18446744073709551615
$ show h
> heap 2 clean
> key 0 -
> held 32 1
> held 1024 1
";

/// Each of them has the value that the last one has.
const GREATEST: [(&str, &str); 1] = [(",", " 18446744073709551615,")];

const DAMAGED: &str = "
@ table
$ show h
> heap 2 clean
> key 0 -
> held 32 1
> held 1024 1

# Clause `ok`: the node has eight zero bytes, or is a large block.
@ table: 9274 8
$ show h
> heap 2 clean
> key 0 0000000000000000
> held 32 1
> held 1024 1
@ table: info:1 511
$ show h
> heap 2 clean
> key 0 -
> held 1024 1
> held large 1 1

# Clause `outside`: no block begins there, since the superblock is of no class, or since nothing is
# there to be pointed to.
@ table: info:1 21
$ show h
= 8
> pointer outside at 1080 value 52500000000121c0
@ table: info:1 255
$ show h
= 8
> pointer outside at 1080 value 52500000000121c0
@ table: info:1 767
$ show h
= 8
> pointer outside at 1080 value 52500000000121c0
@ table: root:0 @0
$ show h
= 8
> pointer outside at 40 value 5250000000000000
@ table: root:0 1
$ show h
= 8
> pointer outside at 40 value 0000000000000001

# Clause `bad_shard`: the key is of another bucket, or the value has no room.
@ table: 9273 8
$ show h
= 9
> bad shard 0 at 1080
@ table: 9274 9
$ show h
= 9
> bad shard 0 at 1080
@ table: 9274 18446744073709551615
$ show h
= 9
> bad shard 0 at 1080

# Clause `bad_shard`: a second bucket or root leads to the node or to the table, or the root to the
# node.
@ table: 1081 @9272
$ show h
= 9
> bad shard 0 at 1081
@ table: root:1 @1080
$ show h
= 9
> bad shard 0 at 40
@ table: root:8 @9272
$ show h
= 9
> bad shard 0 at 1080
@ table: root:0 @9272, 1080 0
$ show h
= 9
> bad shard 0 at 40
@ table: root:0 @9272
$ show h
= 9
> bad shard 0 at 40
";

const TABLES: [Table; 2] = [(NOT_READ, &GREATEST), (DAMAGED, &[])];

#[test]
fn a_damaged_word_is_taken_or_told(rt: HostRuntime) -> Result<(), Fail> {
    plays(&rt, &TABLES)
}
