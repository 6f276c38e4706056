//! Images of both versions, and the kinds of roots, which version 2 stores. Word 1 has the version,
//! and word 2 the capacity. An image of version 1 is told as one of version 2 in which word 1 is 1,
//! and that is cut behind its last superblock: 74,112 bytes for one, 139,712 for two. The kinds
//! stand there: from word 9,264 on behind one superblock, from 17,464 on behind two.
use crate::session::{Table, plays};
use std::test::Fail;

/// One superblock more than version 1 may have.
const MORE: &str = "
$ format h 257
> formatted 257 bytes 16875904
~ 16875904
$ format h 4097
= 2
> usage
~ 16875904
";

/// An image with these words, of a length, the status, and what is told of it.
const VERSIONS: &str = "
# Neither version.
1: 1 0 = 7 > bad header version
1: 1 3 = 7 > bad header version
1: 1 3, 2 0; 74112 = 7 > bad header version
1: 1 4294967298 = 7 > bad header version
# The capacity, by the version.
1: 1 1, 2 0; 74112 = 7 > bad header capacity
1: 1 1, 2 257; 74112 = 7 > bad header capacity
1: 1 1, 2 256; 74112 = 7 > bad header length
1: 2 0 = 7 > bad header capacity
1: 2 4097 = 7 > bad header capacity
1: 2 4096 = 7 > bad header length
1: 2 257 = 7 > bad header length
# The length, by the version.
1: 1 1; 8511 = 7 > bad header short
1: 1 1; 8512 = 7 > bad header length
1: 1 1; 74111 = 7 > bad header length
1: 1 1; 74112 = 0 > heap 1 clean
1: 1 1; 74120 = 7 > bad header length
1: 1 1; 82304 = 7 > bad header length
1: 1 2; 74112 = 7 > bad header length
1: 1 2; 82304 = 0 > heap 1 clean
# State and used, in version 1.
1: 1 1, state 0, used 2; 74112 = 7 > bad header state
1: 1 1, state 1, used 2; 74112 = 7 > bad header used
1: 1 1, state 2, used 1; 74112 = 0 > heap 1 dirty
";

/// The same of the kinds that are stored for roots 0, 7, 9 and 1,023.
const KINDS: &str = "
# A kind that there is none of is told of the header, behind its other causes.
1: 9273 3 = 7 > bad header kind
1: 9264 3 = 7 > bad header kind
1: 10287 3 = 7 > bad header kind
1: 9273 4294967297 = 7 > bad header kind
1: 9273 3, used 2 = 7 > bad header used
# A shard whose root has no table's kind is bad at that kind, null root or not.
1: 9264 0 = 9 > bad shard 0 at 9264
1: 9264 2 = 9 > bad shard 0 at 9264
1: 9271 0 = 9 > bad shard 7 at 9271
1: 9264 0, 9273 3 = 7 > bad header kind
table: 17464 0 = 9 > bad shard 0 at 17464
table: 17464 0, 9274 9 = 9 > bad shard 0 at 17464
table: 17465 0, 9274 9 = 9 > bad shard 0 at 1080
table: 17464 0, root:0 @1081 = 8 > pointer outside at 40 value 52500000000021c8
# Other roots may have any kind that there is.
1: 9272 1, 9273 2, 10287 2 = 0 > heap 1 clean
";

/// The call on each row: an image, the status, and the line that is told.
const SHOWN: [(&str, &str); 4] = [
    ("\n", "\n@ "),
    ("\n@ #", "\n#"),
    (" = ", "\n$ show h\n= "),
    (" > ", "\n> "),
];

/// The same of the other commands: only those that read the dictionary ask for a table's kind.
const OTHERS: &str = "
@ 1: 9273 3
$ run h --workers 1
= 7
> bad header kind
$ drain h 20
= 7
> bad header kind
$ rebuild h
= 7
> bad header kind
$ replay h
= 7
> bad header kind
~ 82304
@ 1: 9264 0
$ run h --workers 1
< put 0 aa
= 9
> bad shard 0 at 9264
$ drain h 20
> class 20 size 14336 blocks 4
> 8576
> 22912
> 37248
> 51584
";

/// What is reached by the kinds that are stored for roots 8 and 9; of version 1 that is kind 0.
const FOLLOWED: &str = "
@ 1: used 1, info:0 12, root:9 @1072, 1075 @1328
$ show h
> heap 1 clean
> held 1024 1
@ 1: 9273 1, used 1, info:0 12, root:9 @1072, 1075 @1328
$ show h
> heap 1 clean
> held 1024 2
@ 1: 9273 2, used 1, info:0 12, root:9 @1072, 1075 @1328
$ show h
> heap 1 clean
> held 1024 1
@ 1: 9273 2, used 1, info:0 12, root:9 @1072, 1072 @1328
$ show h
> heap 1 clean
> held 1024 2
@ 1: 9273 1, used 1, info:0 12, root:9 @1072, 1075 5
$ show h
= 8
> pointer outside at 1075 value 0000000000000005
@ 1: 1 1, used 1, info:0 12, root:9 @1072, 1075 5; 74112
$ show h
> heap 1 clean
> held 1024 1
@ table: 17472 2, root:8 @9276, 9276 @9272
$ show h
= 9
> bad shard 0 at 1080
";

/// What only reads an image of version 1 leaves it as it is.
const READ: &str = "
@ 2: 1 1, used 1, info:0 4, root:8 @1080; 139712
$ show h --map
> heap 2 clean
> held 64 1
> used 1 free 0 fresh 1
> sb 0 class 4 held 0
$ drain h 20
> class 20 size 14336 blocks 4
> 74176
> 88512
> 102848
> 117184
$ replay h
< seats 1
< 0 tick
> done
> tickets 1
> heap 2 dirty
> held 64 1
~ 139712
@ table: 1 1; 139712
$ show h
> heap 2 clean
> key 0 -
> held 32 1
> held 1024 1
~ 139712
# What is refused leaves it as well.
$ run h --workers 1
< put 1
= 10
> bad trace line 1
~ 139712
@ 2: 1 1, root:8 5; 139712
$ run h --workers 1
= 8
> pointer outside at 48 value 0000000000000005
$ rebuild h
= 8
> pointer outside at 48 value 0000000000000005
~ 139712
";

/// What is put of an image of version 1, to whose one block root 8 leads, has version 2: roots 0 to
/// 7 have kind 1, and the others kind 0.
const PUT: &str = "
@+ 2: 1 1, used 1, info:0 4, root:8 @1080; 139712
$ run h --workers 1
> run closed
> heap 2 clean
> held 64 1
~ 147904
& 1 1 2
& 17464 8 1
& 17472 1016 0
& root:8 1 @1080
@+ 2: 1 1, used 1, info:0 4, root:8 @1080; 139712
$ rebuild h --stop 0
> rebuild stopped
> heap 2 dirty
> held 64 1
~ 147904
$ rebuild h
> rebuild done
> heap 2 dirty
> held 64 1
~ 147904
& 1 1 2
& 17464 8 1
& 17472 1016 0
& root:8 1 @1080
";

/// A rebuild of an image whose shard 0 has no map, a run over a map of version 1, and a stopped run,
/// which puts the new version too, with the kinds that were stored.
const CHANGED: &str = "
@+ 1: 9264 0
$ rebuild h
> rebuild done
> heap 1 dirty
$ show h
= 9
> bad shard 0 at 9264
~ 82304
@+ table: 1 1; 139712
$ run h --workers 1
< put 0 aa
< get 0
> ok
> aa
> run closed
> heap 2 clean
> key 0 aa
> held 32 1
> held 1024 1
~ 147904
$ show h
> heap 2 clean
> key 0 aa
> held 32 1
> held 1024 1
@+ 1: 9273 1, used 1, info:0 12, root:9 @1072, 1075 @1328
$ run h --workers 1 --stop 0
< put 0 aa
> unanswered
> run stopped
> heap 1 dirty
> held 1024 2
~ 82304
$ run h --workers 1
< put 0 aa
> full
> run closed
> heap 1 clean
> held 1024 3
~ 82304
& 9273 1 1
& 9272 1 0
& 9264 1 1
";

const TABLES: [Table; 8] = [
    (MORE, &[]),
    (VERSIONS, &SHOWN),
    (KINDS, &SHOWN),
    (OTHERS, &[]),
    (FOLLOWED, &[]),
    (READ, &[]),
    (PUT, &[]),
    (CHANGED, &[]),
];

#[test]
fn images_of_both_versions_are_read_and_put(rt: HostRuntime) -> Result<(), Fail> {
    plays(&rt, &TABLES)
}
