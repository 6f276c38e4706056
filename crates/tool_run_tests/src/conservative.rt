//! Images recovered with no filter: every word that names a block keeps it, and only a bad header is
//! refused.
use crate::session::{Table, plays};
use std::test::Fail;

/// A word that leads nowhere is passed by, one that names a block keeps it, and no key is told.
const KEPT: &str = "
@ 1: used 1, info:0 12, root:0 @1073
$ conservative h
> heap 1 clean
$ conservative h --map
> heap 1 clean
> used 1 free 1 fresh 0
> sb 0 free
$ show h
= 8
> pointer outside at 40 value 5250000000002188
@ table: 9275 @9276
$ show h
> heap 2 clean
> key 0 -
> held 32 1
> held 1024 1
$ conservative h
> heap 2 clean
> held 32 2
> held 1024 1
$ conservative --map -- h
> heap 2 clean
> held 32 2
> held 1024 1
> used 2 free 0 fresh 0
> sb 0 class 12 held 0
> sb 1 class 2 held 0-1
# The last word of a large block counts too, whatever the kind of its root.
@ 2: used 2, info:0 511, info:1 2, root:8 @1080, 9271 @9272
$ conservative h
> heap 2 clean
> held 32 1
> held large 1 1
# A shard without a map is not read.
@ table: 9273 8
$ show h
= 9
> bad shard 0 at 1080
$ conservative h
> heap 2 clean
> held 32 1
> held 1024 1
@ 1: state 2
$ conservative h
> heap 1 dirty
";

/// An image of version 1 stays as it is.
const OLD: &str = "
@ table: 1 1, 9275 @9276; 139712
$ conservative h
> heap 2 clean
> held 32 2
> held 1024 1
~ 139712
@ 1: 1 1, root:0 5; 74112
$ conservative h
> heap 1 clean
~ 74112
";

/// Each cause of a bad header but that of a kind, which no root has to have.
const HEADERS: &str = "
1; 0 = 7 > bad header short
1; 8511 = 7 > bad header short
1: 0 5 = 7 > bad header magic
1: 1 3 = 7 > bad header version
1: 2 0 = 7 > bad header capacity
1: 1 1, 2 257; 74112 = 7 > bad header capacity
1; 8512 = 7 > bad header length
1; 82303 = 7 > bad header length
1; 82312 = 7 > bad header length
1: 1 1; 74111 = 7 > bad header length
1: state 0, used 2 = 7 > bad header state
1: used 2 = 7 > bad header used
1: used 2, 9273 3 = 7 > bad header used
# Kinds of roots that there are none of, or that no shard's root may have.
1: 9273 3 = 0 > heap 1 clean
1: 9264 18446744073709551615 = 0 > heap 1 clean
1: 9264 0 = 0 > heap 1 clean
";

/// The call on each row: an image, the status, and the line that is told.
const RECOVERED: [(&str, &str); 4] = [
    ("\n", "\n@ "),
    ("\n@ #", "\n#"),
    (" = ", "\n$ conservative h\n= "),
    (" > ", "\n> "),
];

/// Faults are told without a filter too.
const OUTSIDE: &str = "
$ conservative none.img
= 6
> no image none.img
$ format h 1
> formatted 1 bytes 82304
$ conservative h
! 0
= 5
> write fault
$ conservative h
! 1
= 5
> heap 1 cwrite fault
$ conservative h
> heap 1 clean
~ 82304
@ 1
! 1
$ conservative h
= 4
> read fault
";

const TABLES: [Table; 4] = [
    (KEPT, &[]),
    (OLD, &[]),
    (HEADERS, &RECOVERED),
    (OUTSIDE, &[]),
];

#[test]
fn images_are_recovered_with_no_filter(rt: HostRuntime) -> Result<(), Fail> {
    plays(&rt, &TABLES)
}
