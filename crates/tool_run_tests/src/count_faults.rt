//! Images that a count refuses, and counts of which a call of the outside fails.
use crate::session::{Table, plays};
use std::test::Fail;

/// A word that points outside, and a shard without a map, where anchors tell what is held and where
/// they don't.
const OUTSIDE: &str = "
@ 1: used 1, info:0 12, root:0 @1073
$ show h
= 8
> pointer outside at 40 value 5250000000002188
$ count h
> quick
> heap 1 clean
@ 1: used 1, info:0 12, root:0 @1073, state 2
$ count h --map
= 8
> pointer outside at 40 value 5250000000002188
@ 1: used 1, info:0 12, root:0 @1073, anchor:0 1
$ count h
= 8
> pointer outside at 40 value 5250000000002188
@ table: 9273 8
$ show h
= 9
> bad shard 0 at 1080
$ count h
> quick
> heap 2 clean
@ table: 9273 8, state 2
$ count h
> traced
> heap 2 dirty
> held 32 1
> held 1024 1
";

/// Each cause of a bad header.
const HEADERS: &str = "
1; 0 = 7 > bad header short
1; 8511 = 7 > bad header short
1: 0 5 = 7 > bad header magic
1: 1 3 = 7 > bad header version
1: 2 0 = 7 > bad header capacity
1: 1 1, 2 257; 74112 = 7 > bad header capacity
1; 8512 = 7 > bad header length
1; 82303 = 7 > bad header length
1: 1 1; 74111 = 7 > bad header length
1: state 0, used 2 = 7 > bad header state
1: used 2 = 7 > bad header used
1: kind:9 3 = 7 > bad header kind
1: kind:0 18446744073709551615, state 2 = 7 > bad header kind
";

/// The call on each row: an image, the status, and the line that is told.
const COUNTED: [(&str, &str); 3] = [("\n", "\n@ "), (" = ", "\n$ count h\n= "), (" > ", "\n> ")];

/// Faults are told of a count too.
const FAILING: &str = "
$ count none.img
= 6
> no image none.img
$ format h 1
> formatted 1 bytes 82304
$ count h
! 0
= 5
> write fault
$ count h
! 1
= 5
> quick
> hewrite fault
$ count h
> quick
> heap 1 clean
~ 82304
@ 1
! 1
$ count h
= 4
> read fault
";

const TABLES: [Table; 3] = [(OUTSIDE, &[]), (HEADERS, &COUNTED), (FAILING, &[])];

#[test]
fn counts_are_refused(rt: HostRuntime) -> Result<(), Fail> {
    plays(&rt, &TABLES)
}
