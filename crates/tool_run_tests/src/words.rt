//! The words of a call: which ask for a command, and which for none.
use crate::session::{Table, plays};
use std::test::Fail;

/// Words that ask for nothing, a call a line; the first call has one empty word.
const NO_COMMAND: &str = "
''
run h --workers 9
format h
format h 0
format h 4097
format h 18446744073709551617
format h 1x
format h 1 1
format -h 1
format h -- 1 1
Format h 1
show
show -h
show h h
show h --mapp
show h --map 1
show h --map=1
show h --map --map
show h --ma
show --help
show h --version
--help
-h
help
help show
--version
--map show h
-- show h
drain
drain h
drain h 0
drain h 21
drain h 18446744073709551617
drain h 4x
drain h 4 4
drain h --map
drain -h 4
drain 4 h
show --par
show h --parr
show h --pa
show h --par 1
show h --par=1
show h --par --par
show h h --par
drain h 4 --par
rebuild h --par
run h --workers 1 --par
conservative
conservative -h
conservative h h
conservative h --mapp
conservative h --map 1
conservative h --map=1
conservative h --map --map
conservative h --par
conservative h --seed 1
conservative --help
conservatively h
Conservative h
conserv h
count
count -h
count h h
count h --mapp
count h --map 1
count h --map=1
count h --map --map
count h --par
count h --seed 1
count --help
counts h
Count h
coun h
.";

/// Makes a call of each line but the last, and tells that no image is put.
const USAGE: [(&str, &str); 2] = [("\n", "\n= 2\n> usage\n~ none\n$ "), ("\n$ .", "")];

/// Options stand anywhere behind the command.
const OPTIONS: &str = "
$ format h +1
> formatted 1 bytes 82304
$ format -- h 01
> formatted 1 bytes 82304
$ format '' 1
> formatted 1 bytes 82304
$ show ''
> heap 1 clean
$ show -- h
> heap 1 clean
$ show --map h
> heap 1 clean
> used 0 free 0 fresh 1
$ show --map -- h
> heap 1 clean
> used 0 free 0 fresh 1
";

/// An image that is not there is named.
const NO_IMAGE: &str = "
$ show none.img
! 9
= 6
> no image none.img
$ show none.img
! 3
= 6
>| no image none.img
$ show none.img
! 2
= 6
>| no image\x20
$ show none.img
! 1
= 6
>| no image
$ show none.img
! 0
= 6
$ drain none.img 12
= 6
> no image none.img
";

/// A failing sink is told behind what it took.
const FAILING_SINK: &str = "
$ format h 1
! 0
= 5
> write fault
$ format h 1
! 1
= 5
> formattewrite fault
$ format h 1
! 2
= 5
> formatted 1 bytewrite fault
$ format h 1
! 2 4
= 5
>| formatted 1 bytewrite fa
$ format h 1
! 3
> formatted 1 bytes 82304
$ show h
! 0 1
= 5
$ show h
! 1
= 5
> heap 1 cwrite fault
$ show h
! 2
> heap 1 clean
$ drain h 20
! 0
= 5
> write fault
$ drain h 20
! 3
= 5
> class 20 size 14336 blocwrite fault
~ 82304
";

const TABLES: [Table; 4] = [
    (NO_COMMAND, &USAGE),
    (OPTIONS, &[]),
    (NO_IMAGE, &[]),
    (FAILING_SINK, &[]),
];

#[test]
fn words_ask_for_a_command_or_for_none(rt: HostRuntime) -> Result<(), Fail> {
    plays(&rt, &TABLES)
}
