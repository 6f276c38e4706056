//! Schedules replayed over images: what each step answers, and what is told of the crash behind.
use crate::session::{Table, plays};
use std::test::Fail;

/// Schedules, and which of their steps are done. The tool reads numbers alone: of superblock 0, word
/// 1,064 is the info and 1,066 the link.
const STEPS: &str = "
# A pop that another seat's pops and push overtake: the head has the old descriptor again, but not the
# old count.
@ 2: used 2
$ REPLAY
< seats 2
< 0 head 0
< 0 link
< 1 head 0
< 1 link
< 1 pop
< 1 head 0
< 1 link
< 1 pop
< 1 head 0
< 1 store 1066 0
< 1 push 0
< 0 pop
<
> done
> done
> done
> done
> done
> done
> done
> done
> done
> done
> done
> not now
> tickets 12
> heap 2 dirty
# A push of a descriptor without a class to the list of a class.
@ 1: used 1
$ REPLAY
< seats 1
< 0 head 0
< 0 link
< 0 pop
< 0 store 1064 4
< 0 head 4
< 0 store 1066 0
< 0 push 0
> done
> done
> done
> done
> done
> done
> not now
> tickets 7
> heap 1 dirty
# A superblock's free blocks are taken, and one is held and written to; the other seat has none.
@ 2: used 1, info:0 4, root:8 @1080
$ REPLAY
< seats 2
< 0 head 4
< 0 link
< 0 pop
< 0 anchor 0
< 0 take-all 0
< 0 alloc 4
< 1 alloc 4
< 0 store 1088 7
<
> done
> done
> done
> done
> done
> done
> not now
> done
> tickets 7
> heap 2 dirty
> held 64 1
@ 2: used 1, info:0 4, root:8 @1080
$ REPLAY
< seats 8
> tickets 0
> heap 2 dirty
> held 64 1
@ 1
$ REPLAY
< seats 1
< 0 tick
< 0 store 48 1
> done
> done
> tickets 2
> heap 1 dirty
# A store that is not durable is lost.
@ 2: used 1, info:0 4, root:8 @1080
$ REPLAY
< seats 1
< 0 store 48 1
> done
> tickets 1
> heap 2 dirty
> held 64 1
";

/// Schedules outside the grammar, of which the first such line is told, and what leads outside.
const REFUSED: &str = "
@ 2: used 1, info:0 4, root:8 @1080
$ REPLAY
< seats 9
= 10
> bad schedule line 1
@ 2: used 1, info:0 4, root:8 @1080
$ REPLAY
= 10
> bad schedule line 1
@ 2: used 1, info:0 4, root:8 @1080
$ REPLAY
< seats 2
< 2 pop
= 10
> bad schedule line 2
@ 2: used 1, info:0 4, root:8 @1080
$ REPLAY
< seats 2
< 0 pop
< 1 pop 3
< 9 pop
= 10
> bad schedule line 3
# A root that points outside becomes durable.
@ 2: used 1, info:0 4, root:8 @1080
$ REPLAY
< seats 1
< 0 store 48 1
< 0 settle 48
<
= 8
> pointer outside at 48 value 0000000000000001
# The image is told before the schedule, and so is a failed get.
@ 2: root:8 2
$ REPLAY
< seats 9
= 8
> pointer outside at 48 value 0000000000000002
@ 2: state 0
$ REPLAY
< seats 9
= 7
> bad header state
";

/// The call, by each of the chances, the last of which gives the greatest number each time.
const BY_NO_SEED: [(&str, &str); 1] = [("REPLAY", "replay h")];

const BY_SEED: [(&str, &str); 1] = [("REPLAY", "replay h --seed 7")];

const BY_MOST: [(&str, &str); 1] = [("REPLAY", "replay h\n% 18446744073709551615")];

/// What is told before a schedule is read.
const BEFORE_ITS_SCHEDULE: &str = "
@ 1
$ replay none
< seats 9
= 6
> no image none
$ replay h --stop 1
= 2
> usage
@ 1
! 1
$ replay h
< seats 9
= 4
> read fault
@ 1
$ replay h
< seats 9
? 0
% 0
= 4
> read fault
";

const TABLES: [Table; 7] = [
    (STEPS, &BY_NO_SEED),
    (STEPS, &BY_SEED),
    (STEPS, &BY_MOST),
    (REFUSED, &BY_NO_SEED),
    (REFUSED, &BY_SEED),
    (REFUSED, &BY_MOST),
    (BEFORE_ITS_SCHEDULE, &[]),
];

#[test]
fn each_line_tells_whether_its_step_was_done(rt: HostRuntime) -> Result<(), Fail> {
    plays(&rt, &TABLES)
}
