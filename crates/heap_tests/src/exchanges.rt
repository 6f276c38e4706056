//! The guards of the events that read or exchange a shared word, each with every cause of a
//! refusal.
use crate::guards::try_guards;
use std::process::Abort;
use std::test::Fail;

/// The mark, and the superblocks that were never taken.
const MARK_GUARDS: &str = "
fresh | - | 0 look-used | done
# it is made durable as far as it was seen
fresh | 0 look-used | 0 keep | done
fresh | - | 0 keep | not now
fresh | 1 look-used | 0 keep | not now
# it was seen, and is still what was seen
fresh | 0 look-used | 0 take 2 | done
fresh | take-one | 0 take 1 | done
fresh | - | 0 take 1 | not now
fresh | 1 look-used | 0 take 1 | not now
fresh | 1 look-used, take-one | 1 take 1 | not now
fresh | 1 look-used, take-one, 1 look-used | 1 take 1 | done
# one is taken at least, and there is room for all
fresh | 0 look-used | 0 take 0 | not now
fresh | 0 look-used | 0 take 3 | not now
fresh | 0 look-used | 0 take 18446744073709551615 | not now
one-free | 0 look-used | 0 take 2 | not now
two-free | 0 look-used | 0 take 1 | not now
";

/// Heads and links, and pops.
const POP_GUARDS: &str = "
fresh | - | 0 head 0 | done
fresh | - | 1 head 20 | done
fresh | - | 0 head 21 | not now
fresh | - | 0 head 18446744073709551615 | not now
# a head was seen, of a list that isn't empty
one-free | 0 head 0 | 0 link | done
one-free | - | 0 link | not now
one-free | 1 head 0 | 0 link | not now
one-free | 0 head 20 | 0 link | not now
one-free | pop-free | 0 link | not now
# a head and its link were seen, and the head is still what was seen
one-held | 0 head 20, 0 link | 0 pop | done
one-free | 0 head 0, 0 link | 0 pop | done
one-free | - | 0 pop | not now
one-free | 0 head 0 | 0 pop | not now
one-free | 0 head 0, 0 link, 0 head 0 | 0 pop | not now
two-free | 0 head 0, 0 link, pop-free-by-1 | 0 pop | not now
# a snapshot is used once
two-free | pop-free | 0 pop | not now
two-free | pop-free, 0 head 0 | 0 pop | not now
two-free | pop-free, pop-free-by-1 | 0 pop | not now
";

/// The superblock goes to the list of the free ones.
const PUSH_FREE_GUARDS: &str = "
one-free | pop-free, 0 head 0 | 0 push 0 | done
# a head was seen, and is still what was seen
one-free | pop-free | 0 push 0 | not now
two-free | pop-free, 0 head 0, 0 store link:0 2, pop-free-by-1 | 0 push 0 | not now
# a snapshot is used once
two-free | pop-free, pop-free, 0 head 0, end-link, 0 push 0, 0 store link:1 0 | 0 push 1 | not now
# its link leads to what was first in the list
one-free | pop-free, 0 head 0, 0 store link:0 2 | 0 push 0 | not now
two-free | pop-free, 0 head 0 | 0 push 0 | done
# the seat claims it, and does not make its blocks
one-free | 0 head 0 | 0 push 0 | not now
one-free | pop-free-by-1, 0 head 0 | 0 push 0 | not now
one-free | pop-free, 0 head 0 | 0 push 1 | not now
one-free | pop-free, 0 head 0 | 0 push 2 | not now
one-free | pop-free, 0 head 0 | 0 push 18446744073709551615 | not now
one-free | pop-free, begin, 0 head 0 | 0 push 0 | not now
# it lies below the durable mark
fresh | take-one, 0 head 0 | 0 push 0 | not now
fresh | take-one, keep, 0 head 0 | 0 push 0 | done
fresh | 0 look-used, 1 look-used, 1 take 1, 1 keep, 0 keep, 1 head 0 | 1 push 0 | done
# its anchor is empty: one that is split has a full one until it is stored to
large | 0 split 1080, 0 head 0, end-link | 0 push 0 | not now
large | 0 split 1080, 0 head 0, end-link, 0 store anchor:0 0 | 0 push 0 | done
one-held | pop-class, 0 head 0 | 0 push 0 | not now
one-held | pop-class-by-1, give-one, 1 head 0 | 1 push 0 | done
";

/// The superblock goes to the list of a class.
const PUSH_CLASS_GUARDS: &str = "
# it has the class, and some or all blocks free
one-held | pop-class, 0 head 20 | 0 push 0 | done
one-held | pop-class-by-1, give-one, 1 head 20 | 1 push 0 | done
one-held | pop-class, 0 head 19 | 0 push 0 | not now
one-held | pop-class-by-1, 0 head 20 | 0 push 0 | not now
# it comes from the list of the free ones, or of a large block, and only says that it has it
one-free | pop-free, set-class, 0 head 20 | 0 push 0 | not now
fresh | take-one, keep, set-class, 0 head 20 | 0 push 0 | not now
large | 0 split 1080, 0 store anchor:0 0, end-link, set-class, 0 head 20 | 0 push 0 | not now
";

/// Anchors, and all free blocks of a superblock.
const TAKE_ALL_GUARDS: &str = "
# the seat claims it, or has blocks of it in its batch
one-free | pop-free | 0 anchor 0 | done
one-held | pop-class | 0 anchor 0 | done
large | 0 split 1080 | 0 anchor 1 | done
one-held | free-one, lift-one | 0 anchor 0 | done
one-held | free-one | 0 anchor 0 | not now
one-held | free-one, lift-one | 0 anchor 1 | not now
one-free | - | 0 anchor 0 | not now
one-free | pop-free | 1 anchor 0 | not now
one-free | pop-free | 0 anchor 1 | not now
one-free | pop-free | 0 anchor 2 | not now
one-free | pop-free | 0 anchor 18446744073709551615 | not now
one-free | pop-free, begin | 0 anchor 0 | not now
large | - | 0 anchor 0 | not now
# the seat claims it with a class, and its anchor is what was seen: of some free blocks
one-held | pop-class, look-anchor | 0 take-all 0 | done
one-held | pop-class | 0 take-all 0 | not now
one-held | pop-class, look-anchor | 0 take-all 1 | not now
one-held | pop-class, look-anchor | 0 take-all 18446744073709551615 | not now
two-partial | pop-class, pop-class, 0 anchor 1 | 0 take-all 0 | not now
one-free | pop-free, look-anchor | 0 take-all 0 | not now
one-held | free-one, lift-one, look-anchor | 0 take-all 0 | not now
one-held | pop-class-by-1, 1 anchor 0, give-one | 1 take-all 0 | not now
one-held | pop-class-by-1, give-one, 1 anchor 0 | 1 take-all 0 | not now
# the cache of the class is empty
one-held | free-one, pop-class, look-anchor | 0 take-all 0 | not now
# a snapshot is used once, and is gone where the superblock is claimed anew
one-held | pop-class, take-all | 0 take-all 0 | not now
one-held | pop-class, look-anchor, 0 head 20, 0 push 0, pop-class | 0 take-all 0 | not now
";

/// The batch goes back to its superblock.
const GIVE_GUARDS: &str = "
# its anchor was full: there is no first free block
all-held | free-one, lift-one, look-anchor | 0 give 0 | done
# the last block leads to the first free one
one-held | free-one, lift-one, look-anchor, 0 store 1080 2872 | 0 give 0 | done
one-held | free-one, lift-one, look-anchor, 0 store 1080 4664 | 0 give 0 | not now
# there is a batch, of this superblock
one-held | pop-class, look-anchor | 0 give 0 | not now
one-held | free-one, pop-class, look-anchor | 0 give 0 | not now
all-held | free-one, lift-one, look-anchor | 0 give 1 | not now
all-held | free-one, lift-one, look-anchor | 0 give 18446744073709551615 | not now
all-held | free-one, lift-one, look-anchor | 1 give 0 | not now
# its anchor was seen, and is what was seen
all-held | free-one, lift-one | 0 give 0 | not now
two-partial | pop-class, pop-class, free-one, lift-one, 0 anchor 1 | 0 give 0 | not now
all-held | free-one, lift-one, look-anchor, give-one-by-1 | 0 give 0 | not now
# a snapshot and a batch are used once
one-held | give-one | 0 give 0 | not now
all-held | free-one, lift-one, look-anchor, 0 give 0, 0 anchor 0 | 0 give 0 | not now
";

#[test]
fn superblocks_that_were_never_taken_are_taken(rt: HostRuntime) -> Result<(), Fail> {
    try_guards(&rt, MARK_GUARDS)
}

#[test]
fn lists_are_popped_and_pushed_to(rt: HostRuntime) -> Result<(), Fail> {
    try_guards(&rt, POP_GUARDS)?;
    try_guards(&rt, PUSH_FREE_GUARDS)?;
    try_guards(&rt, PUSH_CLASS_GUARDS)
}

#[test]
fn free_blocks_are_taken_and_given_back(rt: HostRuntime) -> Result<(), Fail> {
    try_guards(&rt, TAKE_ALL_GUARDS)?;
    try_guards(&rt, GIVE_GUARDS)
}
