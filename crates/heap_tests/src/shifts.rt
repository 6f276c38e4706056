//! The guards of the changes that go with a draw, each with every cause of a refusal.
use crate::guards::try_guards;
use std::process::Abort;
use std::test::Fail;

/// All blocks that were made go into the cache.
const CUT_GUARDS: &str = "
one-free | make-0 | 0 cut 0 | done
fresh | take-one, keep, set-class, begin, link-blocks | 0 cut 0 | done
# they are being made
one-free | pop-free, set-class, link-blocks | 0 cut 0 | not now
one-free | make-0 | 1 cut 0 | not now
one-free | make-0 | 0 cut 1 | not now
one-free | make-0 | 0 cut 18446744073709551615 | not now
one-free | make-0, cut-blocks | 0 cut 0 | not now
# the info is a class, and durable
one-free | pop-free, 0 store info:0 20, begin, link-blocks | 0 cut 0 | not now
one-free | pop-free, begin, link-blocks | 0 cut 0 | not now
one-free | pop-free, 0 store info:0 21, 0 settle info:0, begin, link-blocks | 0 cut 0 | not now
# it lies below the durable mark
fresh | take-one, set-class, begin, link-blocks | 0 cut 0 | not now
# each block leads to the next one
one-free | make-0, 0 store 4664 1080 | 0 cut 0 | not now
# the cache of the class is empty
all-held | pop-free, make-1 | 0 cut 1 | done
all-held | free-one, pop-free, make-1 | 0 cut 1 | not now
";

/// Blocks are held, and freed.
const BLOCK_GUARDS: &str = "
# the cache is not empty
one-held | pop-class, take-all | 0 alloc 20 | done
one-held | pop-class, take-all, 0 alloc 20, 0 alloc 20 | 0 alloc 20 | done
one-held | pop-class, take-all, 0 alloc 20, 0 alloc 20, 0 alloc 20 | 0 alloc 20 | not now
one-held | - | 0 alloc 20 | not now
one-held | pop-class, take-all | 1 alloc 20 | not now
one-held | pop-class, take-all | 0 alloc 19 | not now
one-held | pop-class, take-all | 0 alloc 0 | not now
one-held | pop-class, take-all | 0 alloc 21 | not now
one-held | - | 0 alloc 18446744073709551615 | not now
# a small block is held, and leads to the first one of the cache where there is one
all-held | - | 0 free 1080 | done
all-held | free-one | 0 free 4664 | not now
all-held | free-one, 0 store 4664 1080 | 0 free 4664 | done
all-held | - | 1 free 1080 | not now
all-held | free-one | 0 free 1080 | not now
all-held | free-one, lift-one | 0 free 1080 | not now
all-held | - | 0 free 1081 | not now
all-held | - | 0 free 0 | not now
all-held | - | 0 free 18446744073709551615 | not now
one-held | - | 0 free 2872 | not now
large | - | 0 free 1080 | not now
";

/// Blocks go behind the batch.
const LIFT_GUARDS: &str = "
all-held | free-one | 0 lift 20 | done
all-held | free-one, free-next, lift-one | 0 lift 20 | done
# the cache is not empty
all-held | - | 0 lift 20 | not now
all-held | free-one | 1 lift 20 | not now
all-held | free-one | 0 lift 19 | not now
all-held | free-one | 0 lift 0 | not now
all-held | free-one | 0 lift 21 | not now
# the last block of the batch was not stored to since, and leads to the block
all-held | free-one, free-next, lift-one, 0 store 4664 1080 | 0 lift 20 | not now
all-held | free-one, free-next, lift-one, 0 store 4665 0 | 0 lift 20 | done
one-held | pop-class, take-all, lift-one, 0 alloc 20 | 0 lift 20 | not now
# the block is of the batch's superblock
two-free | make-0, cut-blocks, hold-four, pop-free, make-1, lift-before-1 | 0 lift 20 | not now
# another batch begins once this one was given back
all-held | free-one, lift-one, look-anchor, 0 give 0, 0 free 4664 | 0 lift 20 | done
all-held | free-one, lift-one, 0 free 4664 | 0 lift 20 | not now
";

/// Large blocks are held.
const LARGE_GUARDS: &str = "
two-free | pop-free, info-of-1 | 0 large 0 1 | done
two-free | pop-free, pop-free, info-of-2 | 0 large 0 2 | done
fresh | take-one, keep, take-one, keep, info-of-2 | 0 large 0 2 | done
# split ones count as empty
large | 0 split 1080 | 0 large 0 2 | done
# one at least is taken
two-free | pop-free, info-of-1 | 0 large 0 0 | not now
# all are claimed, without a class, and their blocks are not made
two-free | pop-free, info-of-2 | 0 large 0 2 | not now
two-free | pop-free, pop-free-by-1, info-of-2 | 0 large 0 2 | not now
two-free | pop-free, info-of-1, begin | 0 large 0 1 | not now
one-held | pop-class | 0 large 0 1 | not now
large | - | 0 large 0 2 | not now
# they lie below the durable mark
fresh | take-one, info-of-1 | 0 large 0 1 | not now
fresh | take-one, keep, take-one, info-of-2 | 0 large 0 2 | not now
two-free | pop-free, info-of-1 | 0 large 0 18446744073709551615 | not now
two-free | pop-free, info-of-1 | 0 large 18446744073709551615 1 | not now
# the first one's info says so, the others have none, and they are durable
two-free | pop-free, info-of-2 | 0 large 0 1 | not now
two-free | pop-free | 0 large 0 1 | not now
two-free | pop-free, 0 store info:0 511 | 0 large 0 1 | not now
two-free | pop-free, pop-free, info-of-2, 0 store info:1 4 | 0 large 0 2 | not now
two-free | pop-free, pop-free, info-of-2, info-of-class, 0 store info:1 0 | 0 large 0 2 | not now
two-free | pop-free, info-of-1, 0 store info:0 0 | 0 large 0 1 | not now
";

/// Large blocks are split.
const SPLIT_GUARDS: &str = "
large | - | 0 split 1080 | done
two-free | pop-free, info-of-1, 0 large 0 1 | 0 split 1080 | done
# one that the seat holds begins there
large | - | 1 split 1080 | not now
large | 0 split 1080 | 0 split 1080 | not now
large | - | 0 split 9272 | not now
large | - | 0 split 1081 | not now
large | - | 0 split 0 | not now
large | - | 0 split 18446744073709551615 | not now
one-held | - | 0 split 1080 | not now
";

#[test]
fn blocks_are_made_held_and_freed(rt: HostRuntime) -> Result<(), Fail> {
    try_guards(&rt, CUT_GUARDS)?;
    try_guards(&rt, BLOCK_GUARDS)?;
    try_guards(&rt, LIFT_GUARDS)
}

#[test]
fn large_blocks_are_held_and_split(rt: HostRuntime) -> Result<(), Fail> {
    try_guards(&rt, LARGE_GUARDS)?;
    try_guards(&rt, SPLIT_GUARDS)
}
