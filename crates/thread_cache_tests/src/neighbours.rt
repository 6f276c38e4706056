//! What a seat gives and refuses, beside another one.

use crate::pairs::{Part, play_over, play_pair};
use std::test::Fail;

/// One seat fills both superblocks, with four blocks in each. What it frees of a whole superblock
/// the other one can have.
const FULL: &str = "a take 14336 8
a full 14336 2
b full 14336 2
a free 3
b full 14336 2
a free 1
b take 14336 4
b full 14336 2
a full 14336 2
a full 16 2
b free 4
a take 16 1
b full 14336 2";

#[test]
fn a_freed_superblock_serves_the_other_seat(rt: HostRuntime) -> Result<(), Fail> {
    play_pair(rt.alloc(), 2, Part::Acts(FULL))
}

/// What a seat has cached the other one cannot have, until the seat is quiet.
const QUIET: &str = "a take 14336 1
b full 14336 1
a quiet
b take 14336 3
b full 14336 1
a free 1
b full 14336 1
a quiet
b take 14336 1
b free 4
a take 16 4096";

#[test]
fn a_quiet_seat_leaves_its_cache_to_the_other(rt: HostRuntime) -> Result<(), Fail> {
    play_pair(rt.alloc(), 1, Part::Acts(QUIET))
}

/// Both seats hold blocks of the one superblock as the heap is opened. What one frees is in its
/// cache: the other one finds nothing until that is emptied. A head counts its pops. At last all
/// blocks are free: the superblock is popped off the list of its class, put on that of the free
/// ones, and popped off that.
const HELD: &str = "a has 4656 1792
b has 6448 1792
a free 1
b looks 14336 0 0 1
a quiet
b take 14336 1
b has 4656 1792
b looks 14336 16777216 0 1
b free 3
a free 1
b quiet
a quiet
a take 14336 1
b looks 14336 33554432 16777216 1";

const FOUR_HELD: &str =
    "used 1, info:0 20, root:8 @1072, root:9 @2864, root:10 @4656, root:11 @6448";

#[test]
fn a_block_that_was_held_at_the_opening_serves_the_other_seat(rt: HostRuntime) -> Result<(), Fail> {
    play_over(rt.alloc(), 1, FOUR_HELD, Part::Acts(HELD))
}

/// A large block takes superblocks that were never taken. Once it is freed they serve classes, and
/// no large block.
const LARGE: &str = "a take 14336 1
b full 131073 1
b take 131072 1
a full 65536 3
a take 14336 3
a full 14336 3
b free 1
b full 65536 3
a take 14336 8
a full 14336 3
b full 14336 3";

#[test]
fn the_superblocks_of_a_freed_large_block_serve_classes(rt: HostRuntime) -> Result<(), Fail> {
    play_pair(rt.alloc(), 3, Part::Acts(LARGE))
}

/// A seat asks for each class in order, and then for more than a superblock: each class gets a
/// superblock. There is no room then. The seat frees all, and the other one takes all.
const CLASSES: &str = "a take 16 1
a has 1240 2
a take 32 1
a has 9432 4
a take 48 1
a has 17624 6
a take 64 1
a has 25816 8
a take 96 1
a has 34008 12
a take 128 1
a has 42200 16
a take 192 1
a has 50392 24
a take 256 1
a has 58584 32
a take 384 1
a has 66776 48
a take 512 1
a has 74968 64
a take 768 1
a has 83160 96
a take 1024 1
a has 91352 128
a take 1536 1
a has 99544 192
a take 2048 1
a has 107736 256
a take 3072 1
a has 115928 384
a take 4096 1
a has 124120 512
a take 6144 1
a has 132312 768
a take 8192 1
a has 140504 1024
a take 12288 1
a has 148696 1536
a take 14336 1
a has 156888 1792
a take 70000 1
a has 165080 16384
b full 16 22
b full 65536 22
a free 21
a quiet
b take 14336 88
b full 14336 22
a full 14336 22";

#[test]
fn each_class_is_given_a_superblock_and_gives_it_back(rt: HostRuntime) -> Result<(), Fail> {
    play_pair(rt.alloc(), 22, Part::Acts(CLASSES))
}
