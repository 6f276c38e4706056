//! The size classes, and the superblocks that a large request takes.
ghost use Rattle.heap_model.specs.Sizes.{IsClass};

use crate::asserts::must_hold;
use size_table::{blocks_of, class_of, size_of, span_of};
use std::process::Abort;

/// Each class, the size of its blocks, and how many a superblock has.
const CLASSES: [(u8, u64, u64); 20] = [
    (1, 16, 4096),
    (2, 32, 2048),
    (3, 48, 1365),
    (4, 64, 1024),
    (5, 96, 682),
    (6, 128, 512),
    (7, 192, 341),
    (8, 256, 256),
    (9, 384, 170),
    (10, 512, 128),
    (11, 768, 85),
    (12, 1024, 64),
    (13, 1536, 42),
    (14, 2048, 32),
    (15, 3072, 21),
    (16, 4096, 16),
    (17, 6144, 10),
    (18, 8192, 8),
    (19, 12288, 5),
    (20, 14336, 4),
];

/// Asserts that the class has this size and count, and serves a request of the size.
fn must_have(rt: &impl Abort, class: u8, size: u64, blocks: u64)
    requires { IsClass class }
{
    must_hold(rt, size_of(class) == size, "the size");
    must_hold(rt, blocks_of(class) == blocks, "the count");
    must_hold(rt, class_of(size) == Some(class), "the class");
}

#[test]
fn each_class_has_the_size_and_count_of_the_table(rt: HostRuntime) {
    for (class, size, blocks) in CLASSES {
        assert!(rt; 1 <= class && class <= 20);
        must_have(&rt, class, size, blocks);
    }
}

#[test]
fn a_request_takes_the_least_class_or_superblocks(rt: HostRuntime) {
    must_hold(&rt, class_of(0) == Some(1), "0 bytes");
    must_hold(&rt, class_of(17) == Some(2), "17 bytes");
    must_hold(&rt, class_of(14_336) == Some(20), "14,336 bytes");
    must_hold(&rt, class_of(14_337).is_none(), "14,337 bytes");
    must_hold(&rt, span_of(14_337) == 1, "14,337 bytes");
    must_hold(&rt, span_of(65_536) == 1, "a superblock");
    must_hold(&rt, span_of(65_537) == 2, "a superblock and a byte");
    must_hold(&rt, span_of(u64::MAX) == 281_474_976_710_656, "the most");
}
