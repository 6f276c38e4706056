//! Images of two superblocks, and pieces of schedules that lead to where a guard is tried. Seats 0
//! and 1 own the held blocks and the roots in turn.
use std::test::Fail;

/// The words that differ from those of an empty image.
const IMAGES: [(&str, &str); 7] = [
    // No superblock was ever taken.
    ("fresh", ""),
    // Superblock 0 is free.
    ("one-free", "used 1"),
    // Both superblocks are free.
    ("two-free", "used 2"),
    // Superblock 0 has four blocks, of which seat 0 holds the first.
    ("one-held", "used 1, info:0 20, root:8 @1080"),
    // Superblock 0 has four blocks, of which seat 0 holds those at 1,080 and 4,664, and seat 1
    // those at 2,872 and 6,456; superblock 1 is free.
    (
        "all-held",
        "used 2, info:0 20, root:8 @1080, root:9 @2872, root:10 @4664, root:11 @6456",
    ),
    // Both superblocks have four blocks, of which seat 0 holds the first of superblock 0, and seat
    // 1 the first of superblock 1.
    (
        "two-partial",
        "used 2, info:0 20, info:1 20, root:8 @1080, root:9 @9272",
    ),
    // Seat 0 holds a large block of both superblocks.
    ("large", "used 2, info:0 767, root:8 @1080"),
];

const PIECES: [(&str, &str); 26] = [
    ("-", ""),
    // A seat claims the first descriptor of the list of the free ones, or of that of the class.
    ("pop-free", "0 head 0, 0 link, 0 pop"),
    ("pop-free-by-1", "1 head 0, 1 link, 1 pop"),
    ("pop-class", "0 head 20, 0 link, 0 pop"),
    ("pop-class-by-1", "1 head 20, 1 link, 1 pop"),
    // The link of superblock 0 leads nowhere.
    ("end-link", "0 store link:0 0"),
    // Seat 0 takes a superblock that was never taken, and makes the mark durable.
    ("take-one", "0 look-used, 0 take 1"),
    ("keep", "0 keep"),
    // Seat 0 makes the blocks of superblock 0, which it claims, has them in its cache, and holds
    // them.
    ("set-class", "0 store info:0 20, 0 settle info:0"),
    ("begin", "0 store anchor:0 2"),
    (
        "link-blocks",
        "0 store 1080 2872, 0 store 2872 4664, 0 store 4664 6456",
    ),
    ("cut-blocks", "0 cut 0"),
    (
        "hold-four",
        "0 alloc 20, 0 alloc 20, 0 alloc 20, 0 alloc 20",
    ),
    // It claims it, and does all of this but the last two.
    (
        "make-0",
        "0 head 0, 0 link, 0 pop, 0 store info:0 20, 0 settle info:0, 0 store anchor:0 2, \
         0 store 1080 2872, 0 store 2872 4664, 0 store 4664 6456",
    ),
    // Seat 0 makes the blocks of superblock 1.
    (
        "make-1",
        "0 store info:1 20, 0 settle info:1, 0 store anchor:1 2, 0 store 9272 11064, \
         0 store 11064 12856, 0 store 12856 14648",
    ),
    // It has them in its cache, and before them the block at 1,080, which goes into its batch.
    (
        "lift-before-1",
        "0 cut 1, 0 store 1080 9272, 0 free 1080, 0 lift 20",
    ),
    // Superblock 0 begins a large block of one or of two, durably; superblock 1 has a class.
    ("info-of-1", "0 store info:0 511, 0 settle info:0"),
    ("info-of-2", "0 store info:0 767, 0 settle info:0"),
    ("info-of-class", "0 store info:1 4, 0 settle info:1"),
    // Seat 0 takes all free blocks of superblock 0, which it claims.
    ("look-anchor", "0 anchor 0"),
    ("take-all", "0 anchor 0, 0 take-all 0"),
    // Seat 0 frees the block at 1,080, and has it in its batch.
    ("free-one", "0 free 1080"),
    ("lift-one", "0 lift 20"),
    // Seat 0 puts its held block at 4,664 in front of that at 1,080 in its cache.
    ("free-next", "0 store 4664 1080, 0 free 4664"),
    // Seat 0 gives its batch of the block at 1,080 back to superblock 0, of which the block at
    // 2,872 is the first free one.
    (
        "give-one",
        "0 free 1080, 0 lift 20, 0 anchor 0, 0 store 1080 2872, 0 give 0",
    ),
    // Seat 1 does so with the block at 2,872, where no block is free.
    (
        "give-one-by-1",
        "1 free 2872, 1 lift 20, 1 anchor 0, 1 give 0",
    ),
];

/// The text of this name.
fn named(texts: &[(&'static str, &'static str)], name: &str) -> Option<&'static str> {
    for (other, text) in texts {
        if *other == name {
            return Some(*text);
        }
    }
    None
}

pub fn image(name: &str) -> Result<&'static str, Fail> {
    let words = named(&IMAGES, name).ok_or("no image of this name")?;
    Ok(words)
}

/// The piece of this name, or the line itself where it is none.
pub fn piece(line: &str) -> &str {
    named(&PIECES, line).unwrap_or(line)
}
