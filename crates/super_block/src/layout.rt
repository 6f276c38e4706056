//! The layout of an image: the one file where its numbers stand. All are counts or indices of
//! words.
//!
//! ```text
//! word           content                                              after a crash
//!    0           magic                                                durable
//!    1           version                                              durable
//!    2           capacity S                                           durable
//!    3           state: clean or dirty                                durable
//!    8           used: superblocks below it have been taken           durable
//!   16           head of the list of free superblocks                 any value
//!   17 .. 36     heads of the lists of the classes 1 to 20            any value
//!   40 .. 1063   the roots 0 to 1023                                  durable
//!                ───────────────────────────────────────────────
//! 1064           descriptor of superblock 0, one line:
//!                  info: what the superblock holds                    durable
//!                  anchor: which of its blocks are free               any value
//!                  link: the next descriptor of its list              any value
//!                  five words without a meaning
//! 1072           descriptor of superblock 1
//!                ..
//!                ───────────────────────────────────────────────
//! 1064 + 8 S     superblock 0, of 8192 words                          durable
//!                superblock 1
//!                ..
//!                ───────────────────────────────────────────────
//! 1064 + 8200 S  the kinds of the roots 0 to 1023                     durable
//! 2088 + 8200 S  the end
//! ```
//!
//! The header's words that have no line here have no meaning and keep what they hold. An image of
//! the old version has no kinds, and ends where its superblocks do.

/// The bytes of a word.
pub const WORD_BYTES: u64 = 8;

/// The words of a line, the unit of write-back.
pub const LINE_WORDS: u64 = 8;

/// The word that each image begins with: its bytes are the text `10COLLAR`.
pub const MAGIC: u64 = 0x5241_4C4C_4F43_3031;

/// The version of the format.
pub const VERSION: u64 = 2;

/// The version before it, which is still read.
pub const OLD_VERSION: u64 = 1;

/// The greatest number of superblocks that an image may have.
pub const LARGEST_CAPACITY: u64 = 4096;

/// The greatest number of superblocks of an image of the old version.
pub const LARGEST_OLD_CAPACITY: u64 = 256;

/// The state of an image that was closed.
pub const CLEAN: u64 = 1;

/// The state of an image that was not closed.
pub const DIRTY: u64 = 2;

/// Where the magic stands.
pub const MAGIC_WORD: u64 = 0;

/// Where the version stands.
pub const VERSION_WORD: u64 = 1;

/// Where the capacity stands, the number of superblocks.
pub const CAPACITY_WORD: u64 = 2;

/// Where the state stands.
pub const STATE_WORD: u64 = 3;

/// Where the high-water mark stands: the superblocks below it have been taken.
pub const USED_WORD: u64 = 8;

/// The first list head. The head of list `n` is `n` words behind it.
pub const HEAD_WORD: u64 = 16;

/// Which list has the free superblocks. The list of each class has the class's number.
pub const FREE_LIST: u64 = 0;

/// How many lists of superblocks there are: the free ones, and one list for each class.
pub const LISTS: u64 = LAST_CLASS + 1;

/// The first root.
pub const ROOT_WORD: u64 = 40;

/// How many roots there are.
pub const ROOTS: u64 = 1024;

/// How many roots of an empty image have kind 1; the others have kind 0.
pub const ROOTS_OF_KIND_ONE: u64 = 8;

/// The words of header and roots together; the first descriptor stands behind them.
pub const FIXED_WORDS: u64 = 1064;

/// The words of a descriptor, which is one line and begins with its info.
pub const DESCRIPTOR_WORDS: u64 = 8;

/// How far behind its info the anchor of a superblock stands.
pub const ANCHOR_OFFSET: u64 = 1;

/// How far behind its info the list link of a superblock stands.
pub const LINK_OFFSET: u64 = 2;

/// The words of a superblock.
pub const SUPERBLOCK_WORDS: u64 = 8192;

/// The bytes of the longest image.
pub const LONGEST_IMAGE: u64 = WORD_BYTES
    * (FIXED_WORDS + (DESCRIPTOR_WORDS + SUPERBLOCK_WORDS) * LARGEST_CAPACITY + ROOTS);

/// The last class: an info of 1 to `LAST_CLASS` is a class.
pub const LAST_CLASS: u64 = size_table::LAST_CLASS as u64;

/// The info of a large block's first superblock is `LARGE_INFO` and `LARGE_STEP` for each
/// superblock.
pub const LARGE_INFO: u64 = 255;

/// What each superblock of a large block adds to the info of the first one.
pub const LARGE_STEP: u64 = 256;
