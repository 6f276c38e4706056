//! The info word of a superblock.
//!
//! ```text
//! 0              nothing
//! 1 .. 20        blocks of that class
//! 255 + 256 n    a large block of n superblocks, n at least 1
//! ```
//!
//! Any other word says nothing.

ghost use Rattle.std.specs.Prelude.{◌≡◌, ◌<◌, ◌^◌};
ghost use Rattle.super_block.specs.Info.{Says, word_of};

use crate::layout::{LARGE_INFO, LARGE_STEP, LAST_CLASS};
use size_table::SizeClass;

/// What the info word of a superblock says that it holds.
#[derive(Clone, Copy, PartialEq, Eq, Debug)]
pub enum Info {
    /// Nothing that has a meaning.
    Nothing,
    /// Blocks of the class.
    Class(SizeClass),
    /// A large block of so many superblocks, this one the first.
    Large(u64),
}

impl Info {
    /// What the word says.
    pub fn unpack(word: u64) -> Info
        ensures { Says word result }
    {
        if 1 <= word && word <= LAST_CLASS {
            return Info::Class(SizeClass::new(word as u8));
        }
        if word > LARGE_INFO && (word - LARGE_INFO) % LARGE_STEP == 0 {
            return Info::Large((word - LARGE_INFO) / LARGE_STEP);
        }
        Info::Nothing
    }

    /// The word that says so, of a large block of at least one superblock.
    pub fn pack(self) -> u64
        requires { word_of self < 2 ^ 64 }
        ensures { result ≡ word_of self }
    {
        match self {
            Info::Nothing => 0,
            Info::Class(class) => class.number as u64,
            Info::Large(count) => LARGE_INFO + LARGE_STEP * count,
        }
    }
}
