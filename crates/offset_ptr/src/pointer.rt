//! A pointer word, after Ralloc's position-independent pointers:
//!
//! ```text
//! 63        48 47                       0
//! |   0x5250  | byte offset in the image |
//! ```
//!
//! The word 0 is the null pointer, and every other word without the tag is alien.

ghost use Rattle.std.specs.Prelude.{◌≡◌, ℕ, ◌<◌, ◌^◌};
ghost use Rattle.heap_model.specs.Pointers.{IsPointerTo};
ghost use Rattle.offset_ptr.specs.Meaning.{IsAlien, Means};

/// The upper 16 bits of a pointer word, in their place.
const TAG: u64 = 0x5250_0000_0000_0000;

/// The offsets that a pointer word can hold lie below this.
const OFFSET_LIMIT: u64 = 1 << 48;

/// What a word of the heap points to.
#[derive(Clone, Copy, PartialEq, Eq, Debug)]
pub enum Ptr {
    /// Nothing.
    Null,
    /// The byte at this offset in the image.
    At(u64),
    /// The word is no pointer.
    Alien,
}

/// The pointer word to a byte offset.
pub fn encode(offset: u64) -> u64
    requires { offset < 2 ^ 48 }
    ensures { IsPointerTo result offset }
{
    TAG + offset
}

/// What the word points to.
pub fn decode(word: u64) -> Ptr
    ensures meaning { Means word result }

    // No other answer has that meaning.
    ensures null { word ≡ 0 → result ≡ Ptr.Null }
    ensures at { (offset : ℕ) → IsPointerTo word offset → result ≡ Ptr.At offset }
    ensures alien { IsAlien word → result ≡ Ptr.Alien }
{
    if word == 0 {
        return Ptr::Null;
    }
    match word.checked_sub(TAG) {
        Some(offset) if offset < OFFSET_LIMIT => Ptr::At(offset),
        _ => Ptr::Alien,
    }
}
