//! The word of an anchor:
//!
//! ```text
//! 63                    33 32                       2 1     0
//! | count of free blocks  | first free block's index | state |
//! ```

ghost use Rattle.std.specs.Prelude.{◌≡◌, ◌↔◌, IsNone, IfSome, true};
ghost use Rattle.heap_model.specs.Words.{anchor_state, anchor_first, anchor_count, partial_state};
ghost use Rattle.anchor_word.specs.declared.anchor.Anchor.{Anchor};
ghost use Rattle.anchor_word.specs.Anchor.{HasParts, IsPackable, word_of};

use crate::anchor::{Anchor, State};

/// Where the first free block's index begins.
const FIRST_SHIFT: u32 = 2;

/// How many bits that index has.
const FIRST_BITS: u32 = 31;

/// Where the count begins.
const COUNT_SHIFT: u32 = 33;

/// The word of an anchor.
pub fn pack(anchor: &Anchor) -> u64
    requires { IsPackable anchor.now }
    ensures { result ≡ word_of anchor.now }
{
    anchor.state as u64 + (anchor.first << FIRST_SHIFT) + (anchor.count << COUNT_SHIFT)
}

/// The anchor that the word stands for, if its state is one.
pub fn unpack(word: u64) -> Option<Anchor>
    ensures none { IsNone result ↔ (anchor_state word ≡ 3) }
    ensures some { IfSome result (HasParts word) }

    // It undoes `pack`, and `pack` undoes it.
    ensures unpacked { (a : Anchor) → IsPackable a → word ≡ word_of a → result ≡ Some a }
    ensures packable { IfSome result IsPackable }
    ensures packed { IfSome result (λ a. word ≡ word_of a) }
{
    let state = match word % (1 << FIRST_SHIFT) {
        0 => State::Empty,
        1 => State::Partial,
        2 => State::Full,
        _ => return None,
    };
    Some(Anchor {
        state,
        first: anchor_first(word),
        count: anchor_count(word),
    })
}

/// The index of the first free block, of a word of any state.
pub fn anchor_first(word: u64) -> u64
    ensures { result ≡ anchor_first word }
{
    (word >> FIRST_SHIFT) % (1 << FIRST_BITS)
}

/// The count of free blocks, of a word of any state.
pub fn anchor_count(word: u64) -> u64
    ensures { result ≡ anchor_count word }
{
    word >> COUNT_SHIFT
}

/// Whether the word says that some blocks are free, but not all.
pub fn is_partial(word: u64) -> bool
    ensures { (result ≡ true) ↔ (anchor_state word ≡ partial_state) }
{
    match unpack(word) {
        Some(anchor) => match anchor.state {
            State::Partial => true,
            State::Empty | State::Full => false,
        },
        None => false,
    }
}
