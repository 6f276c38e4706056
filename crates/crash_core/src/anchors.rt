//! The states of anchors.

ghost use Rattle.std.specs.Prelude.{◌≡◌};
ghost use Rattle.heap_model.specs.Words.{anchor_state};

use anchor_word::{State, unpack};

/// The state of an anchor that has all blocks free.
pub(crate) const EMPTY: u64 = State::Empty as u64;

/// The state of an anchor that has some blocks free.
pub(crate) const PARTIAL: u64 = State::Partial as u64;

/// The state of a word that is no anchor.
const NO_STATE: u64 = 3;

/// The state of an anchor, as its number.
pub(crate) fn anchor_state(anchor: u64) -> u64
    ensures { result ≡ anchor_state anchor }
{
    match unpack(anchor) {
        Some(anchor) => anchor.state as u64,
        None => NO_STATE,
    }
}
