//! Which word a call is about.
ghost use Rattle.std.specs.Prelude.{◌≡◌, ◌<◌, ◌^◌};
ghost use Rattle.heap_seat.specs.View.{word_of};

use heap_model::Block;
use super_block::ROOT_WORD;

/// A word that a thread may load and store: one of a block that it holds, or a root that it owns.
#[derive(Clone, Copy, PartialEq, Eq, Debug)]
pub enum Spot {
    /// The word so many words behind the block's first one.
    InBlock(Block, u64),
    /// The root of this number.
    Root(u64),
}

impl Spot {
    /// Its index among the words of the heap. That of a seat's own spot is below the bound.
    pub fn word(self) -> u64
        requires { word_of self < 2 ^ 48 }
        ensures { result ≡ word_of self }
    {
        match self {
            Spot::InBlock(b, index) => b.first_word + index,
            Spot::Root(i) => ROOT_WORD + i,
        }
    }
}
