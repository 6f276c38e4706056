//! Which words are a seat's own, and which block begins at a word, as a seat answers it.

ghost use Rattle.std.specs.Prelude.{◌≡◌, ◌↔◌, ◌*◌, true};
ghost use Rattle.heap_model.specs.declared.block.Block.{Block};
ghost use Rattle.core_model.specs.Cells.{cell_at};
ghost use Rattle.core_model.specs.Guards.{IsOwn};
ghost use Rattle.core_model.specs.Held.{IsHeld};
ghost use Rattle.heap_rule.specs.Seated.{IsSeatOf};

use crate::seat::Seat;
use heap_table::Shared;
use super_block::{Block, WORD_BYTES};

impl Seat {
    /// Whether a word is the seat's own.
    pub(crate) fn owns(&self, word: u64) -> bool
        ensures { (result ≡ true)
            ↔ IsOwn self.now.view (cell_at self.now.view.setup.capacity word) }
    {
        self.owned.owns(self.geometry, word)
    }

    /// The held block that begins at a byte offset; asked of a seat that has stopped too.
    pub fn block(&self, shared: &Shared, offset: u64) -> Block
        requires seat { IsSeatOf shared.now self.now }
        requires held { (b : Block) × IsHeld self.now.view b × (8 * b.first_word ≡ offset) }
        ensures held { IsHeld self.now.view result }
        ensures at { 8 * result.first_word ≡ offset }
        ensures only { (b : Block) → IsHeld self.now.view b → 8 * b.first_word ≡ offset
            → b ≡ result }
    {
        let _seats = shared;
        let first_word = offset / WORD_BYTES;
        let words = self.block_words(first_word);
        Block { first_word, words }
    }

    /// How many words the held block has that begins at a word.
    fn block_words(&self, first_word: u64) -> u64
        requires { (b : Block) × IsHeld self.now.view b × (first_word ≡ b.first_word) }
        ensures { (b : Block) → IsHeld self.now.view b → first_word ≡ b.first_word
            → b.words ≡ result }
    {
        self.owned.block_words(self.geometry, first_word)
    }
}
