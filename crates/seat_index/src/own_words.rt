//! Which words are a seat's own, and how many words a held block has.

ghost use Rattle.std.specs.Prelude.{◌≡◌, ◌<◌, ◌≤◌, ◌↔◌, true};
ghost use Rattle.heap_model.specs.declared.block.Block.{Block};
ghost use Rattle.heap_model.specs.Geometry.{start_word, superblocks_end};
ghost use Rattle.core_model.specs.Cells.{cell_at, data_cell};
ghost use Rattle.core_model.specs.Guards.{IsOwn};
ghost use Rattle.core_model.specs.Held.{IsHeld};
ghost use Rattle.core_model.specs.View.{View};
ghost use Rattle.seat_index.specs.Owned.{IsIndexOf};

use crate::owned::Owned;
use seat_state::{Part, part_at};
use size_table::SizeClass;
use super_block::{Geometry, LAST_CLASS, SUPERBLOCK_WORDS, block_words};

impl Owned {
    /// Whether a word is the seat's own.
    pub fn owns(&self, geometry: Geometry, word: u64) -> bool
        requires { (v : View) × IsIndexOf self.now geometry.capacity v }
        ensures { (v : View) → IsIndexOf self.now geometry.capacity v
            → (result ≡ true) ↔ IsOwn v (cell_at v.setup.capacity word) }
    {
        match part_at(geometry, word) {
            Part::Shared => false,
            Part::Root { i } => self.roots[i as usize],
            Part::Info { d } => self.ownerships[d as usize].is_unclassed(),
            Part::Anchor { d } => self.ownerships[d as usize].is_unclassed(),
            Part::Link { d } => self.ownerships[d as usize].is_claimed(),
            Part::Data { word } => self.owns_data(geometry, word),
        }
    }

    /// Whether a word of a superblock is: all are of one that is claimed without a class or is part
    /// of a large block; of others, those of the seat's small blocks.
    fn owns_data(&self, geometry: Geometry, word: u64) -> bool
        requires index { (v : View) × IsIndexOf self.now geometry.capacity v }
        requires from { start_word geometry.capacity 0 ≤ word }
        requires until { word < superblocks_end geometry.capacity }
        ensures { (v : View) → IsIndexOf self.now geometry.capacity v
            → (result ≡ true) ↔ IsOwn v (data_cell word) }
    {
        let d = geometry.superblock_of(word);
        if self.ownerships[d as usize].has_words() {
            return true;
        }
        let class = self.classes[d as usize];
        if class == 0 {
            return false;
        }
        if class > LAST_CLASS {
            return false;
        }
        let words = block_words(SizeClass::new(class as u8));
        let start = geometry.start(d);
        let block = start + (word - start) / words * words;
        self.blocks.get(block)
    }

    /// How many words the held block has that begins at a word.
    pub fn block_words(&self, geometry: Geometry, first_word: u64) -> u64
        requires { (v : View) × IsIndexOf self.now geometry.capacity v
            × ((b : Block) × IsHeld v b × (first_word ≡ b.first_word)) }
        ensures { (v : View) → IsIndexOf self.now geometry.capacity v
            → (b : Block) → IsHeld v b → first_word ≡ b.first_word → b.words ≡ result }
    {
        let d = geometry.superblock_of(first_word);
        let count = self.ownerships[d as usize].count();
        if count > 0 {
            return SUPERBLOCK_WORDS * count;
        }
        let class = self.classes[d as usize];
        block_words(SizeClass::new(class as u8))
    }
}
