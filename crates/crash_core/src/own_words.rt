//! Which words are a seat's own.

ghost use Rattle.std.specs.Prelude.{◌<◌, ◌≤◌, length};
ghost use Rattle.heap_model.specs.Geometry.{start_word, superblocks_end};
ghost use Rattle.core_model.specs.Cells.{cell_at, data_cell};
ghost use Rattle.core_model.specs.Guards.{IsOwn};
ghost use Rattle.crash_core.specs.Standing.{IsCore, Decides};

use crate::reads::info;
use crate::state::CoreState;
use crate::usages::{place, usage};
use seat_state::{Part, part_at};
use size_table::SizeClass;
use super_block::{LAST_CLASS, block_words};

/// Whether the word is the seat's own.
pub(crate) fn is_own(core: &CoreState, seat: usize, word: u64) -> bool
    requires core { IsCore core.now }
    requires seat { seat < length core.now.seats.items }
    ensures { Decides core.now seat (λ m v. IsOwn v (cell_at v.setup.capacity word)) result }
{
    match part_at(core.geometry, word) {
        Part::Shared => false,
        Part::Root { i } => core.roots[i as usize] as usize == seat,
        Part::Info { d } => usage(core, seat, d).is_unclassed(),
        Part::Anchor { d } => usage(core, seat, d).is_unclassed(),
        Part::Link { d } => usage(core, seat, d).is_claimed(),
        Part::Data { word } => is_own_data(core, seat, word),
    }
}

/// Whether a word of a superblock is: all are of one that is claimed without a class or is part of
/// a large block; of a superblock that is cut, those of the seat's blocks.
fn is_own_data(core: &CoreState, seat: usize, word: u64) -> bool
    requires core { IsCore core.now }
    requires seat { seat < length core.now.seats.items }
    requires from { start_word core.now.geometry.capacity 0 ≤ word }
    requires until { word < superblocks_end core.now.geometry.capacity }
    ensures { Decides core.now seat (λ m v. IsOwn v (data_cell word)) result }
{
    let d = core.geometry.superblock_of(word);
    if usage(core, seat, d).has_words() {
        return true;
    }
    let class = info(core, d);
    if class == 0 {
        return false;
    }
    if class > LAST_CLASS {
        return false;
    }
    let words = block_words(SizeClass::new(class as u8));
    let start = core.geometry.start(d);
    let block = start + (word - start) / words * words;
    place(core, seat, block).is_somewhere()
}
