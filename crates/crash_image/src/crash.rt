//! Puts what a crash leaves at random in the place of words without a durable value.
ghost use Rattle.std.specs.Prelude.{◌≡◌, ◌<◌, ◌≤◌, ℕ, length, map, slice_index};
ghost use Rattle.heap_model.specs.Geometry.{fixed_words, image_words, lists};
ghost use Rattle.heap_model.specs.Header.{capacity_of};
ghost use Rattle.heap_model.specs.Durability.{IsCrashImage};
ghost use Rattle.crash_image.specs.Crash.{GivesAll, IsLeft, descriptors_below, heads_below, transient_words};

use line_memory::Chance;
use super_block::{DIRTY, Geometry, HEAD_WORD, LISTS, STATE_WORD};

/// An image that a crash may leave, of what is durable of each word: a dirty state, and in the
/// heads, anchors and links, of which nothing is promised, the numbers of `scramble`, in the order
/// of word index.
pub fn crash_image<C: Chance>(mut words: Vec<u64>, geometry: Geometry, scramble: &mut C) -> Vec<u64>
    requires long { length words.items ≡ image_words geometry.capacity }
    requires layout { geometry.capacity ≡ capacity_of (slice_index words.items) }
    ensures image { IsCrashImage (slice_index words.items) (slice_index result.items) }
    ensures long { length result.items ≡ length words.items }
    ensures drawn { GivesAll C.draw_gives scramble.old
        (map (slice_index result.items) (transient_words geometry.capacity)) scramble.new }
{
    words[STATE_WORD as usize] = DIRTY;
    scramble_heads(&mut words, scramble);
    scramble_descriptors(&mut words, geometry, scramble);
    words
}

/// Any heads.
fn scramble_heads<C: Chance>(image: &mut Vec<u64>, scramble: &mut C)
    requires { image_words 0 ≤ length image.old.items }
    ensures left { (capacity : ℕ) → IsLeft capacity image.old.items image.new.items }
    ensures drawn { GivesAll C.draw_gives scramble.old
        (map (slice_index image.new.items) (heads_below lists)) scramble.new }
{
    for list in 0..LISTS {
        image[(HEAD_WORD + list) as usize] = scramble.draw();
    }
}

/// Any anchors and links.
fn scramble_descriptors<C: Chance>(image: &mut Vec<u64>, geometry: Geometry, scramble: &mut C)
    requires { length image.old.items ≡ image_words geometry.capacity }
    ensures left { IsLeft geometry.capacity image.old.items image.new.items }
    ensures heads { (word : ℕ) → word < fixed_words
        → slice_index image.new.items word ≡ slice_index image.old.items word }
    ensures drawn { GivesAll C.draw_gives scramble.old
        (map (slice_index image.new.items) (descriptors_below geometry.capacity)) scramble.new }
{
    for d in 0..geometry.capacity() {
        image[geometry.anchor(d) as usize] = scramble.draw();
        image[geometry.link(d) as usize] = scramble.draw();
    }
}
