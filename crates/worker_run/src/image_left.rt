//! The image that is left of a heap: as it is closed, and as a crash leaves it.
ghost use Rattle.std.specs.Prelude.{◌≡◌, length, map, slice_index};
ghost use Rattle.heap_model.specs.Header.{capacity_of};
ghost use Rattle.heap_model.specs.Durability.{IsCrashImage, IsClosedImage};
ghost use Rattle.crash_image.specs.Crash.{GivesAll, transient_words};
ghost use Rattle.tool_ports.specs.Chances.{ComesFrom};
ghost use Rattle.worker_run.specs.Left.{AreWholeImage};

use crash_image::crash_image;
use line_memory::Chance;
use super_block::{CLEAN, Geometry, STATE_WORD};
use tool_ports::Chances;

/// The image of a heap that is closed, from what loads saw of each word.
pub fn closed_image(mut words: Vec<u64>) -> Vec<u64>
    requires { AreWholeImage words.items }
    ensures image { IsClosedImage (slice_index words.items) (slice_index result.items) }
    ensures long { length result.items ≡ length words.items }
{
    words[STATE_WORD as usize] = CLEAN;
    words
}

/// The words of the chances, as the numbers that a crash leaves at random.
#[derive(Drop)]
pub struct CrashWords<'a, C> {
    pub chances: &'a mut C,
}

impl<C: Chances> Chance for CrashWords<'_, C> {
    ghost draw_gives = { λ old word new. (new.chances.ghost_name ≡ old.chances.ghost_name)
        × C.word_gives old.chances.now word new.chances.now };

    fn draw(&mut self) -> u64 {
        self.chances.word()
    }
}

/// An image that a crash may leave, from what is durable of each word: its list heads, anchors and
/// links are the next words of the chances, in the order of word index.
pub fn left_by_crash<C: Chances>(words: Vec<u64>, geometry: Geometry, chances: &mut C) -> Vec<u64>
    requires whole { AreWholeImage words.items }
    requires layout { geometry.capacity ≡ capacity_of (slice_index words.items) }
    ensures image { IsCrashImage (slice_index words.items) (slice_index result.items) }
    ensures long { length result.items ≡ length words.items }
    ensures chances { ComesFrom C.chance_gives C.word_gives chances.old chances.new }
    ensures drawn { GivesAll C.word_gives chances.old
        (map (slice_index result.items) (transient_words geometry.capacity)) chances.new }
{
    let mut scramble = CrashWords { chances };
    left_by_words(words, geometry, &mut scramble)
}

// The same, with the chances that something else has.
fn left_by_words<C: Chances>(
    words: Vec<u64>,
    geometry: Geometry,
    scramble: &mut CrashWords<'_, C>,
) -> Vec<u64>
    requires whole { AreWholeImage words.items }
    requires layout { geometry.capacity ≡ capacity_of (slice_index words.items) }
    ensures image { IsCrashImage (slice_index words.items) (slice_index result.items) }
    ensures long { length result.items ≡ length words.items }
    ensures same_reference { scramble.new.chances.ghost_name ≡ scramble.old.chances.ghost_name }
    ensures chances { ComesFrom C.chance_gives C.word_gives
        scramble.old.chances.now scramble.new.chances.now }
    ensures drawn { GivesAll C.word_gives scramble.old.chances.now
        (map (slice_index result.items) (transient_words geometry.capacity))
        scramble.new.chances.now }
{
    crash_image(words, geometry, scramble)
}
