//! The image that a dictionary leaves.
ghost use Rattle.std.specs.Prelude.{◌≡◌, ◌≢◌, ◌*◌, ◌⊎◌, length, map, slice_index};
ghost use Rattle.heap_model.specs.Durability.{IsCrashImage};
ghost use Rattle.heap_model.specs.Geometry.{clean, dirty};
ghost use Rattle.heap_model.specs.Header.{capacity_of, state_of};
ghost use Rattle.region_header.specs.Words.{AreWordsOf};
ghost use Rattle.crash_image.specs.Crash.{GivesAll, transient_words};
ghost use Rattle.tool_ports.specs.Seeded.{GivesWord};
ghost use Rattle.worker_run.specs.Left.{AreWholeImage};
ghost use Rattle.c_dictionary.specs.Images.{IsImageOf, IsMixing, IsScrambledBy};
ghost use Rattle.c_dictionary.specs.Ready.{IsSound, HasStopped};

use crate::handle::GOING;
use crate::store::Store;
use byteorder::{ByteOrder, LittleEndian};
use line_memory::{Chance, Closed};
use super_block::{CAPACITY_WORD, Geometry};
use tool_ports::{Chances, SeededChance, SeededChances};
use worker_run::{closed_image, left_by_crash};

/// The image that a close leaves.
pub fn words_of_close(store: Store) -> Vec<u64>
    requires { IsSound store }
    ensures image { IsImageOf store result.items }
    ensures long { 8 * length result.items ≡ store.length }
    ensures clean { state_of (slice_index result.items) ≡ clean }
{
    let Closed { now, .. } = store.heap.finish();
    closed_image(now)
}

// Whether a word was written back early: what a crash may find of it.
fn pick(kept: u64, now: u64, chance: &mut SeededChance) -> u64
    ensures { (result ≡ now) ⊎ (result ≡ kept) }
{
    if kept != now && chance.draw() % 2 == 1 {
        now
    } else {
        kept
    }
}

// The words as a crash may find them: each was written back early or not, as the chance says.
fn mix(mut kept: Vec<u64>, now: &[u64], chance: &mut SeededChance) -> Vec<u64>
    requires { length now.now ≡ length kept.items }
    ensures { IsMixing now.now kept.items result.items }
{
    for i in 0..kept.len() {
        kept[i] = pick(kept[i], now[i], chance);
    }
    kept
}

// A crash of these words, by the chances.
fn crash_by(words: Vec<u64>, chances: &mut SeededChances) -> Vec<u64>
    requires { AreWholeImage words.items }
    ensures image { IsCrashImage (slice_index words.items) (slice_index result.items) }
    ensures long { length result.items ≡ length words.items }
    ensures drawn { GivesAll GivesWord chances.old (map (slice_index result.items)
        (transient_words (capacity_of (slice_index words.items)))) chances.new }
{
    let geometry = Geometry::new(words[CAPACITY_WORD as usize]);
    left_by_crash(words, geometry, chances)
}

/// An image that a crash may leave: the seed decides which words were written back early, and what
/// stands where a crash promises nothing.
pub fn words_of_crash(store: Store, seed: u64) -> Vec<u64>
    requires { IsSound store }
    ensures image { IsImageOf store result.items }
    ensures long { 8 * length result.items ≡ store.length }
    ensures dirty { state_of (slice_index result.items) ≡ dirty }
    ensures seeded { IsScrambledBy seed (slice_index result.items) }
{
    let mut chances = SeededChances::new();
    chances.seed(seed);
    let mut early = chances.chance(0);
    let Closed { now, kept } = store.heap.finish();
    let words = mix(kept, &now, &mut early);
    crash_by(words, &mut chances)
}

/// The image that is left of a dictionary in this state: that of a close or, where it has stopped,
/// of a crash.
pub fn words_left(store: Store, state: u64) -> Vec<u64>
    requires sound { IsSound store }
    requires halted { state ≢ 1 → HasStopped store }
    ensures image { IsImageOf store result.items }
    ensures long { 8 * length result.items ≡ store.length }
    ensures clean { HasStopped store ⊎ (state_of (slice_index result.items) ≡ clean) }
{
    if state == GOING {
        words_of_close(store)
    } else {
        words_of_crash(store, 0)
    }
}

/// Writes the words into a room of as many bytes.
pub fn put_words(words: &[u64], room: &mut [u8])
    requires { length room.old ≡ 8 * length words.now }
    ensures { AreWordsOf words.now room.new }
{
    LittleEndian::write_u64_into(words, room);
}
