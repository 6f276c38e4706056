//! The roots, one word each, behind the header (after Ralloc's persistent roots), and their kinds.

ghost use Rattle.std.specs.Prelude.{◌≡◌, ◌<◌, ◌≤◌, ◌^◌, ℕ, length, slice_index, slice_set};
ghost use Rattle.heap_model.specs.Geometry.{roots, root_word, kind_word, fixed_words, image_words};
ghost use Rattle.heap_model.specs.Header.{capacity_of, kinds_of};

use super_block::{ROOT_WORD, ROOTS};

/// The word of root `i`, in the words of an image.
pub fn root(words: &[u64], i: usize) -> u64
    requires is_root { i < roots }
    requires has_roots { fixed_words ≤ length words.now }
    ensures { result ≡ slice_index words.now (root_word i) }
{
    words[ROOT_WORD as usize + i]
}

/// Makes `word` root `i`, in the words of an image.
pub fn set_root(words: &mut [u64], i: usize, word: u64)
    requires is_root { i < roots }
    requires has_roots { fixed_words ≤ length words.old }
    ensures { words.new ≡ slice_set words.old (root_word i) word }
{
    words[ROOT_WORD as usize + i] = word;
}

/// The kind of root `i`, in the words of an image of this version.
pub fn kind(words: &[u64], i: usize) -> u64
    requires is_root { i < roots }
    requires whole { length words.now ≡ image_words (capacity_of (slice_index words.now)) }
    ensures { result ≡ kinds_of (slice_index words.now) i }
{
    words[kind_place(words, i)]
}

/// Makes `kind` the kind of root `i`, in the words of an image of this version.
pub fn set_kind(words: &mut [u64], i: usize, kind: u32)
    requires is_root { i < roots }
    requires whole { length words.old ≡ image_words (capacity_of (slice_index words.old)) }
    ensures { words.new
        ≡ slice_set words.old (kind_word (capacity_of (slice_index words.old)) i) kind }
{
    words[kind_place(words, i)] = kind as u64;
}

/// The kinds of all roots, in the words of an image of this version.
pub fn kinds(words: &[u64]) -> [u32; ROOTS as usize]
    requires whole { length words.now ≡ image_words (capacity_of (slice_index words.now)) }
    requires fit { (i : ℕ) → i < roots → kinds_of (slice_index words.now) i < 2 ^ 32 }
    ensures { (i : ℕ) → i < roots → slice_index result i ≡ kinds_of (slice_index words.now) i }
{
    let mut kinds = [0; ROOTS as usize];
    for i in 0..ROOTS as usize {
        kinds[i] = kind(words, i) as u32;
    }
    kinds
}

/// Where the kind of root `i` stands: the kinds are the last words.
fn kind_place(words: &[u64], i: usize) -> usize
    requires is_root { i < roots }
    requires whole { length words.now ≡ image_words (capacity_of (slice_index words.now)) }
    ensures { result ≡ kind_word (capacity_of (slice_index words.now)) i }
{
    words.len() - ROOTS as usize + i
}
