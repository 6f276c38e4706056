//! The header of an image, and what can be wrong with it.
#![tactic(auto, using(std::proofs::lemmas::Bool::Decides::nat_tests, super_block::proofs::ConstantLemmas::largest_capacity_is, heap_model::specs::Geometry::largest_capacity_fits), unfolding(heap_model::specs::Header::header_fault, heap_model::specs::Header::has_fault))]

ghost use Rattle.std.specs.Prelude.{◌≡◌, ◌↔◌, ◌+◌, ◌*◌, ◌<◌, ◌≤◌, ℕ, length, slice_index, nat_eq, cond, All, IsTrue, IfOk, OnOk, IfSome, None};
ghost use Rattle.std.specs.Result.{result_err};
ghost use Rattle.heap_model.specs.Geometry.{fixed_words, old_version, largest_capacity, largest_old_capacity, old_image_words, image_words};
ghost use Rattle.heap_model.specs.Image.{Image, image_of_bytes};
ghost use Rattle.heap_model.specs.Header.{header_fault, HasGoodHeader};
ghost use Rattle.region_header.specs.Header.{IsHeaderOf, HasStored};

use byteorder::{ByteOrder, LittleEndian};
use heap_model::BadHeader;
use super_block::{
    CAPACITY_WORD, CLEAN, DIRTY, FIXED_WORDS, Geometry, LARGEST_CAPACITY, LARGEST_OLD_CAPACITY,
    MAGIC, MAGIC_WORD, OLD_VERSION, ROOTS, STATE_WORD, USED_WORD, VERSION, VERSION_WORD,
    WORD_BYTES,
};

/// What the header of an image tells.
#[derive(Clone, Copy, PartialEq, Eq, Debug)]
pub struct Header {
    /// The version of the image's format.
    pub version: u64,
    /// How many superblocks the image has.
    pub capacity: u64,
    /// Whether the image was closed.
    pub clean: bool,
    /// The superblocks below this one have been taken.
    pub used: u64,
}

/// How many words there are up to the last one of the header.
const HEADER_WORDS: usize = USED_WORD as usize + 1;

/// The header of the image in the bytes of a file, or the first of the causes that make it bad, in
/// the order of `BadHeader`. A file of any length may be given. Where `kinds` is a number, the kind
/// that the image stores for each root has to be below it.
pub fn check_bytes(bytes: &[u8], kinds: Option<u32>) -> Result<Header, BadHeader>
    ensures cause { result_err result
        ≡ header_fault kinds (length bytes.now) (image_of_bytes bytes.now) }
    ensures good { OnOk result
        (HasGoodHeader kinds (length bytes.now) (image_of_bytes bytes.now)) }
    ensures ok { IfOk result (λ header. IsHeaderOf header (image_of_bytes bytes.now)) }
{
    let size = bytes.len() as u64;
    if size < WORD_BYTES * FIXED_WORDS {
        return Err(BadHeader::Short);
    }
    let mut words = [0; HEADER_WORDS];
    LittleEndian::read_u64_into(&bytes[..WORD_BYTES as usize * HEADER_WORDS], &mut words);
    let header = check(size, &words)?;
    if header.version == OLD_VERSION {
        return Ok(header);
    }
    let from = WORD_BYTES * Geometry::new(header.capacity).kind(0);
    let mut stored = [0; ROOTS as usize];
    LittleEndian::read_u64_into(&bytes[from as usize..], &mut stored);
    check_kinds(header, &stored, kinds)
}

/// The same for an image in words.
pub fn read_header(words: &[u64], kinds: Option<u32>) -> Result<Header, BadHeader>
    ensures cause { result_err result
        ≡ header_fault kinds (8 * length words.now) (slice_index words.now) }
    ensures good { OnOk result
        (HasGoodHeader kinds (8 * length words.now) (slice_index words.now)) }
    ensures ok { IfOk result (λ header. IsHeaderOf header (slice_index words.now)) }
{
    let size = WORD_BYTES * words.len() as u64;
    if size < WORD_BYTES * FIXED_WORDS {
        return Err(BadHeader::Short);
    }
    let header = check(size, words)?;
    if header.version == OLD_VERSION {
        return Ok(header);
    }
    let from = Geometry::new(header.capacity).kind(0);
    check_kinds(header, &words[from as usize..], kinds)
}

// The check of an image of `size` bytes, header and roots at least, that begins with these words:
// of all but the kinds of the roots.
fn check(size: u64, words: &[u64]) -> Result<Header, BadHeader>
    requires long { 8 * fixed_words ≤ size }
    requires whole { HEADER_WORDS ≤ length words.now }
    ensures cause { result_err result ≡ header_fault None size (slice_index words.now) }
    ensures ok { IfOk result (λ header. IsHeaderOf header (slice_index words.now)) }
{
    let version = words[VERSION_WORD as usize];
    let capacity = words[CAPACITY_WORD as usize];
    let state = words[STATE_WORD as usize];
    let used = words[USED_WORD as usize];
    if words[MAGIC_WORD as usize] != MAGIC {
        Err(BadHeader::Magic)
    } else if version != OLD_VERSION && version != VERSION {
        Err(BadHeader::Version)
    } else if capacity == 0 || capacity > most_superblocks(version) {
        Err(BadHeader::Capacity)
    } else if size != WORD_BYTES * whole_words(version, capacity) {
        Err(BadHeader::Length)
    } else if state != CLEAN && state != DIRTY {
        Err(BadHeader::State)
    } else if used > capacity {
        Err(BadHeader::Used)
    } else {
        Ok(Header {
            version,
            capacity,
            clean: state == CLEAN,
            used,
        })
    }
}

// The greatest capacity of an image of the version.
fn most_superblocks(version: u64) -> u64
    ensures { result ≡ cond (nat_eq version old_version) largest_old_capacity largest_capacity }
{
    if version == OLD_VERSION {
        LARGEST_OLD_CAPACITY
    } else {
        LARGEST_CAPACITY
    }
}

// How many words an image of the version has.
fn whole_words(version: u64, capacity: u64) -> u64
    requires some { 1 ≤ capacity }
    requires small { capacity ≤ largest_capacity }
    ensures { result
        ≡ cond (nat_eq version old_version) (old_image_words capacity) (image_words capacity) }
{
    let geometry = Geometry::new(capacity);
    if version == OLD_VERSION {
        geometry.old_length()
    } else {
        geometry.length()
    }
}

// The check of the kinds that an image stores, whose header is else good.
fn check_kinds(header: Header, stored: &[u64], limit: Option<u32>) -> Result<Header, BadHeader>
    ensures cause { (size : ℕ) (image : Image) → HasStored header stored.now size image
        → result_err result ≡ header_fault limit size image }
    ensures good { (size : ℕ) (image : Image) → HasStored header stored.now size image
        → OnOk result (HasGoodHeader limit size image) }
    ensures ok { IfOk result (λ same. same ≡ header) }
{
    if are_below(stored, limit) {
        Ok(header)
    } else {
        Err(BadHeader::Kind)
    }
}

// Whether each of the kinds is below the limit, if there is one.
fn are_below(kinds: &[u64], limit: Option<u32>) -> bool
    ensures { IsTrue result ↔ IfSome limit (λ most. All (λ kind. kind < most) kinds.now) }
{
    if let Some(most) = limit {
        for i in 0..kinds.len() {
            if kinds[i] >= most as u64 {
                return false;
            }
        }
    }
    true
}
