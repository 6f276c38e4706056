//! The map of a heap: what each superblock is used for.
ghost use Rattle.std.specs.Prelude.{◌≡◌, ◌≤◌, ◌<◌, ◌*◌, ℕ, ◌++◌, AllPairs, length, filter, slice_index, IfOk, OnOk};
ghost use Rattle.std.specs.String.{string_bytes};
ghost use Rattle.std.specs.List.{AllWithin};
ghost use Rattle.heap_model.specs.declared.block.Block.{Block};
ghost use Rattle.heap_model.specs.Header.{IsWellFormed, capacity_of, used_of};
ghost use Rattle.trace_text.specs.HeapMap.{AreInOrder, begins_in, held_indexes, first_of, class_use, inside_use, line_of, use_if, used_line, map_of};

use crate::ranges::write_ranges;
use region_header::Bytes;
use size_table::SizeClass;
use std::alloc::{AllocError, Global};
use super_block::{
    Block, CAPACITY_WORD, Geometry, Info, Ready, SUPERBLOCK_WORDS, USED_WORD, block_words,
};

/// The map of a heap whose free superblocks are these: how many superblocks have been taken, are
/// free and are fresh, and a line for each that has been taken.
pub(crate) fn map_lines(alloc: Global, heap: &Ready, free: &[u32]) -> Result<Bytes, AllocError>
    requires { AllPairs (λ d e. d < e) free.now }
    ensures ok { IfOk result (λ text.
        text ≡ map_of (slice_index heap.now.words) heap.now.held free.now) }
{
    map_of_image(alloc, heap.words(), heap.held(), free)
}

/// The map of an image with a well-formed header, with these held blocks and free superblocks.
pub(crate) fn map_of_image(
    alloc: Global,
    words: &[u64],
    held: &[Block],
    free: &[u32],
) -> Result<Bytes, AllocError>
    requires formed { IsWellFormed (8 * length words.now) (slice_index words.now) }
    requires in_order { AreInOrder held.now }
    requires ascending { AllPairs (λ d e. d < e) free.now }
    ensures ok { IfOk result (λ text. text ≡ map_of (slice_index words.now) held.now free.now) }
{
    let used = words[USED_WORD as usize];
    let mut text = String::new(alloc);
    write_used_line(&mut text, words, free)?;
    // The list is walked alongside: those below `d` stand in front of `next`.
    let mut next = 0;
    for d in 0..used {
        let is_free = next < free.len() && u64::from(free[next]) == d;
        write_superblock_line(&mut text, words, held, is_free, d)?;
        if is_free {
            next += 1;
        }
    }
    Ok(Bytes::from_vec(text.into_bytes()))
}

fn write_used_line(text: &mut String, words: &[u64], free: &[u32]) -> Result<(), AllocError>
    requires { IsWellFormed (8 * length words.now) (slice_index words.now) }
    ensures ok { OnOk result (string_bytes text.new
        ≡ string_bytes text.old ++ used_line (slice_index words.now) free.now) }
{
    let used = words[USED_WORD as usize];
    let fresh = words[CAPACITY_WORD as usize] - used;
    let free = free.len();
    writeln!(text, "used {used} free {free} fresh {fresh}")
}

fn write_superblock_line(
    text: &mut String,
    words: &[u64],
    held: &[Block],
    is_free: bool,
    d: u64,
) -> Result<(), AllocError>
    requires formed { IsWellFormed (8 * length words.now) (slice_index words.now) }
    requires taken { d < used_of (slice_index words.now) }
    requires in_order { AreInOrder held.now }
    ensures ok { OnOk result (string_bytes text.new
        ≡ string_bytes text.old ++ line_of d (use_if is_free (slice_index words.now) held.now d)) }
{
    if is_free {
        return writeln!(text, "sb {d} free");
    }
    let geometry = Geometry::new(words[CAPACITY_WORD as usize]);
    match Info::unpack(words[geometry.info(d) as usize]) {
        Info::Class(class) => write_class_line(text, geometry, class, held, d),
        Info::Large(superblocks) => writeln!(text, "sb {d} large {superblocks}"),
        Info::Nothing => {
            let first = first_superblock(geometry, held, d);
            write_inside_line(text, d, first)
        }
    }
}

/// The line of superblock `d`, which is cut for the class.
fn write_class_line(
    text: &mut String,
    geometry: Geometry,
    class: SizeClass,
    held: &[Block],
    d: u64,
) -> Result<(), AllocError>
    requires superblock { d < geometry.capacity }
    requires in_order { AreInOrder held.now }
    ensures ok { OnOk result (string_bytes text.new
        ≡ string_bytes text.old ++ line_of d
        (class_use geometry.capacity class.number held.now d)) }
{
    let alloc = *text.allocator();
    let indexes = indexes_in(alloc, geometry, class, held, d)?;
    let number = class.number;
    write!(text, "sb {d} class {number} held")?;
    write_ranges(text, &indexes)?;
    writeln!(text)
}

/// The indexes of the held blocks of superblock `d`, which is cut for the class.
fn indexes_in(
    alloc: Global,
    geometry: Geometry,
    class: SizeClass,
    held: &[Block],
    d: u64,
) -> Result<Vec<u64>, AllocError>
    requires superblock { d < geometry.capacity }
    requires in_order { AreInOrder held.now }
    ensures ok { IfOk result (λ indexes.
        indexes.items ≡ held_indexes geometry.capacity class.number d held.now) }
{
    let start = geometry.start(d);
    let words = block_words(class);
    begun_in(geometry, held, d)
        .iter()
        .map(|block| block.first_word.saturating_sub(start) / words)
        .collect(alloc)
}

/// The held blocks that begin in superblock `d`.
fn begun_in<'a>(geometry: Geometry, held: &'a [Block], d: u64) -> &'a [Block]
    requires superblock { d < geometry.capacity }
    requires in_order { AreInOrder held.now }
    ensures { result.now ≡ filter (begins_in geometry.capacity d) held.now }
{
    let start = geometry.start(d);
    let from = count_before(held, start);
    let until = count_before(held, start + SUPERBLOCK_WORDS);
    &held[from..until]
}

fn write_inside_line(text: &mut String, d: u64, first: u64) -> Result<(), AllocError>
    ensures ok { OnOk result
        (string_bytes text.new ≡ string_bytes text.old ++ line_of d (inside_use first)) }
{
    writeln!(text, "sb {d} inside {first}")
}

/// The first superblock of the held large block that goes on into superblock `d`.
fn first_superblock(geometry: Geometry, held: &[Block], d: u64) -> u64
    requires superblock { d < geometry.capacity }
    requires in_order { AreInOrder held.now }
    ensures { result ≡ first_of geometry.capacity d held.now }
{
    let start = geometry.start(d);
    let before = count_before(held, start);
    if before == 0 {
        return 0;
    }
    let block = held[before - 1];
    if start - block.first_word < block.words {
        block.first_word.saturating_sub(geometry.start(0)) / SUPERBLOCK_WORDS
    } else {
        0
    }
}

/// How many of the held blocks begin before the word.
fn count_before(held: &[Block], word: u64) -> usize
    requires { AreInOrder held.now }
    ensures bound { result ≤ length held.now }
    ensures before { AllWithin (λ (b : Block). b.first_word < word) held.now 0 result }
    ensures behind { AllWithin (λ (b : Block). word ≤ b.first_word) held.now result
        (length held.now) }
{
    held.partition_point(|block| block.first_word < word)
}
