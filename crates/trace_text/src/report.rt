//! The report on a heap that was read.
ghost use Rattle.std.specs.Prelude.{◌≡◌, ◌≤◌, ◌*◌, ◌^◌, ◌<◌, ℕ, List, ◌++◌, codes, filter, nat_le, option_copied, IfOk, OnOk};
ghost use Rattle.std.specs.String.{string_bytes};
ghost use Rattle.std.specs.List.{flat_map, range_with_len};
ghost use Rattle.heap_model.specs.Geometry.{largest_capacity, superblock_words};
ghost use Rattle.trace_text.specs.Report.{classes, heap_line_of, count_of, count_line, class_line, large_line};
ghost use Rattle.trace_text.specs.Keys.{IsReport, WritesKeys};
ghost use Rattle.trace_text.specs.Sizes.{CountAlike};

use crate::keys::write_keys;
use crate::sizes::{SizeRun, count_in, size_runs};
use region_header::Bytes;
use size_table::{SizeClass, size_of};
use std::alloc::{AllocError, Global};
use std::collections::BTreeMap;
use super_block::{Block, LAST_CLASS, SUPERBLOCK_WORDS, block_words};

/// The first line of a report: the capacity of the image, and whether it was closed.
pub fn heap_line(alloc: Global, capacity: u64, clean: bool) -> Result<Bytes, AllocError>
    ensures ok { IfOk result (λ text. text ≡ heap_line_of capacity clean) }
{
    let mut text = String::new(alloc);
    write_heap_line(&mut text, capacity, clean)?;
    Ok(Bytes::from_vec(text.into_bytes()))
}

/// The report on a heap of `capacity` superblocks with these held blocks: its first line, what is
/// told of the keys of maps, and how many blocks of each size are held, smaller sizes first.
pub(crate) fn report_of_blocks(
    alloc: Global,
    capacity: u64,
    clean: bool,
    maps: Option<&[BTreeMap<u64, Bytes>]>,
    sum: bool,
    held: &[Block],
) -> Result<Bytes, AllocError>
    requires { capacity ≤ largest_capacity }
    ensures ok { IfOk result (IsReport capacity clean (option_copied maps.entry) sum held.now) }
{
    let mut text = String::new(alloc);
    write_heap_line(&mut text, capacity, clean)?;
    write_maps(&mut text, maps, sum)?;
    write_class_lines(alloc, &mut text, held)?;
    write_large_lines(alloc, &mut text, held, capacity)?;
    Ok(Bytes::from_vec(text.into_bytes()))
}

/// What is told of the keys of maps, if there are maps.
fn write_maps(
    text: &mut String,
    maps: Option<&[BTreeMap<u64, Bytes>]>,
    sum: bool,
) -> Result<(), AllocError>
    ensures ok { OnOk result (WritesKeys (option_copied maps.entry) sum
        (string_bytes text.old) (string_bytes text.new)) }
{
    match maps {
        Some(maps) => write_keys(text, maps, sum),
        None => Ok(()),
    }
}

fn write_heap_line(text: &mut String, capacity: u64, clean: bool) -> Result<(), AllocError>
    ensures ok { OnOk result
        (string_bytes text.new ≡ string_bytes text.old ++ heap_line_of capacity clean) }
{
    let state = if clean { "clean" } else { "dirty" };
    writeln!(text, "heap {capacity} {state}")
}

/// The blocks that take superblocks of their own.
fn large_blocks(alloc: Global, held: &[Block]) -> Result<Vec<Block>, AllocError>
    ensures ok { IfOk result (λ large.
        large.items ≡ filter (λ b. nat_le superblock_words b.words) held.now) }
{
    held.iter()
        .copied()
        .filter(|block| SUPERBLOCK_WORDS <= block.words)
        .collect(alloc)
}

fn write_class_lines(alloc: Global, text: &mut String, held: &[Block]) -> Result<(), AllocError>
    ensures ok { OnOk result (string_bytes text.new
        ≡ string_bytes text.old ++ flat_map (class_line held.now) classes) }
{
    let runs = size_runs(alloc, held)?;
    for class in 1..=LAST_CLASS as u8 {
        write_class_line(text, held, &runs, SizeClass::new(class))?;
    }
    Ok(())
}

/// The line of a class, of held blocks that are counted in these runs.
fn write_class_line(
    text: &mut String,
    _held: &[Block],
    runs: &[SizeRun],
    class: SizeClass,
) -> Result<(), AllocError>
    requires counted { CountAlike _held.now runs.now }
    ensures ok { OnOk result
        (string_bytes text.new ≡ string_bytes text.old ++ class_line _held.now class.number) }
{
    let bytes = size_of(class.number);
    let count = count_in(runs, block_words(class));
    if count == 0 {
        return Ok(());
    }
    writeln!(text, "held {bytes} {count}")
}

/// The lines of the large blocks, of which there is at most one for each superblock.
fn write_large_lines(
    alloc: Global,
    text: &mut String,
    held: &[Block],
    capacity: u64,
) -> Result<(), AllocError>
    requires { capacity ≤ largest_capacity }
    ensures ok { OnOk result (string_bytes text.new
        ≡ string_bytes text.old ++ flat_map (large_line held.now) (range_with_len 1 capacity)) }
{
    let large = large_blocks(alloc, held)?;
    for superblocks in 1..capacity + 1 {
        write_large_line(text, &large, superblocks)?;
    }
    Ok(())
}

fn write_large_line(text: &mut String, large: &[Block], superblocks: u64) -> Result<(), AllocError>
    requires { superblocks ≤ largest_capacity }
    ensures ok { OnOk result
        (string_bytes text.new ≡ string_bytes text.old ++ large_line large.now superblocks) }
{
    let count = count_of(large, SUPERBLOCK_WORDS * superblocks);
    if count == 0 {
        return Ok(());
    }
    writeln!(text, "held large {superblocks} {count}")
}

/// How many of the blocks have so many words.
fn count_of(blocks: &[Block], words: u64) -> usize
    ensures { result ≡ count_of words blocks.now }
{
    blocks.iter().filter(|block| block.words == words).count()
}
