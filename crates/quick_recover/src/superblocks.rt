//! What the descriptor of a superblock tells of it.
ghost use Rattle.std.specs.Prelude.{◌≡◌, ◌↔◌, ◌+◌, ◌<◌, ◌≤◌, ℕ, true, IfOk, MatchOption, length, slice_index};
ghost use Rattle.heap_model.specs.Geometry.{info_word};
ghost use Rattle.heap_model.specs.Image.{Image};
ghost use Rattle.heap_model.specs.Header.{capacity_of, used_of};
ghost use Rattle.heap_model.specs.Sizes.{blocks_of};
ghost use Rattle.heap_model.specs.Blocks.{layout_of};
ghost use Rattle.heap_at_rest.specs.Orderly.{IsHeldByAnchors, HasOrderlyAnchor};
ghost use Rattle.heap_recover.specs.Marked.{GoOnTo, AreParted};
ghost use Rattle.quick_recover.specs.Anchored.{IsReadable, IsDisorderly, HasFreeList, IsNotFreed, IsWhole, IsToldBy, IsReadAs};

use crate::chains::{FreeBlocks, free_blocks};
use bit_marks::BitMarks;
use heap_recover::{Role, SuperblockBlocks, Survey, survey_parts};
use size_table::{SizeClass, blocks_of};
use std::alloc::{AllocError, Global};
use super_block::{Block, Geometry, Info, SUPERBLOCK_WORDS, block_at};

/// Reads what superblock `d` of the `used` ones that have been taken holds, to which large blocks
/// of lower ones go on up to `end`, or `None` where its descriptor can't be relied on. `free` has
/// the superblocks of the free list.
pub fn read_superblock(
    alloc: Global,
    words: &[u64],
    geometry: &Geometry,
    d: u64,
    used: u64,
    end: u64,
    free: &BitMarks,
) -> Result<Option<Survey>, AllocError>
    requires readable { IsReadable words.now geometry.now.capacity used }
    requires taken { d < used }
    requires listed { HasFreeList (slice_index words.now) free.now }
    requires goes_on { GoOnTo (layout_of (slice_index words.now))
        (IsHeldByAnchors (slice_index words.now)) d end }
    ensures ok { IfOk result (λ found. MatchOption found (IsDisorderly (slice_index words.now))
        (IsReadAs (slice_index words.now) d)) }
{
    if free.get(d) {
        return Ok(Some(Survey::without_blocks(alloc, Role::Free, end)));
    }
    match Info::unpack(words[geometry.info(d) as usize]) {
        Info::Nothing => {
            if d < end {
                return Ok(Some(Survey::without_blocks(alloc, Role::Large, end)));
            }
            Ok(None)
        }
        Info::Class(class) => read_class(alloc, words, geometry, d, class, end),
        Info::Large(count) => {
            if !is_whole(words, geometry, d, count, used, free) {
                return Ok(None);
            }
            let block = Block {
                first_word: geometry.start(d),
                words: SUPERBLOCK_WORDS * count,
            };
            Ok(Some(Survey {
                role: Role::Large,
                held: vec![in alloc; block]?,
                spares: Vec::new(alloc),
                end: d + count,
            }))
        }
    }
}

/// Whether superblock `d` may begin a large block of so many superblocks that was not freed: all
/// of them have been taken, and those behind the first have no info and are not in the free list.
fn is_whole(
    words: &[u64],
    geometry: &Geometry,
    d: u64,
    count: u64,
    used: u64,
    free: &BitMarks,
) -> bool
    requires readable { IsReadable words.now geometry.now.capacity used }
    requires taken { d < used }
    requires marks { length free.now ≡ used }
    ensures { (result ≡ true) ↔ IsWhole (slice_index words.now) free.now d count }
{
    if count > used - d {
        return false;
    }
    for e in d + 1..d + count {
        if words[geometry.info(e) as usize] != 0 || free.get(e) {
            return false;
        }
    }
    true
}

/// The same of superblock `d`, of the class, that is not in the free list.
fn read_class(
    alloc: Global,
    words: &[u64],
    geometry: &Geometry,
    d: u64,
    class: SizeClass,
    end: u64,
) -> Result<Option<Survey>, AllocError>
    ghost image: { Image }
    requires image { slice_index words.now ≡ image }
    requires readable { IsReadable words.now geometry.now.capacity (used_of image) }
    requires outside { IsNotFreed image d }
    requires info { image (info_word d) ≡ class.number }
    requires goes_on { GoOnTo (layout_of image) (IsHeldByAnchors image) d end }
    ensures ok { IfOk result (λ found. MatchOption found
        (HasOrderlyAnchor image class.number d → ⊥) (IsReadAs image d)) }
{
    match free_blocks(alloc, words, geometry, d, class)? {
        None => Ok(None),
        Some(FreeBlocks::All) => Ok(Some(Survey::without_blocks(alloc, Role::Free, end))),
        Some(FreeBlocks::Marked(marks)) => {
            let parts = part_blocks(alloc, geometry, d, class, &marks)?;
            Ok(Some(survey_parts(alloc, class, parts, end)))
        }
    }
}

/// Parts the blocks of superblock `d`, of the class, of which those with a mark are free. None of
/// its words is read.
fn part_blocks(
    alloc: Global,
    geometry: &Geometry,
    d: u64,
    class: SizeClass,
    free: &BitMarks,
) -> Result<SuperblockBlocks, AllocError>
    ghost image: { Image }
    requires capacity { geometry.now.capacity ≡ capacity_of image }
    requires superblock { d < geometry.now.capacity }
    requires outside { IsNotFreed image d }
    requires info { image (info_word d) ≡ class.number }
    requires told { IsToldBy image class.number d free.now }
    ensures ok { IfOk result (λ parts. AreParted (IsHeldByAnchors image)
        geometry.now.capacity class.number d (blocks_of class.number)
        parts.held.items parts.spares.items) }
{
    let mut held = Vec::new(alloc);
    let mut spares = Vec::new(alloc);
    for index in 0..blocks_of(class.number) {
        let block = block_at(geometry, d, index, class);
        if free.get(index) {
            spares.push(block.first_word)?;
        } else {
            held.push(block)?;
        }
    }
    Ok(SuperblockBlocks { held, spares })
}
