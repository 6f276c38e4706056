//! The blocks of a superblock, parted by whether they are kept.
ghost use Rattle.std.specs.Prelude.{◌≡◌, ◌<◌, IfOk};
ghost use Rattle.heap_model.specs.Sizes.{blocks_of};
ghost use Rattle.heap_model.specs.Blocks.{Layout};
ghost use Rattle.super_block.specs.Division.{Describes};
ghost use Rattle.heap_recover.specs.Marked.{IsMarked, KeepsBlocks, AreParted};

use filter_trace::Marks;
use size_table::{SizeClass, blocks_of};
use std::alloc::{AllocError, Global};
use super_block::{Block, Geometry, block_at};

/// The blocks of a superblock of a class.
#[derive(Drop)]
pub struct SuperblockBlocks {
    /// The kept ones.
    pub held: Vec<Block>,
    /// The first words of the others.
    pub spares: Vec<u64>,
}

/// Parts the blocks of superblock `d`, which has been taken and is of the class.
pub fn part_blocks(
    alloc: Global,
    geometry: &Geometry,
    d: u64,
    class: SizeClass,
    marks: &Marks,
) -> Result<SuperblockBlocks, AllocError>
    ghost layout: { Layout }
    requires capacity { geometry.now.capacity ≡ layout.capacity }
    requires inside { d < geometry.now.capacity }
    requires taken { d < layout.used }
    requires info { layout.info d ≡ class.number }
    requires keeps { KeepsBlocks layout (IsMarked marks.now.pairs) }
    requires described { Describes marks.now.directory layout }
    ensures ok { IfOk result (λ parts. AreParted (IsMarked marks.now.pairs)
        geometry.now.capacity class.number d (blocks_of class.number)
        parts.held.items parts.spares.items) }
{
    let mut held = Vec::new(alloc);
    let mut spares = Vec::new(alloc);
    for index in 0..blocks_of(class.number) {
        let block = block_at(geometry, d, index, class);
        if marks.holds(d, index) {
            held.push(block)?;
        } else {
            spares.push(block.first_word)?;
        }
    }
    Ok(SuperblockBlocks { held, spares })
}
