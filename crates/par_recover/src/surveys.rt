//! What recovery finds in a superblock whose marked blocks are known.
ghost use Rattle.std.specs.Prelude.{◌≡◌, ◌<◌, ◌≤◌, IfOk};
ghost use Rattle.heap_model.specs.Sizes.{blocks_of};
ghost use Rattle.heap_model.specs.Blocks.{Layout};
ghost use Rattle.super_block.specs.Division.{Describes};
ghost use Rattle.heap_recover.specs.Marked.{IsMarked, KeepsBlocks, GoOnTo, AreParted};
ghost use Rattle.heap_recover.specs.Roles.{IsSurvey};
ghost use Rattle.par_recover.specs.Marked.{TellsMarked};

use filter_trace::Marks;
use heap_recover::{SuperblockBlocks, Survey, survey_parts, survey_superblock};
use size_table::{SizeClass, blocks_of};
use std::alloc::{AllocError, Global};
use super_block::{Geometry, Info, block_at};

/// Surveys superblock `d` as `heap_recover::survey_superblock` does, and asks the marks of no block
/// of a class.
pub fn survey_marked(
    alloc: Global,
    geometry: &Geometry,
    info: u64,
    d: u64,
    used: u64,
    end: u64,
    marks: &Marks,
    marked: &[bool],
) -> Result<Survey, AllocError>
    ghost layout: { Layout }
    requires capacity { geometry.now.capacity ≡ layout.capacity }
    requires info { info ≡ layout.info d }
    requires used { used ≡ layout.used }
    requires taken { d < used }
    requires inside { used ≤ geometry.now.capacity }
    requires keeps { KeepsBlocks layout (IsMarked marks.now.pairs) }
    requires goes_on { GoOnTo layout (IsMarked marks.now.pairs) d end }
    requires described { Describes marks.now.directory layout }
    requires marked { TellsMarked layout marks.now.pairs d marked.now }
    ensures ok { IfOk result (IsSurvey layout (IsMarked marks.now.pairs) d) }
{
    match Info::unpack(info) {
        Info::Class(class) => {
            let parts = part_marked(alloc, geometry, d, class, marks, marked)?;
            Ok(survey_parts(alloc, class, parts, end))
        }
        Info::Nothing | Info::Large(_) => {
            survey_superblock(alloc, geometry, info, d, used, end, marks)
        }
    }
}

/// Parts the blocks of superblock `d`, which has been taken and is of the class, by whether they are
/// marked.
fn part_marked(
    alloc: Global,
    geometry: &Geometry,
    d: u64,
    class: SizeClass,
    marks: &Marks,
    marked: &[bool],
) -> Result<SuperblockBlocks, AllocError>
    ghost layout: { Layout }
    requires capacity { geometry.now.capacity ≡ layout.capacity }
    requires inside { d < geometry.now.capacity }
    requires taken { d < layout.used }
    requires info { layout.info d ≡ class.number }
    requires marked { TellsMarked layout marks.now.pairs d marked.now }
    ensures ok { IfOk result (λ parts. AreParted (IsMarked marks.now.pairs)
        geometry.now.capacity class.number d (blocks_of class.number)
        parts.held.items parts.spares.items) }
{
    let mut held = Vec::with_capacity(alloc, marked.len())?;
    let mut spares = Vec::new(alloc);
    for index in 0..blocks_of(class.number) {
        let block = block_at(geometry, d, index, class);
        if marked[index as usize] {
            held.push(block)?;
        } else {
            spares.push(block.first_word)?;
        }
    }
    Ok(SuperblockBlocks { held, spares })
}
