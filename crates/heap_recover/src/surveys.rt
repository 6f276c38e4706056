//! What recovery finds in a superblock.
ghost use Rattle.std.specs.Prelude.{◌≡◌, ◌<◌, ◌≤◌, IfOk, []};
ghost use Rattle.heap_model.specs.Blocks.{Layout};
ghost use Rattle.super_block.specs.Division.{Describes};
ghost use Rattle.heap_recover.specs.Marked.{IsMarked, KeepsBlocks, GoOnTo};
ghost use Rattle.heap_recover.specs.Roles.{IsSurvey, RoleOfParts};

use crate::parts::{SuperblockBlocks, part_blocks};
use crate::roles::Role;
use filter_trace::Marks;
use size_table::SizeClass;
use std::alloc::{AllocError, Global};
use super_block::{Block, Geometry, Info, SUPERBLOCK_WORDS};

/// What recovery finds in a superblock.
#[derive(Drop)]
pub struct Survey {
    /// What it makes of the superblock.
    pub role: Role,
    /// The kept blocks that the superblock begins, in order.
    pub held: Vec<Block>,
    /// Of a partial superblock the first words of the blocks that are not kept, in order.
    pub spares: Vec<u64>,
    /// The kept blocks that are begun up to here go on to this superblock.
    pub end: u64,
}

/// Surveys superblock `d` of the `used` ones that have been taken, which has this info, and to
/// which the kept blocks of lower ones go on up to `end`.
#[tactic(auto, using(heap_model::specs::Geometry::largest_capacity_fits))]
pub fn survey_superblock(
    alloc: Global,
    geometry: &Geometry,
    info: u64,
    d: u64,
    used: u64,
    end: u64,
    marks: &Marks,
) -> Result<Survey, AllocError>
    ghost layout: { Layout }
    requires capacity { geometry.now.capacity ≡ layout.capacity }
    requires info { info ≡ layout.info d }
    requires used { used ≡ layout.used }
    requires taken { d < used }
    requires inside { used ≤ geometry.now.capacity }
    requires keeps { KeepsBlocks layout (IsMarked marks.now.pairs) }
    requires goes_on { GoOnTo layout (IsMarked marks.now.pairs) d end }
    requires described { Describes marks.now.directory layout }
    ensures ok { IfOk result (IsSurvey layout (IsMarked marks.now.pairs) d) }
{
    match Info::unpack(info) {
        Info::Nothing if d < end => Ok(Survey::without_blocks(alloc, Role::Large, end)),
        Info::Nothing => Ok(Survey::without_blocks(alloc, Role::Free, end)),
        Info::Class(class) => {
            let parts = part_blocks(alloc, geometry, d, class, marks)?;
            Ok(survey_parts(alloc, class, parts, end))
        }
        Info::Large(count) => {
            if count <= used - d && marks.holds(d, 0) {
                let block = Block {
                    first_word: geometry.start(d),
                    words: SUPERBLOCK_WORDS * count,
                };
                return Ok(Survey {
                    role: Role::Large,
                    held: vec![in alloc; block]?,
                    spares: Vec::new(alloc),
                    end: d + count,
                });
            }
            Ok(Survey::without_blocks(alloc, Role::Free, end))
        }
    }
}

/// The survey of a superblock of the class with these blocks.
pub fn survey_parts(alloc: Global, class: SizeClass, parts: SuperblockBlocks, end: u64) -> Survey
    ensures role { RoleOfParts class parts.held.items parts.spares.items
        result.role result.spares.items }
    ensures held { result.held.items ≡ parts.held.items }
    ensures end { result.end ≡ end }
{
    let SuperblockBlocks { held, spares } = parts;
    if held.is_empty() {
        return Survey::without_blocks(alloc, Role::Free, end);
    }
    if spares.is_empty() {
        return Survey {
            role: Role::Full(class),
            held,
            spares: Vec::new(alloc),
            end,
        };
    }
    Survey {
        role: Role::Partial(class),
        held,
        spares,
        end,
    }
}

impl Survey {
    /// The survey of a superblock that begins no kept block.
    pub fn without_blocks(alloc: Global, role: Role, end: u64) -> Survey
        ensures role { result.role ≡ role }
        ensures held { result.held.items ≡ [] }
        ensures spares { result.spares.items ≡ [] }
        ensures end { result.end ≡ end }
    {
        Survey {
            role,
            held: Vec::new(alloc),
            spares: Vec::new(alloc),
            end,
        }
    }
}
