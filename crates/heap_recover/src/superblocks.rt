//! The words of one superblock after recovery.
ghost use Rattle.std.specs.Prelude.{◌≡◌, ◌<◌, ◌≤◌, length, slice_index};
ghost use Rattle.heap_model.specs.Geometry.{image_words, info_word};
ghost use Rattle.heap_model.specs.Header.{capacity_of};
ghost use Rattle.heap_recover.specs.Rebuilt.{HasSpares, HasInfo, IsAnchorOf, IsWrittenAs, IsRebuiltAs};

use crate::chains::link_chain;
use crate::roles::Role;
use anchor_word::{Anchor, EMPTY, FULL, State, pack};
use super_block::{Geometry, Info, ListLink, block_words};

/// Rebuilds superblock `d` in its role: info, anchor, link, and the chain of its `spares`, the
/// first words of the blocks that are not kept.
pub fn rebuild_superblock(
    words: &mut [u64],
    geometry: &Geometry,
    d: u64,
    role: Role,
    spares: &[u64],
)
    requires long { length words.old ≡ image_words geometry.now.capacity }
    requires capacity { capacity_of (slice_index words.old) ≡ geometry.now.capacity }
    requires superblock { d < geometry.now.capacity }
    requires info { HasInfo (slice_index words.old (info_word d)) role }
    requires spares { HasSpares geometry.now.capacity d spares.now role }
    ensures { IsRebuiltAs (slice_index words.old) (slice_index words.new)
        geometry.now.capacity d role spares.now }
{
    link_chain(words, spares);
    write_descriptor(
        words,
        geometry,
        d,
        role,
        anchor_word_of(geometry, d, role, spares),
    );
}

/// Writes the descriptor of superblock `d`, with this anchor. Only a free superblock loses its info.
pub fn write_descriptor(words: &mut [u64], geometry: &Geometry, d: u64, role: Role, anchor: u64)
    requires long { length words.old ≡ image_words geometry.now.capacity }
    requires superblock { d < geometry.now.capacity }
    ensures { IsWrittenAs (slice_index words.old) (slice_index words.new) d role anchor }
{
    if let Role::Free = role {
        words[geometry.info(d) as usize] = Info::Nothing.pack();
    }
    words[geometry.anchor(d) as usize] = anchor;
    words[geometry.link(d) as usize] = ListLink { next: None }.pack();
}

/// The anchor of superblock `d` in its role.
fn anchor_word_of(geometry: &Geometry, d: u64, role: Role, spares: &[u64]) -> u64
    requires superblock { d < geometry.now.capacity }
    requires spares { HasSpares geometry.now.capacity d spares.now role }
    ensures { IsAnchorOf geometry.now.capacity d spares.now result role }
{
    match role {
        Role::Free => pack(&EMPTY),
        Role::Partial(class) => pack(&Anchor {
            state: State::Partial,
            first: (spares[0] - geometry.start(d)) / block_words(class),
            count: spares.len() as u64,
        }),
        Role::Full(_) | Role::Large => pack(&FULL),
    }
}
