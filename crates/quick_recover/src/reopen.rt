//! The words of an orderly image made those of an open heap: lists and descriptors alone change.
ghost use Rattle.std.specs.Prelude.{◌≡◌, ◌≤◌, ◌<◌, ◌*◌, IfOk, OnOk, length, slice_index, slice_index_or};
ghost use Rattle.heap_model.specs.Geometry.{image_words};
ghost use Rattle.heap_model.specs.Header.{IsWellFormed};
ghost use Rattle.heap_at_rest.specs.Orderly.{IsHeldByAnchors};
ghost use Rattle.quick_recover.specs.Anchored.{HaveRoles, TellsAll};
ghost use Rattle.quick_recover.specs.Reopened.{IsReopened, IsReopenedAs};
ghost use Rattle.quick_recover.specs.Written.{anchor_after, AreWritten};

use anchor_word::{EMPTY, FULL, pack};
use heap_recover::{Found, Recovered, Role, Was, link_lists, members, write_descriptor};
use std::alloc::{AllocError, Global};
use super_block::{CAPACITY_WORD, DIRTY, FREE_LIST, Geometry, Ready, STATE_WORD};

/// The heap of a closed image whose anchors hold these blocks, with these roles of its superblocks.
pub fn reopen(alloc: Global, mut words: Vec<u64>, found: Found) -> Result<Recovered, AllocError>
    requires formed { IsWellFormed (8 * length words.items) (slice_index words.items) }
    requires told { TellsAll (slice_index words.items) found.held.items found.roles.items }
    ensures ok { IfOk result
        (IsReopenedAs words.items (IsHeldByAnchors (slice_index words.items))) }
{
    write_words(alloc, &mut words, &found.roles)?;
    let free = members(alloc, &found.roles, FREE_LIST as u8)?;
    Ok(Recovered {
        heap: Ready::new(words, found.held),
        was: Was::Clean,
        free,
    })
}

/// Writes descriptors, lists and the state.
fn write_words(alloc: Global, words: &mut [u64], roles: &[Role]) -> Result<(), AllocError>
    requires formed { IsWellFormed (8 * length words.old) (slice_index words.old) }
    requires roles { HaveRoles (slice_index words.old) roles.now }
    ensures ok { OnOk result (IsReopened (slice_index words.old) (slice_index words.new)
        (IsHeldByAnchors (slice_index words.old))) }
{
    let geometry = Geometry::new(words[CAPACITY_WORD as usize]);
    write_descriptors(words, &geometry, roles);
    link_lists(alloc, words, &geometry, roles)?;
    words[STATE_WORD as usize] = DIRTY;
    Ok(())
}

/// Writes the descriptor of each superblock in its role; one without a role is free.
fn write_descriptors(words: &mut [u64], geometry: &Geometry, roles: &[Role])
    requires long { length words.old ≡ image_words geometry.now.capacity }
    ensures { AreWritten (slice_index words.old) (slice_index words.new) roles.now
        geometry.now.capacity }
{
    for d in 0..geometry.capacity() {
        let role = role_of(roles, d);
        let anchor = anchor_in(role, words[geometry.anchor(d) as usize]);
        write_descriptor(words, geometry, d, role, anchor);
    }
}

/// The role of superblock `d`.
fn role_of(roles: &[Role], d: u64) -> Role
    ensures { result ≡ slice_index_or roles.now d Role.Free }
{
    if d < roles.len() as u64 {
        return roles[d as usize];
    }
    Role::Free
}

/// The anchor of a superblock of the role, which had this one. A partial one keeps it.
fn anchor_in(role: Role, old: u64) -> u64
    ensures { result ≡ anchor_after old role }
{
    match role {
        Role::Free => pack(&EMPTY),
        Role::Partial(_) => old,
        Role::Full(_) | Role::Large => pack(&FULL),
    }
}
