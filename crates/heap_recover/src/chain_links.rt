//! The lists of superblocks after recovery.
ghost use Rattle.std.specs.Prelude.{◌≡◌, ◌<◌, ◌≤◌, ◌+◌, ◌^◌, All, AllPairs, length, slice_index, IfOk, OnOk};
ghost use Rattle.heap_model.specs.Geometry.{image_words, lists};
ghost use Rattle.heap_model.specs.Recovered.{AreAscending};
ghost use Rattle.super_block.specs.Links.{link_of};
ghost use Rattle.heap_recover.specs.Roles.{list_of, number_at, IsMember};
ghost use Rattle.heap_recover.specs.Rebuilt.{IsLinked, AreListed};

use crate::roles::Role;
use std::alloc::{AllocError, Global};
use super_block::{FREE_LIST, Geometry, HEAD_WORD, LISTS, ListHead, ListLink};

/// Links all lists, of superblocks with these roles.
#[tactic(auto, using(heap_model::specs::Geometry::largest_capacity_fits))]
pub fn link_lists(
    alloc: Global,
    words: &mut [u64],
    geometry: &Geometry,
    roles: &[Role],
) -> Result<(), AllocError>
    requires long { length words.old ≡ image_words geometry.now.capacity }
    requires few { length roles.now ≤ geometry.now.capacity }
    ensures ok { OnOk result (AreListed (slice_index words.old) (slice_index words.new)
        geometry.now.capacity roles.now lists) }
{
    for list in 0..LISTS as u8 {
        let members = members(alloc, roles, list)?;
        link_list(words, geometry, list, &members);
    }
    Ok(())
}

/// The superblocks that their role puts into the list, in order.
pub fn members(alloc: Global, roles: &[Role], list: u8) -> Result<Vec<u32>, AllocError>
    requires { length roles.now < 2 ^ 32 }
    ensures ok { IfOk result (λ ds. AreAscending (λ d. d) (IsMember roles.now list) ds.items) }
{
    let mut members = Vec::new(alloc);
    for d in 0..roles.len() {
        if list_of(roles[d]) == Some(list) {
            members.push(d as u32)?;
        }
    }
    Ok(members)
}

/// Makes the list one of these superblocks, in this order.
fn link_list(words: &mut [u64], geometry: &Geometry, list: u8, ds: &[u32])
    requires long { length words.old ≡ image_words geometry.now.capacity }
    requires list { list < lists }
    requires inside { All (λ d. d < geometry.now.capacity) ds.now }
    requires ascending { AllPairs (λ d e. d < e) ds.now }
    ensures { IsLinked (slice_index words.old) (slice_index words.new) geometry.now.capacity list
        ds.now }
{
    for i in 0..ds.len() {
        let next = member_at(ds, i + 1);
        words[geometry.link(ds[i] as u64) as usize] = ListLink { next }.pack();
    }
    let head = ListHead {
        first: member_at(ds, 0),
        pops: 0,
    };
    words[(HEAD_WORD + list as u64) as usize] = head.pack();
}

/// Superblock `i` of the list, or none behind the last one.
fn member_at(ds: &[u32], i: usize) -> Option<u64>
    ensures number { link_of result ≡ number_at ds.now i }
    ensures small { link_of result ≤ 2 ^ 32 }
{
    if i < ds.len() {
        return Some(ds[i] as u64);
    }
    None
}

/// The list that a superblock of the role is in, if any.
fn list_of(role: Role) -> Option<u8>
    ensures { result ≡ list_of role }
{
    match role {
        Role::Free => Some(FREE_LIST as u8),
        Role::Partial(class) => Some(class.number),
        Role::Full(_) | Role::Large => None,
    }
}
