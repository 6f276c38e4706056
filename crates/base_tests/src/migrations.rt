//! Images of the old version, made ones of this version.
ghost use Rattle.std.specs.Prelude.{◌≡◌, length, IfOk};
ghost use Rattle.heap_model.specs.Geometry.{roots};

use crate::asserts::must_hold;
use region_header::{migrate, migrate_owned, read_header};
use std::alloc::{AllocError, Global};
use std::process::Abort;
use std::test::Fail;
use super_block::OLD_VERSION;
use test_images::{image_of, old_image_of};

/// An image of the old version, of two superblocks, with words all over it.
#[tactic(auto, unfolding(heap_model::specs::Geometry::largest_capacity))]
fn old_image(alloc: Global) -> Result<Vec<u64>, Fail> {
    old_image_of(
        alloc,
        2,
        "state 2, used 1, info:0 4, root:8 @1080, 1080 7, 17463 9, 16 5, 9 3",
    )
}

/// The same image in this version, with these kinds of the first root and the last.
#[tactic(auto, unfolding(heap_model::specs::Geometry::largest_capacity))]
fn new_image(alloc: Global) -> Result<Vec<u64>, Fail> {
    image_of(
        alloc,
        2,
        "state 2, used 1, info:0 4, root:8 @1080, 1080 7, 17463 9, 16 5, 9 3, \
            kind:0 3, kind:1023 2",
    )
}

/// The kinds of an empty image, but for the first root and the last.
fn kinds(alloc: Global) -> Result<Vec<u32>, AllocError>
    ensures { IfOk result (λ kinds. length kinds.items ≡ roots) }
{
    let mut kinds = vec![in alloc; 0; 1_024]?;
    kinds[0] = 3;
    for i in 1..8 {
        kinds[i] = 1;
    }
    kinds[1_023] = 2;
    Ok(kinds)
}

/// The image of the old version, migrated in a copy.
fn copied(alloc: Global, words: &[u64], kinds: &[u32]) -> Result<Vec<u64>, Fail>
    requires { length kinds.now ≡ roots }
{
    match read_header(words, None) {
        Ok(header) if header.version == OLD_VERSION => Ok(migrate(alloc, words, kinds)?),
        _ => Err("no image of the old version".into()),
    }
}

/// The same in its own room.
fn in_place(words: Vec<u64>, kinds: &[u32]) -> Result<Vec<u64>, Fail>
    requires { length kinds.now ≡ roots }
{
    match read_header(&words, None) {
        Ok(header) if header.version == OLD_VERSION => Ok(migrate_owned(words, kinds)?),
        _ => Err("no image of the old version".into()),
    }
}

#[test]
fn a_migrated_image_has_its_words_and_the_kinds(rt: HostRuntime) -> Result<(), Fail> {
    let old = old_image(rt.alloc())?;
    let kinds = kinds(rt.alloc())?;
    let new = new_image(rt.alloc())?;
    let copy = copied(rt.alloc(), &old, &kinds)?;
    must_hold(&rt, copy.as_slice() == new.as_slice(), "a copy");
    let moved = in_place(old, &kinds)?;
    must_hold(&rt, moved.as_slice() == new.as_slice(), "in its room");
    Ok(())
}
