//! The first bad place of shards of hand-made images: each kind of fault, at links of each kind.
//! Words and values have the names of `test_images`.

use crate::checks::must_hold;
use crate::recoveries::{fault_in, first_fault_in, recovered};
use dictionary::MapFault;
use std::alloc::Global;
use std::process::Abort;
use std::test::Fail;
use test_images::{change, image_of, number};

/// Four superblocks of blocks of 1,024, 32, 16 and 1,536 bytes. Root 0 leads to the table at 1,096;
/// the first bucket of another one at 1,224, to which no root leads yet, leads to the node at 9,296
/// that will be bad. The nodes at 9,288 and 9,292 are good.
const BLOCKS: &str = "used 4, info:0 12, info:1 2, info:2 1, info:3 13, root:0 @1096, 1224 @9296";

/// Where the node stands that will be bad, and its key.
const BAD: usize = 9_296;

const BAD_KEY: usize = 9_297;

/// A bad link: the word, a key that its bucket lacks, and the nodes of the bucket before it.
type Place = (u64, u64, &'static str);

/// The links of the first bucket and of the last one, and those behind one node and behind two.
const PLACES: [Place; 4] = [
    (1_096, 0, ""),
    (1_223, 1_016, ""),
    (9_288, 3_072, "1096 @9288"),
    (9_292, 3_072, "1096 @9288, 9288 @9292, 9293 1024"),
];

/// A fault of a link: a name, what the link is, in which bits the bad node's key differs from one
/// that is new, and the node's length and further words. A node of four words has room for eight
/// bytes.
type Fault = (&'static str, &'static str, u64, &'static str);

const FAULTS: [Fault; 10] = [
    ("another bucket's", "@9296", 8, "9298 8"),
    ("another shard's", "@9296", 1, "9298 8"),
    ("too long", "@9296", 0, "9298 131073"),
    ("not fitting", "@9296", 0, "9298 9"),
    ("too small", "@17480", 0, "9298 8"),
    ("its own table", "@1096", 0, "9298 8"),
    ("met twice", "@9296", 0, "9298 8, 9296 @9296"),
    ("of two shards", "@9296", 0, "9298 8, root:1 @1224"),
    ("of root 8", "@9296", 0, "9298 8, root:8 @9296"),
    (
        "of a ninth table",
        "@9296",
        0,
        "9298 8, root:8 @1224, 33872 1",
    ),
];

/// Sets a word of an image.
fn set(image: &mut [u64], at: usize, value: u64) {
    if let Some(word) = image.get_mut(at) {
        *word = value;
    }
}

/// Gives a place of the image a fault.
fn spoil(image: &mut [u64], place: &Place, fault: &Fault) -> Result<(), Fail> {
    let (link, key, before) = *place;
    let (_, target, bits, node) = *fault;
    change(image, before)?;
    set(image, link as usize, number(target)?);
    set(image, BAD_KEY, key ^ bits);
    change(image, node)
}

/// Where the fault is told: at the link, or at the bad node's own.
fn told_at(image: &[u64], link: u64) -> u64 {
    if image.get(BAD) == Some(&0) {
        link
    } else {
        BAD as u64
    }
}

/// The image with these roots.
#[tactic(auto, unfolding(heap_model::specs::Geometry::largest_capacity))]
fn image_with(alloc: Global, roots: &str) -> Result<Vec<u64>, Fail> {
    let mut image = image_of(alloc, 4, BLOCKS)?;
    change(&mut image, roots)?;
    Ok(image)
}

/// Reads shard 0 of the image, and all shards, where that one is bad.
fn are_bad(
    rt: &(impl Abort + AllocGlobal),
    image: &[u64],
    link: u64,
    row: &str,
) -> Result<(), Fail> {
    let heap = recovered(rt.alloc(), image)?;
    let at = told_at(image, link);
    let told = Some(MapFault::BadShard { shard: 0, at });
    must_hold(rt, fault_in(rt.alloc(), &heap, 0) == told, row);
    must_hold(rt, first_fault_in(rt.alloc(), &heap) == told, row);
    Ok(())
}

/// Tries the fault at the place.
fn is_told(rt: &(impl Abort + AllocGlobal), place: &Place, fault: &Fault) -> Result<(), Fail> {
    let mut image = image_with(rt.alloc(), "")?;
    spoil(&mut image, place, fault)?;
    are_bad(rt, &image, place.0, fault.0)
}

/// Tries each fault at the place.
fn are_told(rt: &(impl Abort + AllocGlobal), place: &Place) -> Result<(), Fail> {
    for fault in &FAULTS {
        is_told(rt, place, fault)?;
    }
    Ok(())
}

#[test]
fn each_fault_is_told_at_its_link(rt: HostRuntime) -> Result<(), Fail> {
    for place in &PLACES {
        are_told(&rt, place)?;
    }
    Ok(())
}

/// The lowest shard that is bad, the word of its root or of the kind of this, and the roots and
/// kinds by which it is. Word 33,864 has the kind of root 0.
const BAD_ROOTS: [(usize, u64, &str); 13] = [
    (0, 40, "root:0 @9288"),
    (0, 40, "root:0 @25672"),
    (0, 40, "root:0 @17480"),
    (0, 40, "root:1 @1096"),
    (0, 40, "root:8 @1096"),
    (7, 47, "root:7 @9296"),
    (1, 41, "root:7 @9296, root:1 @9292"),
    (0, 40, "root:8 @1096, 33872 1"),
    (0, 33_864, "33864 0"),
    (0, 33_864, "33864 2"),
    (0, 33_864, "33864 2, root:0 0"),
    (7, 33_871, "33871 0"),
    (1, 33_865, "33865 0, root:7 @9296"),
];

/// What is told of all shards of the image with these roots.
fn fault_with(alloc: Global, roots: &str) -> Result<Option<MapFault>, Fail> {
    let image = image_with(alloc, roots)?;
    let heap = recovered(alloc, &image)?;
    Ok(first_fault_in(alloc, &heap))
}

#[test]
fn the_lowest_bad_root_is_told(rt: HostRuntime) -> Result<(), Fail> {
    for (shard, at, roots) in &BAD_ROOTS {
        let told = MapFault::BadShard {
            shard: *shard,
            at: *at,
        };
        must_hold(&rt, fault_with(rt.alloc(), roots)? == Some(told), roots);
    }
    Ok(())
}
