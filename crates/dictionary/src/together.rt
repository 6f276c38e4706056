//! Reading the chains of a table side by side, a node of each in turn: nodes that were made one
//! after another lie near each other, in the image and in the order of keys, and hang in different
//! buckets.
ghost use Rattle.std.specs.Prelude.{slice_index, IfOk, IfSome, IsNone};
ghost use Rattle.std.specs.BTreeMap.{get, IsOrdered};
ghost use Rattle.std.specs.Ordering.{nat_cmp};
ghost use Rattle.dict_model.specs.Shards.{HasTable, LeadsAlone, IsMap, Map};
ghost use Rattle.dictionary.specs.Reading.{IsRead};

use crate::walk::{Lead, Walk};
use dict_model::BUCKETS;
use heap_model::Block;
use region_header::Bytes;
use std::alloc::{AllocError, Global};
use std::collections::{BTreeMap, VecDeque};

/// The map of a table, where each link leads to what it may and no key is met twice, and none
/// exactly where the shard is no map: which bad link is the first tells only a reading in order.
pub fn read_together(
    alloc: Global,
    walk: &Walk,
    table: Block,
) -> Result<Option<BTreeMap<u64, Bytes>>, AllocError>
    requires read { IsRead walk.now.scan.words.now walk.now.scan.directory.now
        walk.now.origins.now }
    requires table { HasTable (LeadsAlone (slice_index walk.now.scan.words.now) walk.now.shard)
        (slice_index walk.now.scan.words.now) walk.now.shard table }
    ensures map { IfOk result (λ found. IfSome found (λ map.
        IsMap (LeadsAlone (slice_index walk.now.scan.words.now) walk.now.shard)
        (slice_index walk.now.scan.words.now) walk.now.shard (get nat_cmp map))) }
    ensures ordered { IfOk result (λ found. IfSome found (λ map. IsOrdered nat_cmp map)) }
    ensures none { IfOk result (λ found. IsNone found → (map : Map)
        → IsMap (LeadsAlone (slice_index walk.now.scan.words.now) walk.now.shard)
        (slice_index walk.now.scan.words.now) walk.now.shard map → ⊥) }
{
    let mut map = BTreeMap::new(alloc);
    let mut links = [0; BUCKETS as usize];
    let mut unread = VecDeque::with_capacity(alloc, BUCKETS as usize)?;
    for bucket in 0..BUCKETS {
        links[bucket as usize] = table.first_word + bucket;
        unread.push_back_reserved(bucket);
    }
    while let Some(bucket) = unread.pop_front() {
        let link = walk.scan.words[links[bucket as usize] as usize];
        match walk.node(table, bucket, link) {
            Lead::Null => {}
            Lead::Astray => return Ok(None),
            Lead::To(node) => {
                if !walk.add(alloc, node, &mut map)? {
                    return Ok(None);
                }
                links[bucket as usize] = node.first_word;
                unread.push_back_reserved(bucket);
            }
        }
    }
    Ok(Some(map))
}
