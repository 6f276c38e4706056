//! The keys of a dictionary, in order.
ghost use Rattle.std.specs.Prelude.{◌≡◌, List, ℕ, true, false, is_some, not, IfOk, OnOk, OnErr, IfSome, IfNone};
ghost use Rattle.std.specs.BTreeSet.{IsUnchanged};
ghost use Rattle.dict_model.specs.Requests.{with_key, without_key};
ghost use Rattle.dict_model.specs.Shards.{Map};
ghost use Rattle.c_dictionary.specs.Keys.{Lists, ListsAll, IsLeastFrom, HasNoneFrom, HasMore};

use region_header::Bytes;
use std::alloc::{AllocError, Global};
use std::collections::{BTreeMap, BTreeSet};

/// Adds a key that is set to a value. The answer tells whether it is new.
pub fn add_key(keys: &mut BTreeSet<u64>, key: u64) -> Result<bool, AllocError>
    ensures set { OnOk result ((map : Map) (value : List ℕ)
        → Lists keys.old map → Lists keys.new (with_key map key value)) }
    ensures added { IfOk result (λ added. (map : Map)
        → Lists keys.old map → added ≡ not (is_some (map key))) }
    ensures same { IfOk result (λ added. added ≡ false
        → (map : Map) → Lists keys.old map → Lists keys.new map) }
    ensures err { OnErr result (IsUnchanged keys.old keys.new) }
{
    match keys.insert(key) {
        Ok(added) => Ok(added),
        Err(refused) => Err(AllocError::from(refused)),
    }
}

/// Takes a key out.
pub fn take_key(keys: &mut BTreeSet<u64>, key: u64)
    ensures { (map : Map) → Lists keys.old map → Lists keys.new (without_key map key) }
{
    keys.remove(&key);
}

/// Takes a key out again that was added for nothing.
pub fn undo_add(keys: &mut BTreeSet<u64>, key: u64, added: bool)
    ensures taken { added ≡ true → (map : Map) → Lists keys.old map
        → Lists keys.new (without_key map key) }
    ensures same { added ≡ false → keys.new ≡ keys.old }
{
    if added {
        take_key(keys, key);
    }
}

/// The least key from this one on, if there is one.
pub fn least_from(keys: &BTreeSet<u64>, from: u64) -> Option<u64>
    ensures some { IfSome result (λ least. (map : Map)
        → Lists keys.now map → IsLeastFrom from map least) }
    ensures none { IfNone result ((map : Map) → Lists keys.now map → HasNoneFrom from map) }
{
    let mut rest = keys.range(from..);
    match rest.next() {
        Some(least) => Some(*least),
        None => None,
    }
}

// Adds the keys of a map.
fn add_keys(keys: &mut BTreeSet<u64>, map: &BTreeMap<u64, Bytes>) -> Result<(), AllocError>
    ensures { OnOk result (HasMore keys.old map.now keys.new) }
{
    keys.extend(map.keys())
}

/// The keys of all maps.
pub fn keys_of(alloc: Global, maps: &[BTreeMap<u64, Bytes>]) -> Result<BTreeSet<u64>, AllocError>
    ensures { IfOk result (ListsAll maps.now) }
{
    let mut keys = BTreeSet::new(alloc);
    for i in 0..maps.len() {
        add_keys(&mut keys, &maps[i])?;
    }
    Ok(keys)
}
