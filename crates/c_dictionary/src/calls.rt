//! The requests of a program in C.
ghost use Rattle.std.specs.Prelude.{◌≡◌, ◌≢◌, ◌⊎◌, ◌↔◌, ◌+◌, ◌^◌, ◌-◌, ◌<◌, length, Some, None, true, false};
ghost use Rattle.dict_model.specs.Nodes.{shard_of};
ghost use Rattle.dict_model.specs.Requests.{with_key, without_key};
ghost use Rattle.dict_requests.specs.Changes.{MayChange, Changes};
ghost use Rattle.dict_requests.specs.Gets.{Gets};
ghost use Rattle.dict_requests.specs.Answers.{Deletes};
ghost use Rattle.dict_model.specs.Shards.{Map};
ghost use Rattle.c_dictionary.specs.Dictionary.{Holds};
ghost use Rattle.c_dictionary.specs.Keys.{IsLeastFrom, HasNoneFrom};
ghost use Rattle.c_dictionary.specs.Passing.{Passes, MayPass, Becomes, Tells, HadNoRoom, HasHalted};

use crate::handle::{CLOSED, GOING, HALTED, Handle};
use crate::keys::least_from;
use crate::loose::Loose;
use crate::requests::{del, get, put};
use crate::status::{ABSENT, DONE, STOPPED, USAGE};
use crate::store::Store;
use std::alloc::Global;

/// The longest value.
const LONGEST_VALUE: usize = 131_072;

/// Why no request is made of a handle in this state.
fn refusal(state: u64) -> u32
    ensures refused { (result ≡ 2) ⊎ (result ≡ 12) }
    ensures closed { (result ≡ 2) ↔ (state ≡ 0) }
{
    if state == CLOSED { USAGE } else { STOPPED }
}

/// The state of a handle after a request that answered this.
fn state_after(status: u32) -> u64
    ensures some { result ≢ 0 }
    ensures going { result ≡ 1 → status ≢ 12 }
    ensures halted { result ≢ 1 → status ≡ 12 }
{
    if status == STOPPED { HALTED } else { GOING }
}

/// Sets a key.
#[unsafe(no_mangle)]
pub extern "C" fn heap_put(alloc: Global, handle: &mut Handle, key: u64, value: &[u8]) -> u32
    ensures done { result ≡ 0 → Passes handle.old.value handle.new.value
        (Changes (shard_of key) (λ map. with_key map key value.now)) }
    ensures set { result ≡ 0 → Becomes (λ map. with_key map key value.now)
        handle.old.value handle.new.value }
    ensures full { result ≡ 11 → Passes handle.old.value handle.new.value
        (Changes (shard_of key) (λ map. map)) }
    ensures refused { result ≡ 11 → Becomes (λ map. map) handle.old.value handle.new.value }
    ensures room { result ≡ 11 → Passes handle.old.value handle.new.value
        (HadNoRoom key value.now) }
    ensures memory { result ≡ 3 → handle.new.value ≡ handle.old.value }
    ensures crash { MayPass handle.old.value handle.new.value
        (MayChange (shard_of key) (λ map. with_key map key value.now)) }
    ensures stopped { result ≡ 12 → HasHalted handle.new.value }
    ensures halted { HasHalted handle.old.value
        → (result ≡ 12) × (handle.new.value ≡ handle.old.value) }
    ensures usage { result ≡ 2 → (handle.new.value ≡ handle.old.value)
        × ((handle.old.value ≡ None) ⊎ (131072 < length value.now)) }
    ensures closed { handle.old.value ≡ None → result ≡ 2 }
{
    let state = handle.state();
    if state != GOING {
        return refusal(state);
    }
    if value.len() > LONGEST_VALUE {
        return USAGE;
    }
    let mut store = handle.take(alloc).into_box();
    let status = put(&mut store, key, value);
    handle.set(Loose::of(store), state_after(status));
    status
}

/// Reads a key's value, as far as it fits, and its length.
#[unsafe(no_mangle)]
pub extern "C" fn heap_get(
    alloc: Global,
    handle: &mut Handle,
    key: u64,
    room: &mut [u8],
    length: &mut u64,
) -> u32
    ensures found { result ≡ 0 → Passes handle.old.value handle.new.value
        (Gets key (Some length.new) room.old room.new) }
    ensures absent { result ≡ 1 → Passes handle.old.value handle.new.value
        (Gets key None room.old room.new) }
    ensures same { (result ≡ 0) ⊎ (result ≡ 1)
        → Becomes (λ map. map) handle.old.value handle.new.value }
    ensures stopped { result ≡ 12 → HasHalted handle.new.value }
    ensures halted { HasHalted handle.old.value
        → (result ≡ 12) × (handle.new.value ≡ handle.old.value) }
    ensures usage { (result ≡ 2) ↔ (handle.old.value ≡ None) }
    ensures kept { result ≡ 2 → (handle.new.value ≡ handle.old.value)
        × (room.new ≡ room.old) × (length.new ≡ length.old) }
{
    let state = handle.state();
    if state != GOING {
        return refusal(state);
    }
    let mut store = handle.take(alloc).into_box();
    let status = get(&mut store, key, room, length);
    handle.set(Loose::of(store), state_after(status));
    status
}

/// Takes a key out.
#[unsafe(no_mangle)]
pub extern "C" fn heap_del(alloc: Global, handle: &mut Handle, key: u64) -> u32
    ensures found { result ≡ 0 → Passes handle.old.value handle.new.value (Deletes key true) }
    ensures absent { result ≡ 1 → Passes handle.old.value handle.new.value (Deletes key false) }
    ensures gone { (result ≡ 0) ⊎ (result ≡ 1)
        → Becomes (λ map. without_key map key) handle.old.value handle.new.value }
    ensures crash { MayPass handle.old.value handle.new.value
        (MayChange (shard_of key) (λ map. without_key map key)) }
    ensures stopped { result ≡ 12 → HasHalted handle.new.value }
    ensures halted { HasHalted handle.old.value
        → (result ≡ 12) × (handle.new.value ≡ handle.old.value) }
    ensures usage { (result ≡ 2) ↔ (handle.old.value ≡ None) }
    ensures kept { result ≡ 2 → handle.new.value ≡ handle.old.value }
{
    let state = handle.state();
    if state != GOING {
        return refusal(state);
    }
    let mut store = handle.take(alloc).into_box();
    let status = del(&mut store, key);
    handle.set(Loose::of(store), state_after(status));
    status
}

// The least key of a dictionary from this one on.
fn tell_least(store: &Store, from: u64, found: &mut u64) -> u32
    ensures found { result ≡ 0 → (map : Map) → Holds map store.now
        → IsLeastFrom from map found.new }
    ensures absent { result ≡ 1 → (map : Map) → Holds map store.now → HasNoneFrom from map }
    ensures answers { (result ≡ 0) ⊎ (result ≡ 1) }
{
    match least_from(&store.keys, from) {
        Some(key) => {
            *found = key;
            DONE
        }
        None => ABSENT,
    }
}

/// Tells the least key.
#[unsafe(no_mangle)]
pub extern "C" fn heap_first(alloc: Global, handle: &mut Handle, found: &mut u64) -> u32
    ensures found { result ≡ 0 → Tells (λ map. IsLeastFrom 0 map found.new)
        handle.old.value handle.new.value }
    ensures absent { result ≡ 1 → Tells (λ map. HasNoneFrom 0 map)
        handle.old.value handle.new.value }
    ensures stopped { (result ≡ 12) ↔ HasHalted handle.old.value }
    ensures usage { (result ≡ 2) ↔ (handle.old.value ≡ None) }
    ensures kept { handle.new.value ≡ handle.old.value }
{
    let state = handle.state();
    if state != GOING {
        return refusal(state);
    }
    let store = handle.take(alloc).into_box();
    let status = tell_least(&store, 0, found);
    handle.set(Loose::of(store), GOING);
    status
}

/// Tells the least key above this one.
#[unsafe(no_mangle)]
pub extern "C" fn heap_next(alloc: Global, handle: &mut Handle, key: u64, found: &mut u64) -> u32
    ensures found { result ≡ 0 → Tells (λ map. IsLeastFrom (key + 1) map found.new)
        handle.old.value handle.new.value }
    ensures absent { result ≡ 1 → key ≢ 2 ^ 64 - 1 → Tells (λ map. HasNoneFrom (key + 1) map)
        handle.old.value handle.new.value }
    ensures stopped { (result ≡ 12) ↔ HasHalted handle.old.value }
    ensures usage { (result ≡ 2) ↔ (handle.old.value ≡ None) }
    ensures kept { handle.new.value ≡ handle.old.value }
{
    let state = handle.state();
    if state != GOING {
        return refusal(state);
    }
    if key == u64::MAX {
        return ABSENT;
    }
    let store = handle.take(alloc).into_box();
    let status = tell_least(&store, key + 1, found);
    handle.set(Loose::of(store), GOING);
    status
}
