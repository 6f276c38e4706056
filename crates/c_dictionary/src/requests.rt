//! The requests to a dictionary that takes them, and the statuses that they answer.
ghost use Rattle.std.specs.Prelude.{◌≡◌, ◌≢◌, ◌≤◌, ◌⊎◌, length, Some, None, true, false};
ghost use Rattle.block_heap.specs.SeqState.{seat_of};
ghost use Rattle.dict_model.specs.Nodes.{shard_of};
ghost use Rattle.dict_model.specs.Requests.{with_key, without_key};
ghost use Rattle.dict_requests.specs.Changes.{MayChange, Changes};
ghost use Rattle.dict_requests.specs.Gets.{Gets};
ghost use Rattle.dict_requests.specs.Answers.{Deletes};
ghost use Rattle.c_dictionary.specs.Dictionary.{Turns};
ghost use Rattle.c_dictionary.specs.Passing.{HadNoRoom};
ghost use Rattle.c_dictionary.specs.Ready.{HasStopped, IsReady, IsSound};

use crate::keys::{add_key, take_key, undo_add};
use crate::status::{ABSENT, DONE, FULL, MEMORY, STOPPED};
use crate::store::Store;
use dict_requests::{PutFault, Shard};

/// Sets a key.
pub fn put(store: &mut Store, key: u64, value: &[u8]) -> u32
    requires ready { IsReady store.old }
    requires sound { IsSound store.old }
    requires short { length value.now ≤ 131072 }
    ensures ready { result ≢ 12 → IsReady store.new }
    ensures sound { IsSound store.new }
    ensures stopped { result ≡ 12 → HasStopped store.new }
    ensures done { result ≡ 0 → Changes (shard_of key) (λ map. with_key map key value.now)
        (seat_of store.old.heap) (seat_of store.new.heap) }
    ensures set { result ≡ 0
        → Turns (λ map. with_key map key value.now) store.old store.new }
    ensures full { result ≡ 11 → Changes (shard_of key) (λ map. map)
        (seat_of store.old.heap) (seat_of store.new.heap) }
    ensures refused { result ≡ 11 → Turns (λ map. map) store.old store.new }
    ensures room { result ≡ 11 → HadNoRoom key value.now
        (seat_of store.old.heap) (seat_of store.new.heap) }
    ensures memory { result ≡ 3 → store.new ≡ store.old }
    ensures crash { (store.new ≡ store.old) ⊎ MayChange (shard_of key) (λ map. with_key map key value.now)
        (seat_of store.old.heap) (seat_of store.new.heap) }
    ensures answers { result ≢ 2 }
{
    let Ok(added) = add_key(&mut store.keys, key) else {
        return MEMORY;
    };
    match Shard::at(key % 8).put(&mut store.heap, key, value) {
        Ok(()) => DONE,
        Err(PutFault::Full(_)) => {
            undo_add(&mut store.keys, key, added);
            FULL
        }
        Err(PutFault::Stopped(_)) => STOPPED,
    }
}

/// Reads a key's value, as far as it fits, and its length.
pub fn get(store: &mut Store, key: u64, room: &mut [u8], length: &mut u64) -> u32
    requires ready { IsReady store.old }
    requires sound { IsSound store.old }
    ensures ready { result ≢ 12 → IsReady store.new }
    ensures sound { IsSound store.new }
    ensures stopped { result ≡ 12 → HasStopped store.new }
    ensures found { result ≡ 0 → Gets key (Some length.new) room.old room.new
        (seat_of store.old.heap) (seat_of store.new.heap) }
    ensures absent { result ≡ 1 → Gets key None room.old room.new
        (seat_of store.old.heap) (seat_of store.new.heap) }
    ensures same { result ≢ 12 → Turns (λ map. map) store.old store.new }
    ensures answers { result ≢ 2 }
{
    match Shard::at(key % 8).get(&mut store.heap, key, room) {
        Ok(Some(found)) => {
            *length = found as u64;
            DONE
        }
        Ok(None) => ABSENT,
        Err(_) => STOPPED,
    }
}

/// Takes a key out.
pub fn del(store: &mut Store, key: u64) -> u32
    requires ready { IsReady store.old }
    requires sound { IsSound store.old }
    ensures ready { result ≢ 12 → IsReady store.new }
    ensures sound { IsSound store.new }
    ensures stopped { result ≡ 12 → HasStopped store.new }
    ensures found { result ≡ 0 → Deletes key true
        (seat_of store.old.heap) (seat_of store.new.heap) }
    ensures absent { result ≡ 1 → Deletes key false
        (seat_of store.old.heap) (seat_of store.new.heap) }
    ensures gone { result ≢ 12 → Turns (λ map. without_key map key) store.old store.new }
    ensures crash { MayChange (shard_of key) (λ map. without_key map key)
        (seat_of store.old.heap) (seat_of store.new.heap) }
    ensures answers { result ≢ 2 }
{
    match Shard::at(key % 8).del(&mut store.heap, key) {
        Ok(true) => {
            take_key(&mut store.keys, key);
            DONE
        }
        Ok(false) => ABSENT,
        Err(_) => STOPPED,
    }
}
