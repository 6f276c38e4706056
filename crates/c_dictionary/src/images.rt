//! Images: of an open dictionary, as it is closed, and as a crash leaves it.
ghost use Rattle.std.specs.Prelude.{◌≡◌, ◌≢◌, ◌⊎◌, ◌↔◌, [], ◌∷◌, length, slice_index, Contains, None, IfOk, OnOk, IfErr, OnErr};
ghost use Rattle.heap_model.specs.Geometry.{clean, dirty};
ghost use Rattle.heap_model.specs.Header.{state_of};
ghost use Rattle.heap_model.specs.Image.{image_of_bytes};
ghost use Rattle.c_dictionary.specs.Images.{OpensBytes, IsImageOf, LeavesImage, HasOtherLength, IsScrambledBy, length_of};
ghost use Rattle.c_dictionary.specs.Passing.{Becomes, HasHalted};
ghost use Rattle.region_header.specs.Words.{AreWordsOf};
ghost use Rattle.c_dictionary.specs.Ready.{IsHeldAt, HasStopped};
ghost use Rattle.c_dictionary.specs.Taking.{IsTaken, IsNotTaken};

use crate::fault::Fault;
use crate::handle::{CLOSED, Handle};
use crate::left::{put_words, words_left, words_of_crash};
use crate::loose::Loose;
use crate::opening::open_words;
use crate::status::{DONE, ROOM, USAGE};
use crate::store::{BUDGET, Store};
use std::alloc::Global;

/// How many bytes the image has.
#[unsafe(no_mangle)]
pub extern "C" fn heap_length(alloc: Global, handle: &mut Handle) -> u64
    ensures length { result ≡ length_of handle.old.value }
    ensures kept { handle.new.value ≡ handle.old.value }
{
    let state = handle.state();
    if state == CLOSED {
        return 0;
    }
    let store = handle.take(alloc).into_box();
    let length = store.length;
    handle.set(Loose::of(store), state);
    length
}

/// A dictionary that was taken out of its handle, and the handle's state then.
#[derive(Drop)]
struct Taken {
    store: Store,
    state: u64,
}

// Takes the dictionary out, where its image has so many bytes; or says why not.
fn take_out(alloc: Global, handle: &mut Handle, size: usize) -> Result<Taken, u32>
    ensures ok { IfOk result (λ taken. IsTaken handle.old.value size taken) }
    ensures gone { OnOk result (handle.new.value ≡ None) }
    ensures err { IfErr result (IsNotTaken handle.old.value size) }
    ensures kept { OnErr result (handle.new.value ≡ handle.old.value) }
{
    let state = handle.state();
    if state == CLOSED {
        return Err(USAGE);
    }
    let store = handle.take(alloc).into_box();
    if store.length != size as u64 {
        handle.set(Loose::of(store), state);
        return Err(ROOM);
    }
    let store = Box::into_inner(store);
    Ok(Taken { store, state })
}

// Puts its image into the room, and gives the words of it.
fn leave(taken: Taken, room: &mut [u8]) -> Vec<u64>
    requires held { IsHeldAt taken.state taken.store }
    requires size { taken.store.length ≡ length room.old }
    ensures image { IsImageOf taken.store result.items }
    ensures are { AreWordsOf result.items room.new }
    ensures clean { HasStopped taken.store ⊎ (state_of (slice_index result.items) ≡ clean) }
{
    let words = words_left(taken.store, taken.state);
    put_words(&words, room);
    words
}

/// Puts the image of now into the room, as a close would leave it, and opens it again.
#[unsafe(no_mangle)]
pub extern "C" fn heap_image(
    alloc: Global,
    handle: &mut Handle,
    room: &mut [u8],
    fault: &mut Fault,
) -> u32
    ensures left { (result ≡ 0) ⊎ (result ≡ 3) → LeavesImage handle.old.value room.new }
    ensures clean { (result ≡ 0) ⊎ (result ≡ 3)
        → HasHalted handle.old.value ⊎ (state_of (image_of_bytes room.new) ≡ clean) }
    ensures opened { result ≡ 0 → OpensBytes room.new handle.new.value }
    ensures same { result ≡ 0 → Becomes (λ map. map) handle.old.value handle.new.value }
    ensures closed { result ≡ 3 → handle.new.value ≡ None }
    ensures usage { (result ≡ 2) ↔ (handle.old.value ≡ None) }
    ensures room { (result ≡ 13) ↔ HasOtherLength handle.old.value (length room.old) }
    ensures kept { (result ≡ 2) ⊎ (result ≡ 13)
        → (handle.new.value ≡ handle.old.value) × (room.new ≡ room.old) }
    ensures told { fault.new ≡ fault.old }
    ensures answers { Contains (0 ∷ 2 ∷ 3 ∷ 13 ∷ []) result }
{
    match take_out(alloc, handle, room.len()) {
        Ok(taken) => {
            let words = leave(taken, room);
            open_words(alloc, &words, BUDGET, handle, fault)
        }
        Err(status) => status,
    }
}

/// Closes the dictionary: its image goes into the room, which has that many bytes. Where it has
/// stopped, the image is one that a crash leaves.
#[unsafe(no_mangle)]
pub extern "C" fn heap_close(alloc: Global, handle: &mut Handle, room: &mut [u8]) -> u32
    ensures left { result ≡ 0 → LeavesImage handle.old.value room.new }
    ensures clean { result ≡ 0
        → HasHalted handle.old.value ⊎ (state_of (image_of_bytes room.new) ≡ clean) }
    ensures closed { result ≡ 0 → handle.new.value ≡ None }
    ensures usage { (result ≡ 2) ↔ (handle.old.value ≡ None) }
    ensures room { (result ≡ 13) ↔ HasOtherLength handle.old.value (length room.old) }
    ensures kept { result ≢ 0 → (handle.new.value ≡ handle.old.value) × (room.new ≡ room.old) }
    ensures answers { Contains (0 ∷ 2 ∷ 13 ∷ []) result }
{
    match take_out(alloc, handle, room.len()) {
        Ok(taken) => {
            leave(taken, room);
            DONE
        }
        Err(status) => status,
    }
}

/// Puts into the room what a crash now may leave, by this seed, and closes the dictionary, as a
/// crash does.
#[unsafe(no_mangle)]
pub extern "C" fn heap_crash(alloc: Global, handle: &mut Handle, seed: u64, room: &mut [u8]) -> u32
    ensures left { result ≡ 0 → LeavesImage handle.old.value room.new }
    ensures dirty { result ≡ 0 → state_of (image_of_bytes room.new) ≡ dirty }
    ensures seeded { result ≡ 0 → IsScrambledBy seed (image_of_bytes room.new) }
    ensures closed { result ≡ 0 → handle.new.value ≡ None }
    ensures usage { (result ≡ 2) ↔ (handle.old.value ≡ None) }
    ensures room { (result ≡ 13) ↔ HasOtherLength handle.old.value (length room.old) }
    ensures kept { result ≢ 0 → (handle.new.value ≡ handle.old.value) × (room.new ≡ room.old) }
    ensures answers { Contains (0 ∷ 2 ∷ 13 ∷ []) result }
{
    match take_out(alloc, handle, room.len()) {
        Ok(taken) => {
            let words = words_of_crash(taken.store, seed);
            put_words(&words, room);
            DONE
        }
        Err(status) => status,
    }
}

/// Lets the dictionary go, and keeps nothing of it.
#[unsafe(no_mangle)]
pub extern "C" fn heap_drop(alloc: Global, handle: &mut Handle)
    ensures { handle.new.value ≡ None }
{
    if handle.state() != CLOSED {
        let _store = handle.take(alloc).into_box();
    }
}
