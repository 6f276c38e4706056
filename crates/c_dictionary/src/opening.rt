//! Opening.
ghost use Rattle.std.specs.Prelude.{◌≡◌, ◌≢◌, ◌⊎◌, ◌↔◌, ◌≤◌, ◌<◌, ◌^◌, [], ◌∷◌, length, Contains, Some, None, IsSome, IfSome, IfOk, OnOk, IfErr};
ghost use Rattle.heap_model.specs.declared.header.BadHeader.{BadHeader};
ghost use Rattle.heap_model.specs.Header.{header_fault};
ghost use Rattle.heap_model.specs.Image.{image_of_bytes};
ghost use Rattle.dict_model.specs.Links.{kind_count};
ghost use Rattle.dictionary_heap.specs.Images.{CanBeRecovered};
ghost use Rattle.dictionary_heap.specs.Faults.{TellsFault};
ghost use Rattle.c_dictionary.specs.Faults.{IsRefused, TellsFaultOf};
ghost use Rattle.c_dictionary.specs.Images.{IsMapOf, OpensWords, OpensBytes, OpensEmpty};
ghost use Rattle.c_dictionary.specs.Ready.{IsReady, IsSound, HasAllSteps};

use crate::fault::{Fault, tell};
use crate::handle::{CLOSED, GOING, Handle};
use crate::keys::keys_of;
use crate::loose::Loose;
use crate::status::{DONE, MEMORY, USAGE};
use crate::store::{BUDGET, Store};
use block_heap::SeqHeap;
use dictionary_heap::{OpenFault, recover_dictionary};
use line_memory::ConstantChance;
use region_header::{bytes_to_words, check_bytes, format};
use std::alloc::{AllocError, Global};
use super_block::LARGEST_CAPACITY;

// A dictionary of the image of these words.
fn open_store(alloc: Global, words: &[u64], budget: u64) -> Result<Box<Store>, OpenFault>
    requires { budget < 2 ^ 40 }
    ensures ready { IfOk result (λ store. IsReady store.value) }
    ensures sound { IfOk result (λ store. IsSound store.value) }
    ensures opens { IfOk result (λ store. IsMapOf words.now store.value) }
    ensures steps { IfOk result (λ store. HasAllSteps budget store.value) }
    ensures good { OnOk result (CanBeRecovered words.now) }
    ensures cause { IfErr result (TellsFault words.now) }
{
    let found = recover_dictionary(alloc, words)?;
    let keys = keys_of(alloc, &found.maps)?;
    let length = 8 * found.heap.words().len() as u64;
    let heap = SeqHeap::new(alloc, found.heap, budget, ConstantChance(0))?;
    match Box::new(alloc, Store { heap, keys, length }) {
        Ok(store) => Ok(store),
        Err(e) => Err(AllocError::from(e).into()),
    }
}

/// Opens the image of these words.
pub fn open_words(
    alloc: Global,
    words: &[u64],
    budget: u64,
    handle: &mut Handle,
    fault: &mut Fault,
) -> u32
    requires { budget < 2 ^ 40 }
    ensures opened { result ≡ 0 → OpensWords words.now handle.new.value }
    ensures steps { result ≡ 0 → IfSome handle.new.value (HasAllSteps budget) }
    ensures refused { result ≢ 0 → IsRefused (TellsFault words.now) result fault.old fault.new }
    ensures kept { result ≢ 0 → handle.new.value ≡ handle.old.value }
    ensures untold { result ≡ 0 → fault.new ≡ fault.old }
{
    match open_store(alloc, words, budget) {
        Ok(store) => {
            handle.set(Loose::of(store), GOING);
            DONE
        }
        Err(cause) => tell(cause, fault),
    }
}

/// Opens an empty image of so many superblocks.
#[tactic(auto, unfolding(heap_model::specs::Geometry::largest_capacity))]
#[unsafe(no_mangle)]
pub extern "C" fn heap_format(
    alloc: Global,
    superblocks: u64,
    handle: &mut Handle,
    fault: &mut Fault,
) -> u32
    ensures usage { (result ≡ 2)
        ↔ (IsSome handle.old.value ⊎ (superblocks ≡ 0) ⊎ (4096 < superblocks)) }
    ensures opened { result ≡ 0 → OpensEmpty superblocks handle.new.value }
    ensures kept { result ≢ 0 → handle.new.value ≡ handle.old.value }
    ensures told { fault.new ≡ fault.old }
    ensures answers { Contains (0 ∷ 2 ∷ 3 ∷ []) result }
{
    if handle.state() != CLOSED || superblocks == 0 || superblocks > LARGEST_CAPACITY {
        return USAGE;
    }
    match format(alloc, superblocks) {
        Ok(words) => open_words(alloc, &words, BUDGET, handle, fault),
        Err(_) => MEMORY,
    }
}

// Opens the image in these bytes.
fn open_bytes(
    alloc: Global,
    bytes: &[u8],
    budget: u64,
    handle: &mut Handle,
    fault: &mut Fault,
) -> u32
    requires { budget < 2 ^ 40 }
    ensures opened { result ≡ 0 → OpensBytes bytes.now handle.new.value }
    ensures steps { result ≡ 0 → IfSome handle.new.value (HasAllSteps budget) }
    ensures refused { result ≢ 0 → IsRefused (TellsFaultOf bytes.now) result fault.old fault.new }
    ensures header { (cause : BadHeader)
        → header_fault (Some kind_count) (length bytes.now) (image_of_bytes bytes.now) ≡ Some cause
        → result ≡ 7 }
    ensures kept { result ≢ 0 → handle.new.value ≡ handle.old.value }
    ensures answers { result ≢ 2 }
{
    if let Err(bad) = check_bytes(bytes, Some(3)) {
        return tell(OpenFault::Header(bad), fault);
    }
    match bytes_to_words(alloc, bytes) {
        Ok(words) => open_words(alloc, &words, budget, handle, fault),
        Err(_) => MEMORY,
    }
}

/// Opens the image in these bytes, after a close or a crash.
#[unsafe(no_mangle)]
pub extern "C" fn heap_open(
    alloc: Global,
    bytes: &[u8],
    handle: &mut Handle,
    fault: &mut Fault,
) -> u32
    ensures opened { result ≡ 0 → OpensBytes bytes.now handle.new.value }
    ensures usage { (result ≡ 2) ↔ IsSome handle.old.value }
    ensures refused { result ≢ 0 → result ≢ 2
        → IsRefused (TellsFaultOf bytes.now) result fault.old fault.new }
    ensures header { (cause : BadHeader) → handle.old.value ≡ None
        → header_fault (Some kind_count) (length bytes.now) (image_of_bytes bytes.now) ≡ Some cause
        → result ≡ 7 }
    ensures kept { result ≢ 0 → handle.new.value ≡ handle.old.value }
    ensures untold { result ≡ 2 → fault.new ≡ fault.old }
{
    if handle.state() != CLOSED {
        return USAGE;
    }
    open_bytes(alloc, bytes, BUDGET, handle, fault)
}

/// The same, with a budget of so many steps.
#[unsafe(no_mangle)]
pub extern "C" fn heap_open_limited(
    alloc: Global,
    bytes: &[u8],
    budget: u64,
    handle: &mut Handle,
    fault: &mut Fault,
) -> u32
    ensures opened { result ≡ 0 → OpensBytes bytes.now handle.new.value }
    ensures steps { result ≡ 0 → IfSome handle.new.value (HasAllSteps budget) }
    ensures usage { (result ≡ 2) ↔ (IsSome handle.old.value ⊎ (2 ^ 40 ≤ budget)) }
    ensures refused { result ≢ 0 → result ≢ 2
        → IsRefused (TellsFaultOf bytes.now) result fault.old fault.new }
    ensures header { (cause : BadHeader) → handle.old.value ≡ None → budget < 2 ^ 40
        → header_fault (Some kind_count) (length bytes.now) (image_of_bytes bytes.now) ≡ Some cause
        → result ≡ 7 }
    ensures kept { result ≢ 0 → handle.new.value ≡ handle.old.value }
    ensures untold { result ≡ 2 → fault.new ≡ fault.old }
{
    if handle.state() != CLOSED || budget > BUDGET {
        return USAGE;
    }
    open_bytes(alloc, bytes, budget, handle, fault)
}
