//! Requests made of a dictionary until it stops, and what is read back from the images it leaves.
use crate::recoveries::recovered;
use crate::standing::Standing;
use block_heap::{AllocFault, Closed};
use dictionary::read_maps;
use line_memory::ConstantChance;
use region_header::Bytes;
use std::alloc::{AllocError, Global};
use std::collections::BTreeMap;
use std::test::Fail;

/// More steps than any test here takes.
pub const MANY: u64 = 100_000_000;

/// A request. A value is told by its length and by the byte that it has everywhere.
#[derive(Clone, Copy)]
pub enum Ask {
    Put(u64, usize, u8),
    Del(u64),
}

/// Keys with their values.
pub type Model = BTreeMap<u64, (usize, u8)>;

/// What a run of requests left, and how many of them were answered.
#[derive(Drop)]
pub struct Left {
    pub answered: usize,
    pub closed: Closed,
}

/// The shards of an image that was recovered, and how many blocks it holds.
#[derive(Drop)]
pub struct RecoveredShards {
    pub held: usize,
    maps: Vec<BTreeMap<u64, Bytes>>,
}

/// A value of that many bytes.
pub fn value_of(alloc: Global, len: usize, byte: u8) -> Result<Vec<u8>, AllocError> {
    vec![in alloc; byte; len]
}

/// Sets the key, and tells whether it was done: if not, the heap stopped.
pub fn set(
    alloc: Global,
    heap: &mut Standing<ConstantChance>,
    (key, len, byte): (u64, usize, u8),
) -> Result<bool, Fail> {
    let value = value_of(alloc, len, byte)?;
    match heap.put(key, &value)? {
        Ok(()) => Ok(true),
        Err(AllocFault::Stopped(_)) => Ok(false),
        Err(AllocFault::Full(_)) => Err("no room".into()),
    }
}

/// Takes the key out, and tells whether it was done.
fn unset(heap: &mut Standing<ConstantChance>, model: &Model, key: u64) -> Result<bool, Fail> {
    let Ok(found) = heap.del(key) else {
        return Ok(false);
    };
    if model.contains_key(&key) != found {
        return Err("another answer".into());
    }
    Ok(true)
}

/// Makes the request, and tells whether it was done.
fn is_done(
    alloc: Global,
    heap: &mut Standing<ConstantChance>,
    model: &Model,
    ask: Ask,
) -> Result<bool, Fail> {
    match ask {
        Ask::Put(key, len, byte) => set(alloc, heap, (key, len, byte)),
        Ask::Del(key) => unset(heap, model, key),
    }
}

/// Makes the request of a plain map.
fn note(model: &mut Model, ask: Ask) -> Result<(), AllocError> {
    match ask {
        Ask::Put(key, len, byte) => {
            model.insert(key, (len, byte))?;
        }
        Ask::Del(key) => {
            model.remove(&key);
        }
    }
    Ok(())
}

/// What the first so many requests leave of an empty map.
fn model_of(alloc: Global, asks: &[Ask], count: usize) -> Result<Model, AllocError> {
    let mut model = BTreeMap::new(alloc);
    for ask in asks.iter().take(count) {
        note(&mut model, *ask)?;
    }
    Ok(model)
}

/// Makes the requests of the heap until it stops; the answer is how many were answered.
fn ask_all(
    alloc: Global,
    heap: &mut Standing<ConstantChance>,
    asks: &[Ask],
) -> Result<usize, Fail> {
    let mut model = BTreeMap::new(alloc);
    let mut answered: usize = 0;
    for ask in asks {
        if !is_done(alloc, heap, &model, *ask)? {
            return Ok(answered);
        }
        note(&mut model, *ask)?;
        answered = answered.wrapping_add(1);
    }
    Ok(answered)
}

/// Opens the image with a budget of so many steps, and with chances that are all this number.
pub fn opened(
    alloc: Global,
    image: &[u64],
    (budget, number): (u64, u64),
) -> Result<Standing<ConstantChance>, Fail> {
    if budget > MANY {
        return Err("the budget is too large".into());
    }
    Standing::open(alloc, image, budget, ConstantChance(number))
}

/// Makes the requests of the heap until it stops, and closes it.
fn run_on(alloc: Global, mut heap: Standing<ConstantChance>, asks: &[Ask]) -> Result<Left, Fail> {
    let answered = ask_all(alloc, &mut heap, asks)?;
    Ok(Left {
        answered,
        closed: heap.finish(),
    })
}

/// Makes the requests over the image, until the heap stops.
pub fn run(alloc: Global, image: &[u64], asks: &[Ask], bounds: (u64, u64)) -> Result<Left, Fail> {
    run_on(alloc, opened(alloc, image, bounds)?, asks)
}

/// Recovers the image and reads its shards.
pub fn found_in(alloc: Global, image: &[u64]) -> Result<RecoveredShards, Fail> {
    let heap = recovered(alloc, image)?;
    Ok(RecoveredShards {
        held: heap.heap.held().len(),
        maps: read_maps(alloc, &heap)?,
    })
}

/// Whether the image has the keys and values that the requests leave of an empty map.
pub fn is_after(alloc: Global, image: &[u64], asks: &[Ask]) -> Result<bool, Fail> {
    Ok(found_in(alloc, image)?.is_after(alloc, asks, asks.len()))
}

/// Whether each of the bytes is this one.
pub fn all_are(bytes: &[u8], byte: u8) -> bool {
    bytes.iter().all(|found| *found == byte)
}

/// Whether the value is this one, if there is one.
fn is_value(value: &[u8], wanted: Option<&(usize, u8)>) -> bool {
    match wanted {
        Some((len, byte)) => value.len() == *len && all_are(value, *byte),
        None => false,
    }
}

/// Whether the model has each key of the shard with its value.
fn has_all(model: &Model, shard: &BTreeMap<u64, Bytes>) -> bool {
    for (key, value) in shard {
        if !is_value(value.as_slice(), model.get(key)) {
            return false;
        }
    }
    true
}

impl RecoveredShards {
    /// Whether the keys and values are those that the first so many requests leave of an empty map.
    pub fn is_after(&self, alloc: Global, asks: &[Ask], count: usize) -> bool {
        match model_of(alloc, asks, count) {
            Ok(model) => self.shows(&model),
            Err(_) => false,
        }
    }

    /// Whether the keys and values are those of the model.
    fn shows(&self, model: &Model) -> bool {
        let mut count: usize = 0;
        for shard in &self.maps {
            if !has_all(model, shard) {
                return false;
            }
            count = count.wrapping_add(shard.len());
        }
        count == model.len()
    }
}
