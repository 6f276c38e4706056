//! The room that a trace's gets need for the values that they may find.
ghost use Rattle.std.specs.Prelude.{◌≡◌, ℕ, ◌≤◌, List, length, max, slice_get, IfOk, OnOk};
ghost use Rattle.heap_model.specs.Image.{Image};
ghost use Rattle.dict_model.specs.Links.{shards};
ghost use Rattle.dictionary.specs.Reading.{AreMaps};
ghost use Rattle.dict_model.specs.Requests.{Request as Asked};
ghost use Rattle.run_model.specs.Opened.{HasMaps};
ghost use Rattle.run_model.specs.Workers.{worker_requests};
ghost use Rattle.run_model.specs.Working.{HasRoom, HaveRoom};
ghost use Rattle.worker_run.specs.Rooms.{length_at, length_in, Raises, AreLongest};
ghost use Rattle.worker_run.specs.Said.{request_of, requests_of, ValuesAreShort};

use crate::worker::Worker;
use dict_model::SHARDS;
use region_header::Bytes;
use std::alloc::{AllocError, Global};
use std::collections::{BTreeMap, VecDeque};
use trace_text::Request;

/// The length of the longest value that the trace puts under the key; 0 if it puts none.
fn longest_put(longest: &BTreeMap<u64, usize>, key: u64) -> usize
    ensures { result ≡ length_at longest.now key }
{
    longest.get(&key).copied().unwrap_or(0)
}

/// Keeps the length for the key, unless it keeps a longer one.
fn keep_longest(
    longest: &mut BTreeMap<u64, usize>,
    key: u64,
    length: usize,
) -> Result<(), AllocError>
    ensures { OnOk result (Raises key length longest.old longest.new) }
{
    longest.insert(key, length.max(longest_put(longest, key)))?;
    Ok(())
}

/// The length of the key's value in the map; 0 if it has none.
fn opened_length(map: &BTreeMap<u64, Bytes>, key: u64) -> usize
    ensures { result ≡ length_in map.now key }
{
    match map.get(&key) {
        Some(value) => value.as_slice().len(),
        None => 0,
    }
}

/// The length of the longest value that the trace puts under each key: read once for all workers.
pub fn longest_puts(alloc: Global, requests: &[Request]) -> Result<BTreeMap<u64, usize>, AllocError>
    requires { ValuesAreShort (requests_of requests.now) }
    ensures { IfOk result (AreLongest (requests_of requests.now)) }
{
    let mut longest = BTreeMap::new(alloc);
    for request in requests {
        if let Request::Put(key, value) = request {
            keep_longest(&mut longest, *key, value.as_slice().len())?;
        }
    }
    Ok(longest)
}

/// The room for what the request may read: none but for a get.
fn make_room(
    alloc: Global,
    maps: &[BTreeMap<u64, Bytes>],
    longest: &BTreeMap<u64, usize>,
    request: &Request,
) -> Result<Bytes, AllocError>
    requires { length maps.now ≡ shards }
    ensures { (image : Image) (requests : List Asked) → AreMaps image shards maps.now
        → AreLongest requests longest.now
        → IfOk result (λ room. HasRoom image requests (request_of request.now) (length room)) }
{
    let Request::Get(key) = request else {
        return Ok(Bytes::from_vec(Vec::new(alloc)));
    };
    let opened = opened_length(&maps[(*key % SHARDS) as usize], *key);
    let room = opened.max(longest_put(longest, *key));
    Ok(Bytes::from_vec(vec![in alloc; 0; room]?))
}

/// A room for each of the worker's requests. That of a get is as long as the longest value that it
/// may find: the key's in the maps, and each that the trace puts. `longest` has the latter ones, as
/// `longest_puts` tells them.
pub fn make_rooms(
    alloc: Global,
    maps: &[BTreeMap<u64, Bytes>],
    longest: &BTreeMap<u64, usize>,
    worker: Worker,
    requests: &[Request],
) -> Result<VecDeque<Bytes>, AllocError>
    requires some { 1 ≤ worker.workers }
    requires maps { length maps.now ≡ shards }
    ensures { (image : Image) → HasMaps image → AreMaps image shards maps.now
        → AreLongest (requests_of requests.now) longest.now
        → IfOk result (λ rooms. HaveRoom image (requests_of requests.now)
        (worker_requests worker.workers worker.number (requests_of requests.now)) rooms.items) }
{
    let mut rooms = VecDeque::with_capacity(alloc, requests.len())?;
    for request in requests {
        if worker.has(request) {
            rooms.push_back_reserved(make_room(alloc, maps, longest, request)?);
        }
    }
    Ok(rooms)
}
