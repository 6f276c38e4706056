//! The maps that were read before a run follow its replies: those of the image that is left need not
//! be read again.

ghost use Rattle.std.specs.Prelude.{◌≡◌, ℕ, [], ◌∷◌, ◌++◌, OnOk, length};
ghost use Rattle.dict_model.specs.Links.{shards};
ghost use Rattle.dict_model.specs.Requests.{put, done};
ghost use Rattle.dict_model.specs.Shards.{Map};
ghost use Rattle.run_model.specs.Arrivals.{arrivals};
ghost use Rattle.run_model.specs.Runs.{answered};
ghost use Rattle.worker_run.specs.Said.{request_of, requests_of, reply_of, replies_of};
ghost use Rattle.shared_run.specs.Following.{AreAfter, AreAfterRun, AreMapsOf, puts_under};

use dict_model::SHARDS;
use region_header::Bytes;
use std::alloc::{AllocError, Global};
use std::collections::{BTreeMap, VecDeque};
use trace_text::{Reply, Request};

/// Makes the maps of the shards those after the requests with these replies. What was moved arrives
/// once all of them are done.
pub(crate) fn follow(
    alloc: Global,
    maps: &mut Vec<BTreeMap<u64, Bytes>>,
    requests: &[Request],
    replies: &[Reply],
) -> Result<(), AllocError>
    requires shards { length maps.old.items ≡ shards }
    requires long { length replies.now ≡ length requests.now }
    ensures { OnOk result (AreAfterRun
        (answered (requests_of requests.now) (replies_of replies.now)) maps.old.items
        maps.new.items) }
{
    let mut moved = VecDeque::new(alloc);
    for i in 0..requests.len() {
        follow_one(alloc, maps, &requests[i], &replies[i], &mut moved)?;
    }
    arrive(maps, moved)
}

/// The same of one request. Only what was done changes a map; what a move takes out comes last
/// among what was moved.
fn follow_one(
    alloc: Global,
    maps: &mut Vec<BTreeMap<u64, Bytes>>,
    request: &Request,
    reply: &Reply,
    moved: &mut VecDeque<(u64, Bytes)>,
) -> Result<(), AllocError>
    requires { length maps.old.items ≡ shards }
    ensures maps { OnOk result (AreAfter
        (answered (request_of request.now ∷ []) (reply_of reply.now ∷ [])) maps.old.items
        maps.new.items) }
    ensures moved { OnOk result ((whole : Map) → AreMapsOf whole maps.old.items
        → puts_under moved.new.items ≡ puts_under moved.old.items ++ arrivals whole
        (answered (request_of request.now ∷ []) (reply_of reply.now ∷ []))) }
{
    let Reply::Ok = reply else {
        return Ok(());
    };
    match request {
        Request::Put(key, value) => {
            let value = Bytes::from_vec(Vec::from_slice(alloc, value.as_slice())?);
            put_in(maps, *key, value)?;
        }
        Request::Del(key) => {
            maps[(*key % SHARDS) as usize].remove(key);
        }
        Request::Move(key, to) => {
            if let Some(value) = maps[(*key % SHARDS) as usize].remove(key) {
                moved.push_back((*to, value))?;
            }
        }
        Request::Get(_) => {}
    }
    Ok(())
}

/// The value is the key's in the map of its shard.
fn put_in(maps: &mut Vec<BTreeMap<u64, Bytes>>, key: u64, value: Bytes) -> Result<(), AllocError>
    requires { length maps.old.items ≡ shards }
    ensures { OnOk result (AreAfter ((put key value, done) ∷ []) maps.old.items maps.new.items) }
{
    maps[(key % SHARDS) as usize].insert(key, value)?;
    Ok(())
}

/// Each of the values is its key's, one after the other: of two for a key the later one stays.
fn arrive(
    maps: &mut Vec<BTreeMap<u64, Bytes>>,
    mut moved: VecDeque<(u64, Bytes)>,
) -> Result<(), AllocError>
    requires { length maps.old.items ≡ shards }
    ensures { OnOk result (AreAfter (puts_under moved.items) maps.old.items maps.new.items) }
{
    while let Some((key, value)) = moved.pop_front() {
        put_in(maps, key, value)?;
    }
    Ok(())
}
