//! Which requests of a trace are a worker's.
ghost use Rattle.std.specs.Prelude.{◌≡◌, ℕ, ◌<◌, ◌≤◌};
ghost use Rattle.run_model.specs.Workers.{is_of_worker, key_of as asked, shard_asked, worker_of as number_of};
ghost use Rattle.worker_run.specs.Said.{request_of};

use dict_model::SHARDS;
use trace_text::Request;

/// One of so many workers: it works off the requests to the shards that are its own.
#[derive(Clone, Copy)]
pub struct Worker {
    /// Its number, from 0.
    pub number: usize,
    /// How many workers there are.
    pub workers: usize,
}

/// The key that the request is about; of a move the one that it takes out.
fn key_of(request: &Request) -> u64
    ensures { result ≡ asked (request_of request.now) }
{
    match request {
        Request::Put(key, _) => *key,
        Request::Get(key) => *key,
        Request::Del(key) => *key,
        Request::Move(key, _) => *key,
    }
}

/// The number of the worker, of so many, that works off the request.
pub fn worker_of(request: &Request, workers: usize) -> usize
    requires { 1 ≤ workers }
    ensures number { result ≡ number_of workers (shard_asked (request_of request.now)) }
    ensures below { result < workers }
{
    let shard = (key_of(request) % SHARDS) as usize;
    shard % workers
}

impl Worker {
    /// Whether the request is one of the worker's.
    pub fn has(self, request: &Request) -> bool
        requires { 1 ≤ self.workers }
        ensures { result ≡ is_of_worker self.workers self.number (request_of request.now) }
    {
        worker_of(request, self.workers) == self.number
    }
}
