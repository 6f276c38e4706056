//! Which shards values are moved to.

ghost use Rattle.std.specs.Prelude.{◌≡◌, ◌<◌, ◌≤◌, ℕ, List};
ghost use Rattle.dict_model.specs.Links.{shards};
ghost use Rattle.run_model.specs.Needs.{is_moved_to, is_target_of};
ghost use Rattle.dict_model.specs.Requests.{Request as RequestView};
ghost use Rattle.shard_moves.specs.Tables.{is_flagged};
ghost use Rattle.worker_run.specs.Said.{requests_of};

use dict_model::SHARDS;
use shard_moves::ShardFlags;
use trace_text::Request;
use worker_run::Worker;

/// The shards that the moves of a trace bring values to.
pub fn targets_of_moves(requests: &[Request]) -> ShardFlags
    ensures { (shard : ℕ) → shard < shards
        → is_flagged result shard ≡ is_moved_to (requests_of requests.now) shard }
{
    let mut targets = [false; 8];
    for request in requests {
        if let Request::Move(_, to) = request {
            targets[(*to % SHARDS) as usize] = true;
        }
    }
    targets
}

/// Those of them that are the worker's.
pub(crate) fn own_targets(worker: Worker, targets: &ShardFlags) -> ShardFlags
    requires { 1 ≤ worker.workers }
    ensures { (requests : List RequestView)
        → ((shard : ℕ) → shard < shards → is_flagged targets.now shard ≡ is_moved_to requests shard)
        → (shard : ℕ) → shard < shards
        → is_flagged result shard ≡ is_target_of worker.workers worker.number requests shard }
{
    let mut own = [false; 8];
    for shard in 0..8 {
        own[shard] = shard % worker.workers == worker.number && targets[shard];
    }
    own
}
