//! Which requests of a run are answered, and with which replies; and what maps that leaves.

ghost use Rattle.std.specs.Prelude.{ℕ, List, Bool, slice_index};
ghost use Rattle.heap_model.specs.declared.block.Block.{Block};
ghost use Rattle.dict_model.specs.Requests.{Request};
ghost use Rattle.run_model.specs.Runs.{AnswerInOrder, LeavesMaps, RepliesRightly};
ghost use Rattle.run_model.specs.Workers.{Replies};
ghost use Rattle.run_outcome.specs.Together.{HaveWorked};

/// Each worker has answered its first requests; the replies to a shard are right for its map; and
/// each shard is left as its answered requests and what arrived of moves make it. In a stopped run
/// the request that was under way may be done too.
pub fn what_the_workers_answered()
    ensures order { (words : List ℕ) (held : List Block) (workers budget : ℕ)
        (requests : List Request) (replies : Replies) (stopped : Bool) (now kept left : List ℕ)
        → HaveWorked words held workers budget requests replies stopped now kept left
        → AnswerInOrder workers requests replies }
    ensures replies { (words : List ℕ) (held : List Block) (workers budget : ℕ)
        (requests : List Request) (replies : Replies) (stopped : Bool) (now kept left : List ℕ)
        → HaveWorked words held workers budget requests replies stopped now kept left
        → RepliesRightly (slice_index words) requests replies }
    ensures maps { (words : List ℕ) (held : List Block) (workers budget : ℕ)
        (requests : List Request) (replies : Replies) (stopped : Bool) (now kept left : List ℕ)
        → HaveWorked words held workers budget requests replies stopped now kept left
        → LeavesMaps (slice_index words) workers requests replies stopped (slice_index left) }
{}
