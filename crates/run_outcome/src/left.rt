//! What image a run leaves, besides its maps.

ghost use Rattle.std.specs.Prelude.{ℕ, List, Bool, length, slice_index};
ghost use Rattle.heap_model.specs.declared.block.Block.{Block};
ghost use Rattle.dict_model.specs.Requests.{Request};
ghost use Rattle.run_model.specs.Runs.{LeavesHeader, LeavesOthers, LeavesState};
ghost use Rattle.run_model.specs.Workers.{Replies};
ghost use Rattle.run_outcome.specs.Closed.{LeavesOrderly};
ghost use Rattle.run_outcome.specs.Together.{HaveWorked};

/// The image that is left has a good header, and what belongs to no shard is in it as it was; where
/// the run wasn't stopped it is in good order.
pub fn what_the_workers_left()
    ensures header { (words : List ℕ) (held : List Block) (workers budget : ℕ)
        (requests : List Request) (replies : Replies) (stopped : Bool) (now kept left : List ℕ)
        → HaveWorked words held workers budget requests replies stopped now kept left
        → LeavesHeader (slice_index words) (length left) (slice_index left) }
    ensures others { (words : List ℕ) (held : List Block) (workers budget : ℕ)
        (requests : List Request) (replies : Replies) (stopped : Bool) (now kept left : List ℕ)
        → HaveWorked words held workers budget requests replies stopped now kept left
        → LeavesOthers (slice_index words) (slice_index left) }
    ensures state { (words : List ℕ) (held : List Block) (workers budget : ℕ)
        (requests : List Request) (replies : Replies) (stopped : Bool) (now kept left : List ℕ)
        → HaveWorked words held workers budget requests replies stopped now kept left
        → LeavesState stopped (slice_index left) }
    ensures orderly { (words : List ℕ) (held : List Block) (workers budget : ℕ)
        (requests : List Request) (replies : Replies) (stopped : Bool) (now kept left : List ℕ)
        → HaveWorked words held workers budget requests replies stopped now kept left
        → LeavesOrderly stopped (length left) (slice_index left) }
{}
