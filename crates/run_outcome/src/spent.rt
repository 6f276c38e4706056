//! What a run took of its heap and of its budget, and why a request was refused.

ghost use Rattle.std.specs.Prelude.{ℕ, List, Bool, slice_index};
ghost use Rattle.heap_model.specs.declared.block.Block.{Block};
ghost use Rattle.dict_model.specs.Requests.{Request};
ghost use Rattle.run_model.specs.Runs.{IsFullRightly, LeavesUsed, StopsRightly};
ghost use Rattle.run_model.specs.Workers.{Replies};
ghost use Rattle.run_outcome.specs.Together.{HaveWorked};

/// A run is stopped only where its budget is below the bound; a put or a move is told that there is
/// no room only where too few superblocks were left, with those that other requests and the tables
/// may take; and no superblock is lost.
pub fn what_the_workers_spent()
    ensures stops { (words : List ℕ) (held : List Block) (workers budget : ℕ)
        (requests : List Request) (replies : Replies) (stopped : Bool) (now kept left : List ℕ)
        → HaveWorked words held workers budget requests replies stopped now kept left
        → StopsRightly (slice_index words) workers requests budget replies stopped }
    ensures full { (words : List ℕ) (held : List Block) (workers budget : ℕ)
        (requests : List Request) (replies : Replies) (stopped : Bool) (now kept left : List ℕ)
        → HaveWorked words held workers budget requests replies stopped now kept left
        → IsFullRightly (slice_index words) workers requests replies }
    ensures used { (words : List ℕ) (held : List Block) (workers budget : ℕ)
        (requests : List Request) (replies : Replies) (stopped : Bool) (now kept left : List ℕ)
        → HaveWorked words held workers budget requests replies stopped now kept left
        → LeavesUsed (slice_index words) workers requests replies (slice_index left) }
{}
