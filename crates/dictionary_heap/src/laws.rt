//! What follows for a heap that was opened over a dictionary, as a function with nothing to run: a
//! caller cites its clauses.
ghost use Rattle.std.specs.Prelude.{◌≡◌, ℕ, List, [], Contains, slice_index};
ghost use Rattle.heap_model.specs.declared.block.Block.{Block};
ghost use Rattle.block_heap.specs.Closing.{IsOpened};
ghost use Rattle.block_heap.specs.SeqState.{SeqState, seat_of};
ghost use Rattle.dict_requests.specs.Reached.{ReachesAllHeld};
ghost use Rattle.dict_requests.specs.Shards.{HasShards};
ghost use Rattle.run_model.specs.Opened.{IsDictionary, IsOpenedOver, HasAllRoots};
ghost use Rattle.run_model.specs.Progress.{HasAnswered};

/// A heap for one thread that was opened over a dictionary at rest: it has all roots, holds exactly
/// what these reach, with its words as they stand in the image, a request to any shard may be made,
/// and a run of a trace begins.
pub fn an_opened_dictionary_has_its_shards()
    ensures over { (words : List ℕ) (held : List Block) (budget : ℕ) (s : SeqState)
        → IsOpened words held budget s → IsDictionary (slice_index words) (Contains held)
        → IsOpenedOver (slice_index words) (seat_of s) }
    ensures roots { (s : SeqState) → HasAllRoots (seat_of s) }
    ensures shards { (words : List ℕ) (held : List Block) (budget : ℕ) (s : SeqState)
        → IsOpened words held budget s → IsDictionary (slice_index words) (Contains held)
        → HasShards (seat_of s) }
    ensures exact { (words : List ℕ) (held : List Block) (budget : ℕ) (s : SeqState)
        → IsOpened words held budget s → IsDictionary (slice_index words) (Contains held)
        → ReachesAllHeld (seat_of s) }
    ensures begins { (words : List ℕ) (held : List Block) (budget : ℕ) (s : SeqState)
        → IsOpened words held budget s → IsDictionary (slice_index words) (Contains held)
        → HasAnswered (slice_index words) [] (seat_of s) }
{}
