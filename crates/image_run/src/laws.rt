//! What follows of runs, rebuilds and replays, as functions with nothing to run.
ghost use Rattle.std.specs.Prelude.{◌≡◌, ◌≢◌, ◌↔◌, ℕ, ◌+◌, ◌%◌, ◌<◌, ◌≤◌, true, false, List, Some, None, length, slice_index};
ghost use Rattle.std.specs.BTreeMap.{BTreeMap};
ghost use Rattle.heap_model.specs.declared.block.Block.{Block};
ghost use Rattle.heap_model.specs.Geometry.{start_word, superblocks_end};
ghost use Rattle.heap_model.specs.Image.{Image};
ghost use Rattle.heap_model.specs.Durability.{IsCrashImage};
ghost use Rattle.heap_model.specs.Header.{capacity_of, used_of};
ghost use Rattle.heap_recover.specs.InPlace.{RecoversAlike};
ghost use Rattle.heap_at_rest.specs.Orderly.{IsOrderly, IsHeldByAnchors};
ghost use Rattle.core_model.specs.declared.answer.StepAnswer.{StepAnswer};
ghost use Rattle.core_model.specs.declared.event.Event.{Event};
ghost use Rattle.dict_model.specs.Links.{dict_links, kind_count, shards};
ghost use Rattle.dict_model.specs.Requests.{Request};
ghost use Rattle.dict_model.specs.Shards.{Map};
ghost use Rattle.dictionary.specs.Reading.{RecoversTo, AreMaps};
ghost use Rattle.run_model.specs.Needs.{superblocks_needed, ListsKeysOf, step_bound};
ghost use Rattle.run_model.specs.Arrivals.{IsWholeMap};
ghost use Rattle.run_model.specs.OneMap.{NoneIsFull, IsAsOneThread};
ghost use Rattle.run_model.specs.Opened.{HasMaps};
ghost use Rattle.worker_run.specs.Said.{replies_of};
ghost use Rattle.image_run.specs.Reporting.{fault_of, image_in, IsKept, PointsOutside, Recovers};
ghost use Rattle.image_run.specs.Running.{Options, RunsRequests};
ghost use Rattle.image_run.specs.Rebuilding.{IsLeftBySteps, Rebuilds};
ghost use Rattle.image_run.specs.Replaying.{IsReplayed, Replays, LeavesOutside};

use line_memory::Chance;

/// A run over what recovery leaves of an image is one over the image itself.
pub fn a_run_over_what_recovery_leaves_is_one_over_the_image()
    ensures { (image words : Image) (maps : List (BTreeMap ℕ (List ℕ)))
        → RecoversTo image words → AreMaps words shards maps
        → (requests : List Request) (options : Options) (put text : List ℕ)
        → RunsRequests words requests options put text
        → RunsRequests image requests options put text }
{}

/// What a run over an image whose shards are maps puts is accepted by the next run: its bytes are
/// not malformed, nothing in it is outside, and each of its shards is a map. Where the run isn't
/// stopped, the image tells by its own anchors what it holds, which is what its roots reach: so it
/// can be opened without a trace, and `count` prints `quick` of it.
pub fn what_a_run_puts_can_be_run_again()
    ensures well_formed { (image : Image) (requests : List Request) (options : Options)
        (put text : List ℕ) → HasMaps image → RunsRequests image requests options put text
        → fault_of put ≡ None }
    ensures nothing_outside { (image : Image) (requests : List Request) (options : Options)
        (put text : List ℕ) → HasMaps image → RunsRequests image requests options put text
        → (at : ℕ) → PointsOutside (image_in put) at → ⊥ }
    ensures maps { (image : Image) (requests : List Request) (options : Options)
        (put text : List ℕ) → HasMaps image → RunsRequests image requests options put text
        → HasMaps (image_in put) }
    ensures orderly { (image : Image) (requests : List Request) (options : Options)
        (put text : List ℕ) → HasMaps image → (run : RunsRequests image requests options put text)
        → run.stopped ≡ false
        → IsOrderly (Some kind_count) (length put) (image_in put)
        × ((b : Block) → IsHeldByAnchors (image_in put) b ↔ IsKept (image_in put) b) }
{}

/// A run that isn't stopped leaves the superblocks that are not taken in the image that it puts as
/// they were: each word behind the taken ones is that of the image before.
pub fn a_superblock_that_a_run_never_took_stays_as_it_was()
    ensures { (image : Image) (requests : List Request) (options : Options) (put text : List ℕ)
        → (run : RunsRequests image requests options put text) → run.stopped ≡ false
        → (word : ℕ) → start_word (capacity_of image) (used_of (image_in put)) ≤ word
        → word < superblocks_end (capacity_of image) → image_in put word ≡ image word }
{}

/// Recovery of an image leaves one heap: it keeps the same list of blocks, frees the same list of
/// superblocks, and leaves the same value of each word.
pub fn an_image_is_recovered_in_one_way()
    ensures held { (image words other : Image) (held again : List Block) (free freed : List ℕ)
        → Recovers image held free words → Recovers image again freed other → again ≡ held }
    ensures free { (image words other : Image) (held again : List Block) (free freed : List ℕ)
        → Recovers image held free words → Recovers image again freed other → freed ≡ free }
    ensures words { (image words other : Image) (held again : List Block) (free freed : List ℕ)
        → Recovers image held free words → Recovers image again freed other
        → (word : ℕ) → other word ≡ words word }
{}

/// A run that isn't stopped, and refuses no request for want of room, is that of one thread,
/// however many workers it has: the replies are those of one map asked by the whole trace in its
/// order, and that map after it is left, with what arrives by its moves.
pub fn a_run_without_a_refusal_is_that_of_one_thread()
    ensures { (image : Image) (requests : List Request) (options : Options) (put text : List ℕ)
        → HasMaps image → (run : RunsRequests image requests options put text)
        → run.stopped ≡ false → NoneIsFull (replies_of run.told)
        → IsAsOneThread image requests (replies_of run.told) (slice_index run.left) }
{}

/// So are those with enough of a budget and enough room: the one isn't stopped, and the other
/// refuses nothing.
pub fn enough_budget_and_room_are_known()
    ensures budget { (image : Image) (requests : List Request) (options : Options)
        (put text keys : List ℕ) → (run : RunsRequests image requests options put text)
        → ListsKeysOf image keys
        → step_bound (length requests) (length keys) options.workers ≤ options.budget
        → run.stopped ≡ false }
    ensures room { (image : Image) (requests : List Request) (options : Options)
        (put text : List ℕ) → HasMaps image
        → (run : RunsRequests image requests options put text)
        → used_of image + superblocks_needed requests ≤ capacity_of image
        → NoneIsFull (replies_of run.told) }
{}

/// Two such runs of a trace over one image tell the same replies, and leave the same map, whatever
/// their workers, schedules and chances.
pub fn runs_without_a_refusal_are_alike()
    ensures told { (image : Image) (requests : List Request) (options others : Options)
        (put text saved shown : List ℕ) → HasMaps image
        → (run : RunsRequests image requests options put text)
        → (other : RunsRequests image requests others saved shown)
        → run.stopped ≡ false → other.stopped ≡ false
        → NoneIsFull (replies_of run.told) → NoneIsFull (replies_of other.told)
        → other.told ≡ run.told }
    ensures left { (image : Image) (requests : List Request) (options others : Options)
        (put text saved shown : List ℕ) → HasMaps image
        → (run : RunsRequests image requests options put text)
        → (other : RunsRequests image requests others saved shown)
        → run.stopped ≡ false → other.stopped ≡ false
        → NoneIsFull (replies_of run.told) → NoneIsFull (replies_of other.told)
        → (whole : Map) → IsWholeMap (slice_index run.left) whole
        → IsWholeMap (slice_index other.left) whole }
{}

/// What recovery in place puts can be recovered: its bytes are not malformed, nothing in it is
/// outside, and recovery of it keeps what that of the image keeps.
pub fn what_a_rebuild_puts_can_be_recovered()
    ensures well_formed { (image : Image) (count budget : ℕ) (put text : List ℕ)
        → Rebuilds image count budget put text → fault_of put ≡ None }
    ensures alike { (image : Image) (count budget : ℕ) (put text : List ℕ)
        → Rebuilds image count budget put text
        → RecoversAlike (Some kind_count) (length put) image (image_in put) dict_links }
{}

/// Where its chance gives even numbers alone, a rebuild that is stopped leaves the image as it was,
/// but for its state and the words that a crash leaves with any value. All else waits for the
/// fence, which comes last.
pub fn a_stopped_rebuild_settles_words_by_chance_alone<C: Chance>()
    ensures { ((old new : C) (number : ℕ) → C.draw_gives old number new → number % 2 ≢ 1)
        → (chance : C) (image : Image) (budget : ℕ) (left : List ℕ)
        → IsLeftBySteps C.draw_gives chance image budget true left
        → IsCrashImage image (slice_index left) }
{}

/// A replay of a schedule has one outcome, whatever a crash then leaves at random: each event has
/// one answer, as many tickets are drawn, and the same words of what the crash leaves point
/// outside, with the same values. So it prints one text, or leaves a word that points outside, and
/// never both.
pub fn a_replay_has_one_outcome()
    ensures answers { (words : List ℕ) (held : List Block) (seats : ℕ) (lines : List (ℕ × Event))
        (answers again : List StepAnswer) (tickets drawn : ℕ) (left other : List ℕ)
        → IsReplayed words held seats lines answers tickets left
        → IsReplayed words held seats lines again drawn other
        → (again ≡ answers) × (drawn ≡ tickets) }
    ensures outside { (words : List ℕ) (held : List Block) (seats : ℕ) (lines : List (ℕ × Event))
        (at value : ℕ) → LeavesOutside words held seats lines at value
        → (answers : List StepAnswer) (tickets : ℕ) (left : List ℕ)
        → IsReplayed words held seats lines answers tickets left
        → PointsOutside (slice_index left) at × (slice_index left at ≡ value) }
    ensures text { (words : List ℕ) (held : List Block) (seats : ℕ) (lines : List (ℕ × Event))
        (text other : List ℕ) → Replays words held seats lines text
        → Replays words held seats lines other → other ≡ text }
    ensures never_both { (words : List ℕ) (held : List Block) (seats : ℕ)
        (lines : List (ℕ × Event)) (text : List ℕ) (at value : ℕ)
        → Replays words held seats lines text → LeavesOutside words held seats lines at value → ⊥ }
{}
