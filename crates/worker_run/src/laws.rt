//! What follows from the definitions, as functions with nothing to run: a caller cites their
//! clauses.

ghost use Rattle.std.specs.Prelude.{◌≡◌, ℕ, ◌<◌, Bool, true, List, [], ◌∷◌, ◌++◌, Some, false, Contains};
ghost use Rattle.std.specs.BTreeMap.{BTreeMap};
ghost use Rattle.heap_model.specs.declared.block.Block.{Block};
ghost use Rattle.heap_model.specs.Image.{Image};
ghost use Rattle.heap_model.specs.Reach.{IsReachedIn};
ghost use Rattle.heap_model.specs.Recovered.{AreAscending};
ghost use Rattle.heap_model.specs.Header.{HasKindsBelow};
ghost use Rattle.dictionary.specs.Reading.{AreMaps, RecoversTo};
ghost use Rattle.heap_seat.specs.View.{View};
ghost use Rattle.heap_seat.specs.Words.{KeepsOwn, MixesOwn, NamesAll, StoresKinds};
ghost use Rattle.heap_seat.specs.Sound.{IsSeat};
ghost use Rattle.dict_model.specs.Links.{shards, kind_count, dict_links};
ghost use Rattle.dict_model.specs.Requests.{Request, Reply, after};
ghost use Rattle.dict_model.specs.Shards.{Map, MapOf};
ghost use Rattle.dict_requests.specs.Removal.{IsShard};
ghost use Rattle.run_model.specs.Needs.{ListsKeysOf};
ghost use Rattle.run_model.specs.Runs.{of_shard, IsMapLeft, LeavesMaps, LeavesHeader, LeavesOthers};
ghost use Rattle.run_model.specs.Opened.{HasMaps, IsDictionary, IsOpenedOver, HasAllRoots, CanBeRun};
ghost use Rattle.run_model.specs.Progress.{Answers, MayAnswer, HasAnswered};
ghost use Rattle.run_model.specs.Stands.{StandsOver};
ghost use Rattle.run_model.specs.Workers.{Replies};
ghost use Rattle.worker_run.specs.Said.{Line, requests_of, ValuesAreShort};
ghost use Rattle.trace_text.specs.Trace.{AreLines};

use heap_seat::HeapSeat;

/// The keys of a dictionary are finitely many, so that there is a bound of steps for each trace.
pub fn a_dictionary_lists_its_keys()
    ensures { (image : Image) → HasMaps image → (keys : List ℕ) × ListsKeysOf image keys }
{}

/// The values of a trace that was read are short enough to be put.
pub fn a_read_trace_is_short()
    ensures { (texts : List (List ℕ)) (lines : List Line) → AreLines texts lines
        → ValuesAreShort (requests_of lines) }
{}

/// What recovery leaves is a dictionary where each shard is a map.
pub fn a_recovered_dictionary_is_a_dictionary()
    ensures { (old new : Image) (held : List Block) (maps : List (BTreeMap ℕ (List ℕ)))
        → RecoversTo old new → AreAscending (λ (b : Block). b.first_word)
        (IsReachedIn old dict_links) held
        → HasKindsBelow (Some kind_count) new → AreMaps new shards maps
        → IsDictionary new (Contains held) }
{}

/// What a run leaves can be run again, closed or stopped: recovery does not refuse it, and each of
/// its shards is a map.
pub fn what_a_run_leaves_can_be_run_again()
    ensures { (image left : Image) (workers : ℕ) (requests : List Request) (replies : Replies)
        (stopped : Bool) (words : ℕ) → HasMaps image
        → LeavesMaps image workers requests replies stopped left
        → LeavesHeader image words left → LeavesOthers image left → CanBeRun words left }
{}

/// A run goes on request by request in a seat's shards. It begins over a seat that was opened with
/// an image of the dictionary; a request that is answered makes it longer by one; and wherever a
/// request ends, what belongs to no shard stands.
pub fn a_run_goes_on_request_by_request()
    ensures begins { (image : Image) (v : View) → IsSeat v → IsOpenedOver image v
        → HasAnswered image [] v }
    ensures goes_on { (image : Image) (rs : List (Request × Reply)) (v w : View)
        (request : Request) → IsSeat v → HasAnswered image rs v → MayAnswer request v w
        → (reply : Reply) → Answers request reply v w
        → HasAnswered image (rs ++ (request, reply) ∷ []) w }
    ensures stands { (image : Image) (v w : View) (request : Request) → StandsOver image v
        → MayAnswer request v w → StandsOver image w }
{}

/// Wherever a run has come, a request to each shard of the seat may be made.
pub fn each_shard_of_a_seat_may_be_asked()
    ensures { (image : Image) (rs : List (Request × Reply)) (v : View) (shard : ℕ)
        → HasMaps image → shard < shards → Contains v.roots shard → HasAnswered image rs v
        → IsShard v shard }
{}

/// A call that stores to no own word leaves a run as it is.
pub fn what_a_seat_kept_is_as_it_was()
    ensures { (image : Image) (rs : List (Request × Reply)) (v w : View) → IsSeat v → IsSeat w
        → KeepsOwn v w → w.kinds ≡ v.kinds → HasAnswered image rs v → HasAnswered image rs w }
{}

/// What a run leaves of a seat of all roots is an image of the dictionary: each shard is its map
/// after the answered requests, or, where the next request was stopped, it may be the map after
/// that too; and nothing in it is outside.
pub fn what_a_run_leaves_is_a_dictionary()
    ensures maps { (image : Image) (rs : List (Request × Reply)) (v : View) (left : Image)
        → IsSeat v → HasAllRoots v → HasAnswered image rs v → MixesOwn v left
        → NamesAll left v.held → StoresKinds v left
        → (shard : ℕ) (map : Map) → shard < shards → MapOf image shard map
        → MapOf left shard (after map (of_shard shard rs)) }
    ensures stopped { (image : Image) (rs : List (Request × Reply)) (v w : View)
        (request : Request) → IsSeat v → HasAllRoots v → HasAnswered image rs v
        → MayAnswer request v w → (left : Image) (others : List Request) → IsSeat w
        → MixesOwn w left → NamesAll left w.held → StoresKinds w left
        → (shard : ℕ) (map : Map) → shard < shards → MapOf image shard map
        → IsMapLeft left shard (after map (of_shard shard rs)) true (request ∷ others) }
    ensures others { (image : Image) (v : View) (left : Image) → IsSeat v → HasAllRoots v
        → StandsOver image v → MixesOwn v left → NamesAll left v.held → StoresKinds v left
        → LeavesOthers image left }
{}

/// So is each image that a heap of any kind may leave, where one seat has all roots: its shards are
/// the maps after the answered requests, or, where a request was stopped, it may be the map after
/// that too; nothing in it is outside, and what belongs to no shard is as it was.
pub fn any_heap_leaves_a_dictionary<H: HeapSeat>()
    ensures maps { (s : H) (image left : Image) (rs : List (Request × Reply))
        → HasAllRoots (H.view s) → HasAnswered image rs (H.view s) → H.images s left
        → (shard : ℕ) (map : Map) → shard < shards → MapOf image shard map
        → MapOf left shard (after map (of_shard shard rs)) }
    ensures stopped { (s t : H) (image left : Image) (rs : List (Request × Reply))
        (request : Request) (others : List Request) → HasAllRoots (H.view s)
        → HasAnswered image rs (H.view s) → MayAnswer request (H.view s) (H.view t)
        → H.images t left
        → (shard : ℕ) (map : Map) → shard < shards → MapOf image shard map
        → IsMapLeft left shard (after map (of_shard shard rs)) true (request ∷ others) }
    ensures others { (s : H) (image left : Image) → HasAllRoots (H.view s)
        → StandsOver image (H.view s) → H.images s left → LeavesOthers image left }
{}
