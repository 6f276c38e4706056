//! What follows for the images of a whole heap and for the requests after one, as functions with
//! nothing to run: a caller cites their clauses.
ghost use Rattle.std.specs.Prelude.{◌≡◌, ◌≢◌, ℕ, ◌<◌, ◌⊎◌, ◌↔◌, List, Contains};
ghost use Rattle.heap_model.specs.declared.block.Block.{Block};
ghost use Rattle.heap_model.specs.Image.{Image};
ghost use Rattle.heap_model.specs.Header.{kinds_of};
ghost use Rattle.heap_model.specs.Reach.{IsOutsideIn};
ghost use Rattle.heap_seat.specs.View.{View, kind_of};
ghost use Rattle.heap_seat.specs.Sound.{IsSeat};
ghost use Rattle.heap_seat.specs.Words.{KeepsOwn, NamesAll};
ghost use Rattle.heap_seat.specs.Calls.{IsSmallCall};
ghost use Rattle.heap_seat.specs.Handing.{Accepts, ComesWith, Contents, GoesWith, Offers};
ghost use Rattle.dict_model.specs.Links.{shards, table_kind, dict_links};
ghost use Rattle.dict_model.specs.Shards.{Map, MapOf, WalkOf};
ghost use Rattle.dict_requests.specs.Changes.{MayChange, Changes};
ghost use Rattle.dict_requests.specs.Maps.{GivesMap, GivesEither};
ghost use Rattle.dict_requests.specs.Moving.{IsNodeIn, IsNodeOf, MayBring};
ghost use Rattle.dict_requests.specs.Puts.{RootIsSet};
ghost use Rattle.dict_requests.specs.Reached.{ReachesAllHeld, ReachesAllHeldBut, ReachesOnlyHeld};
ghost use Rattle.dict_requests.specs.Removal.{IsLoose, IsShard};
ghost use Rattle.dict_requests.specs.Seats.{ShareHeap, MixesSeats};
ghost use Rattle.dict_requests.specs.Shards.{HasShards};

use heap_seat::HeapSeat;

/// What every mixture of a seat's words gives, each image that may be left gives: each of them
/// names the held blocks at their places.
pub fn images_have_the_map<H: HeapSeat>(_seat: &H)
    ensures names { (image : Image) → H.images _seat.now image
        → NamesAll image (H.view _seat.now).held }
    ensures gives { (shard : ℕ) (map : Map) → GivesMap (H.view _seat.now) shard map
        → (image : Image) → H.images _seat.now image → WalkOf image shard map }
    ensures either { (shard : ℕ) (one other : Map) → GivesEither (H.view _seat.now) shard one other
        → (image : Image) → H.images _seat.now image
        → WalkOf image shard one ⊎ WalkOf image shard other }
{}

/// Where several seats share a heap, no root of another seat reaches what one of them has in its
/// shard. So the map that a seat has is the shard's map in each image that mixes the words of all
/// seats, names their blocks and stores the kinds that they see, where the shard's root has the
/// kind of a table; and nothing in the image is outside.
pub fn a_shard_of_a_seat_is_a_shard_of_the_heap()
    ensures walk { (count : ℕ) (seats : ℕ → View) (image : Image) → ShareHeap count seats
        → MixesSeats count seats image → (shard : ℕ) (map : Map) → shard < shards
        → kinds_of image shard ≡ table_kind
        → WalkOf image shard map ↔ MapOf image shard map }
    ensures gives { (count : ℕ) (seats : ℕ → View) (image : Image) → ShareHeap count seats
        → MixesSeats count seats image → (i shard : ℕ) (map : Map) → i < count → shard < shards
        → kind_of (seats i) shard ≡ table_kind
        → GivesMap (seats i) shard map → MapOf image shard map }
    ensures either { (count : ℕ) (seats : ℕ → View) (image : Image) → ShareHeap count seats
        → MixesSeats count seats image → (i shard : ℕ) (one other : Map) → i < count
        → shard < shards → kind_of (seats i) shard ≡ table_kind
        → GivesEither (seats i) shard one other
        → MapOf image shard one ⊎ MapOf image shard other }
    ensures inside { (count : ℕ) (seats : ℕ → View) (image : Image) → ShareHeap count seats
        → MixesSeats count seats image → (at : ℕ) → IsOutsideIn image dict_links at → ⊥ }
{}

/// Requests go on from shard to shard. One to a shard leaves each other shard its map, wherever it
/// ends; and where it was answered, requests to all of them may be made again.
pub fn requests_go_on_from_shard_to_shard()
    ensures others { (v w : View) (shard other : ℕ) (may : Map → Map) (map : Map) → IsSeat v
        → MayChange shard may v w → shard < shards → other < shards → other ≢ shard
        → IsShard v other → GivesMap v other map → GivesMap w other map }
    ensures goes_on { (v w : View) (shard : ℕ) (may after : Map → Map) → IsSeat v
        → MayChange shard may v w → shard < shards → HasShards v → Changes shard after v w
        → HasShards w }
{}

/// A table stays, as loads see its root: over a request to any shard, wherever it ends.
pub fn tables_stay()
    ensures over_requests { (v w : View) (shard other : ℕ) (may : Map → Map)
        → MayChange shard may v w → IsShard v other → RootIsSet v other → RootIsSet w other }
    ensures over_brings { (v w : View) (b : Block) (shard other : ℕ) (may : Map → Map)
        → MayBring b shard may v w → IsShard v other → RootIsSet v other → RootIsSet w other }
    ensures over_offers { (v w : View) (b : Block) (shard : ℕ) → Offers b v w
        → IsShard v shard → RootIsSet v shard → RootIsSet w shard }
    ensures over_accepts { (v w : View) (b : Block) (shard : ℕ) → Accepts b v w
        → IsShard v shard → RootIsSet v shard → RootIsSet w shard }
    ensures over_stops { (v w : View) (shard : ℕ) → KeepsOwn v w
        → IsShard v shard → RootIsSet v shard → RootIsSet w shard }
{}

/// Bringing a node to one shard leaves each other shard its map, wherever it ends; and where it was
/// done, requests to all of them may be made again.
pub fn a_bring_leaves_the_other_shards()
    ensures others { (v w : View) (b : Block) (shard other : ℕ) (may : Map → Map) (map : Map)
        → IsSeat v → IsLoose b v → MayBring b shard may v w → shard < shards → other < shards
        → other ≢ shard → IsShard v other → GivesMap v other map → GivesMap w other map }
    ensures goes_on { (v w : View) (b : Block) (shard : ℕ) (may after : Map → Map)
        → IsSeat v → IsLoose b v → MayBring b shard may v w → shard < shards → HasShards v
        → Changes shard after v w → HasShards w }
{}

/// A block that no root reaches may be offered: the shards have their maps without it, and what is
/// held still is what is reached still.
pub fn a_loose_block_may_be_offered()
    ensures shards { (v w : View) (b : Block) → IsSeat v → IsLoose b v → Offers b v w
        → IsSmallCall v w → HasShards v → HasShards w }
    ensures gives { (v w : View) (b : Block) (shard : ℕ) (map : Map) → IsSeat v → IsLoose b v
        → Offers b v w → IsSmallCall v w → IsShard v shard
        → GivesMap v shard map → GivesMap w shard map }
    ensures only { (v w : View) (b : Block) → IsSeat v → IsLoose b v → Offers b v w
        → IsSmallCall v w → ReachesOnlyHeld v → ReachesOnlyHeld w }
    ensures exact { (v w : View) (b : Block) → IsSeat v → IsLoose b v → Offers b v w
        → IsSmallCall v w → ReachesAllHeldBut b v → ReachesAllHeld w }
{}

/// A block that is accepted is no root's: the shards have their maps beside it.
pub fn an_accepted_block_is_loose()
    ensures loose { (v w : View) (b : Block) → IsSeat w → Accepts b v w → IsSmallCall v w
        → ReachesOnlyHeld v → IsLoose b w }
    ensures shards { (v w : View) (b : Block) → IsSeat w → Accepts b v w → IsSmallCall v w
        → HasShards v → HasShards w }
    ensures gives { (v w : View) (b : Block) (shard : ℕ) (map : Map) → Accepts b v w
        → GivesMap v shard map → GivesMap w shard map }
    ensures only { (v w : View) (b : Block) → IsSeat w → Accepts b v w → IsSmallCall v w
        → ReachesOnlyHeld v → ReachesOnlyHeld w }
    ensures exact { (v w : View) (b : Block) → IsSeat w → Accepts b v w → IsSmallCall v w
        → ReachesAllHeld v → ReachesAllHeldBut b w }
{}

/// A node keeps its value on its way: what goes with it is a node of its value, and what comes is
/// one.
pub fn a_node_goes_with_its_value()
    ensures goes { (v : View) (b : Block) (c : Contents) (value : List ℕ) → GoesWith b c v
        → IsNodeOf v b value → IsNodeIn c b value }
    ensures comes { (w : View) (b : Block) (c : Contents) (value : List ℕ) → ComesWith b c w
        → IsNodeIn c b value → IsNodeOf w b value }
    ensures across { (v w : View) (b : Block) (c : Contents) (value : List ℕ) → GoesWith b c v
        → ComesWith b c w → IsNodeOf v b value → IsNodeOf w b value }
{}

/// A call that stores nothing and hands nothing over leaves all: so does an offer or an accept of a
/// seat that stopped.
pub fn calls_that_store_nothing_leave_all()
    ensures shards { (v w : View) → IsSeat w → KeepsOwn v w → IsSmallCall v w
        → HasShards v → HasShards w }
    ensures gives { (v w : View) (shard : ℕ) (map : Map) → KeepsOwn v w
        → GivesMap v shard map → GivesMap w shard map }
    ensures exact { (v w : View) → IsSeat w → KeepsOwn v w → IsSmallCall v w
        → ReachesAllHeld v → ReachesAllHeld w }
    ensures exact_but { (v w : View) (b : Block) → IsSeat w → KeepsOwn v w → IsSmallCall v w
        → ReachesAllHeldBut b v → ReachesAllHeldBut b w }
    ensures loose { (v w : View) (b : Block) → IsSeat w → KeepsOwn v w → IsSmallCall v w
        → ReachesOnlyHeld v → IsLoose b v → IsLoose b w }
    ensures node { (v w : View) (b : Block) (value : List ℕ) → KeepsOwn v w
        → Contains v.held b → IsNodeOf v b value → IsNodeOf w b value }
{}
