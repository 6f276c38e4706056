//! What follows where a class has nothing left, as functions with nothing to run: a caller cites
//! their clauses.

ghost use Rattle.std.specs.Prelude.{◌≡◌, ◌<◌, ◌≤◌, ◌+◌, ◌-◌, ◌*◌, ◌^◌, ℕ, List, [], ◌∷◌, slice_index};
ghost use Rattle.heap_model.specs.declared.block.Block.{Block};
ghost use Rattle.heap_model.specs.Sizes.{IsClass, size_of};
ghost use Rattle.heap_seat.specs.declared.fault.Looks.{Looks};
ghost use Rattle.core_model.specs.declared.event.Event.{Event};
ghost use Rattle.core_model.specs.Guards.{MayStep};
ghost use Rattle.core_model.specs.Memory.{Memory, info, memory_of};
ghost use Rattle.core_model.specs.Sound.{Good, Sound};
ghost use Rattle.core_model.specs.Steps.{TableState, memory_after, seat_after};
ghost use Rattle.core_model.specs.View.{Setup, View, of_class};
ghost use Rattle.core_model.specs.Opening.{AreOwners};
ghost use Rattle.heap_model.specs.Rest.{IsReady};
ghost use Rattle.heap_table.specs.Plays.{HasReached, HasSoundState};
ghost use Rattle.heap_table.specs.Reached.{IsReached};
ghost use Rattle.thread_cache.specs.Requests.{most_free_costs, request_costs};
ghost use Rattle.seat_costs.specs.Rows.{Passes};
ghost use Rattle.heap_table.specs.Rule.{Opening, opened_view_of, setup_for};
ghost use Rattle.drain_laws.specs.Drains.{GivesExactly, GrantsAll, HasDrained, IsDrainRow};
ghost use Rattle.heap_at_rest.specs.Draining.{IsDrainable};
ghost use Rattle.core_model.specs.Carriers.{AreSeatsAndCarriers};
ghost use Rattle.heap_seat.specs.Alloc.{Adds};
ghost use Rattle.seat_model.specs.CacheState.{CacheState, heap_view};
ghost use Rattle.thread_cache.specs.Serving.{IsServed, IsTurnedAway};
ghost use Rattle.cache_fill.specs.Refills.{IsFull};
ghost use Rattle.seat_costs.specs.Alone.{Steady};
ghost use Rattle.seat_costs.specs.Idle.{IsIdle};
ghost use Rattle.drain_laws.specs.Gains.{CameFrom, HoldsMore, IsDrainableNow, IsDry, IsGiven, IsToGive, NoneCame};
ghost use Rattle.drain_laws.specs.Spent.{IsSpent, IsAllHeld};

/// A refusal of a class tells a seat that is alone that nothing is left of it: by its last looks
/// both lists are empty and the mark is past. Then each superblock of the class is full, and the
/// seat holds each of its blocks.
pub fn a_full_class_is_all_held()
    ensures spent { (class : ℕ) (looks : Looks) (m : Memory) (v w : View) → IsClass class
        → IsFull class looks v w → of_class v.caches class ≡ [] → IsIdle w → Steady m w
        → IsSpent v.setup.capacity m class w }
    ensures held { (k : Setup) (m : Memory) (v : View) (class : ℕ) → Good k m (v ∷ [])
        → IsClass class → IsSpent k.capacity m class v
        → (d : ℕ) → d < k.capacity → info m d ≡ class → IsAllHeld k.capacity class d m v }
{}

/// Where a class has nothing left and no cache has a block, what was given of it since an earlier
/// state is exactly what was to be drained then, if no superblock came to the list of a class in
/// between.
pub fn a_drained_class_was_all_given()
    ensures was_to_give { (k : Setup) (m n : Memory) (v w : View) (class : ℕ) → Good k m (v ∷ [])
        → IsIdle v → Good k n (w ∷ []) → IsClass class → IsDry k.capacity n class w
        → HoldsMore class v w → (b : Block) → IsGiven class v w b
        → IsToGive k.capacity m v class b }
    ensures has_given { (k : Setup) (m n : Memory) (v w : View) (class : ℕ) → Good k m (v ∷ [])
        → IsIdle v → Good k n (w ∷ []) → IsClass class → IsDry k.capacity n class w
        → HoldsMore class v w → NoneCame k.capacity m n → IsDrainableNow k.capacity m v class
        → (b : Block) → IsToGive k.capacity m v class b → IsGiven class v w b }
{}

/// A seat that is alone and gives no batch puts in the list of a class only what was there.
pub fn no_superblock_comes_to_a_list()
    ensures event { (k : Setup) (start m : Memory) (v : View) (event : Event)
        → Good k m (v ∷ []) → MayStep m v event → (seat_after m v event).gives ≡ v.gives
        → CameFrom k.capacity start m v
        → CameFrom k.capacity start (memory_after m v event) (seat_after m v event) }
    ensures row { (k : Setup) (start : TableState) (v w : View) (words : List ℕ)
        → Sound k start.words start.views → AreSeatsAndCarriers k start.views
        → start.views ≡ v ∷ [] → IsIdle v
        → IsReached k start words (w ∷ []) → w.offers ≡ 0 → w.gives ≡ v.gives
        → NoneCame k.capacity (memory_of k.capacity start.words) (memory_of k.capacity words) }
{}

/// The only seat of a heap loses no exchange, and moves no more superblocks than it gave batches,
/// beside those that there were. So freeing a block draws at most 102,402 tickets, and a request
/// 4,108, and 16 for each superblock that it moves.
pub fn what_the_only_seat_of_a_heap_draws()
    ensures losses { (v : View) → v.setup.seats ≡ 1 → HasSoundState v → v.losses ≡ 0 }
    ensures moves { (v : View) → v.setup.seats ≡ 1 → HasSoundState v
        → v.moves ≤ v.gives + v.setup.capacity }
    ensures free { (v w : View) → v.losses ≡ 0 → w.losses ≡ 0 → Passes most_free_costs v w
        → w.draws ≤ v.draws + 102402 }
    ensures alloc { (bytes : ℕ) (v w : View) → v.losses ≡ 0 → w.losses ≡ 0
        → Passes (request_costs bytes (w.moves - v.moves)) v w
        → w.draws + 16 * v.moves ≤ v.draws + 4108 + 16 * w.moves }
{}

/// A request for the bytes of a class that a seat of a heap grants makes such a row one longer, by
/// the first word of the block that it answered; one that it refuses ends the row.
pub fn requests_of_a_seat_make_a_row()
    ensures granted { (class : ℕ) (v : View) (firsts : List ℕ) (s t : CacheState) (b : Block)
        → IsClass class → GrantsAll class v firsts s.view
        → Adds b (heap_view s) (heap_view t) → IsServed (size_of class) s.view t.view
        → GrantsAll class v (b.first_word ∷ firsts) t.view }
    ensures refused { (class : ℕ) (v u w : View) (firsts : List ℕ) (looks : Looks)
        → IsClass class → GrantsAll class v firsts u → IsTurnedAway (size_of class) looks u w
        → IsDrainRow class v firsts w }
{}

/// A heap that is opened for one seat gives of a class, by requests until one is refused, exactly
/// what was to be drained of it, each block once.
pub fn requests_until_a_refusal_drain_a_class()
    ensures { (o : Opening) (class : ℕ) (firsts : List ℕ) (w : View) → IsReady o.words o.held
        → AreOwners o.held o.seats o.block_owners o.root_owners → o.seats ≡ 1 → IsClass class
        → HasDrained o class firsts w
        → IsDrainable (setup_for o).capacity (slice_index o.words) o.held class
        → GivesExactly (setup_for o).capacity class (slice_index o.words) o.held firsts }
{}

/// No more superblocks are cut by requests of a class than the heap has.
pub fn requests_of_a_class_cut_each_superblock_once()
    ensures { (o : Opening) (class : ℕ) (firsts : List ℕ) (w : View) → IsReady o.words o.held
        → AreOwners o.held o.seats o.block_owners o.root_owners → o.seats ≡ 1 → IsClass class
        → GrantsAll class (opened_view_of o 0) firsts w → HasReached o w
        → w.cuts ≤ (setup_for o).capacity }
{}

/// A class is drained by fewer than 2^32 tickets: requests of it from the opening on that are
/// granted, and one more, whatever that answers.
pub fn a_class_is_drained_by_few_tickets()
    ensures { (o : Opening) (class : ℕ) (firsts : List ℕ) (u w : View) → IsReady o.words o.held
        → AreOwners o.held o.seats o.block_owners o.root_owners → o.seats ≡ 1 → IsClass class
        → GrantsAll class (opened_view_of o 0) firsts u → HasReached o u → HasSoundState w
        → Passes (request_costs (size_of class) (w.moves - u.moves)) u w
        → w.draws < 2 ^ 32 }
{}
