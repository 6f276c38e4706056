//! What follows for a heap's seat that is one of the core, as functions with nothing to run.

ghost use Rattle.std.specs.Prelude.{◌≡◌, ◌↔◌, ℕ, Bool, Contains};
ghost use Rattle.heap_model.specs.declared.block.Block.{Block};
ghost use Rattle.heap_model.specs.Image.{Image};
ghost use Rattle.core_model.specs.Held.{IsHeld};
ghost use Rattle.heap_seat.specs.Alloc.{Adds};
ghost use Rattle.heap_seat.specs.Sound.{IsSeat};
ghost use Rattle.heap_seat.specs.Words.{HasPicked, IsOwn, KeepsOwn, KeepsPending, MixesOwn, NamesAll, StoresKinds};
ghost use Rattle.heap_table.specs.Plays.{HasSoundState};
ghost use Rattle.heap_rule.specs.Left.{MayBeLeft};
ghost use Rattle.heap_rule.specs.Seated.{SeatView};
ghost use Rattle.seat_costs.specs.Costs.{Costs};
ghost use Rattle.seat_costs.specs.Rows.{Passes, Row};
ghost use Rattle.seat_model.specs.CacheState.{CacheState, IsStateOf, heap_view};
ghost use Rattle.seat_model.specs.Changes.{GivesBlock, GivesSpan, HoldsBlock, HoldsSpan, Loses};

/// A heap's seat that is one of the core keeps the laws of such seats, and holds the blocks that the
/// core says. Whatever is left of it has the kinds of the roots: a mixture of volatile and durable
/// words, or what a crash leaves, or a close. A row of steps keeps these kinds, and one that leaves
/// held blocks alone keeps its own words too, and their pending write-backs.
pub fn a_seat_of_the_core_is_a_seat_of_a_heap()
    ensures seat { (s : CacheState) → IsSeat (heap_view s) }
    ensures held { (s : CacheState) → HasSoundState s.view
        → (b : Block) → Contains (heap_view s).held b ↔ IsHeld s.view b }
    ensures mixed { (s : CacheState) (image : Image) → MayBeLeft s.view image
        → MixesOwn (heap_view s) image }
    ensures named { (s : CacheState) (image : Image) → MayBeLeft s.view image
        → NamesAll image (heap_view s).held }
    ensures stored { (s : CacheState) (image : Image) → MayBeLeft s.view image
        → StoresKinds (heap_view s) image }
    ensures may_be { (s : CacheState) (pick : ℕ → Bool) → ∥ ((image : Image)
        × MayBeLeft s.view image × HasPicked (heap_view s) pick image) ∥₁ }
    ensures kinds { (costs : Costs) (s t : CacheState) (v w : SeatView) → IsStateOf s v
        → IsStateOf t w → Passes costs v.view w.view → (heap_view t).kinds ≡ (heap_view s).kinds }
    ensures kept { (costs : Costs) (s t : CacheState) (v w : SeatView) → IsStateOf s v
        → IsStateOf t w → Row costs v w → KeepsOwn (heap_view s) (heap_view t) }
    ensures pending { (costs : Costs) (s t : CacheState) (v w : SeatView) → IsStateOf s v
        → IsStateOf t w → Row costs v w → (word : ℕ) → IsOwn (heap_view s).held s.view.roots word
        → KeepsPending (heap_view s) (heap_view t) word }
{}

/// A block that a seat of the core holds besides comes to those of the seat of the heap, and is
/// new there; one that it holds no more goes, and all others stay.
pub fn blocks_come_and_go()
    ensures holds { (class : ℕ) (b : Block) (s t : CacheState)
        → HoldsBlock class b s.view t.view → Adds b (heap_view s) (heap_view t) }
    ensures holds_span { (d n : ℕ) (b : Block) (s t : CacheState)
        → HoldsSpan d n b s.view t.view → Adds b (heap_view s) (heap_view t) }
    ensures gives { (class : ℕ) (b : Block) (s t : CacheState)
        → GivesBlock class b s.view t.view → Loses b (heap_view s) (heap_view t) }
    ensures gives_span { (d : ℕ) (b : Block) (s t : CacheState)
        → GivesSpan d b s.view t.view → Loses b (heap_view s) (heap_view t) }
{}
