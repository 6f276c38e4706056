//! What follows for a heap that was opened quickly, as functions with nothing to run: a caller cites
//! their clauses.
ghost use Rattle.std.specs.Prelude.{◌≡◌, ◌↔◌, ◌*◌, ℕ, List, Option, length, slice_index};
ghost use Rattle.heap_model.specs.declared.block.Block.{Block};
ghost use Rattle.heap_model.specs.Blocks.{layout_of};
ghost use Rattle.heap_model.specs.Header.{IsWellFormed, capacity_of};
ghost use Rattle.heap_model.specs.Reach.{Links, IsReachedIn};
ghost use Rattle.heap_model.specs.Recovered.{IsDrained};
ghost use Rattle.heap_at_rest.specs.Draining.{IsDrainable, IsToDrain};
ghost use Rattle.heap_at_rest.specs.Orderly.{IsOrderly, IsHeldByAnchors};
ghost use Rattle.heap_at_rest.specs.Agreement.{AgreeButFull};
ghost use Rattle.heap_recover.specs.declared.answer.Recovered.{Recovered};
ghost use Rattle.heap_recover.specs.Answer.{IsMadeOf};
ghost use Rattle.quick_recover.specs.Reopened.{IsReopenedAs};

/// An orderly image whose anchors hold exactly the reached blocks is opened quickly as recovery
/// opens it: with the same held blocks, the same free superblocks, and closed.
pub fn what_is_orderly_and_reached_opens_alike()
    ensures { (limit : Option ℕ) (words : List ℕ) (links : Links) (quick traced : Recovered)
        → IsOrderly limit (8 * length words) (slice_index words)
        → ((b : Block) → IsHeldByAnchors (slice_index words) b
        ↔ IsReachedIn (slice_index words) links b)
        → IsReopenedAs words (IsHeldByAnchors (slice_index words)) quick
        → IsMadeOf words (IsReachedIn (slice_index words) links) traced
        → (quick.heap.held ≡ traced.heap.held) × (quick.free.items ≡ traced.free.items)
        × (quick.was ≡ traced.was) }
{}

/// A heap that was opened quickly is ready to be drained of each class, and gives of it exactly
/// what the image has to give beside the blocks that its anchors hold. Where these are the reached
/// ones, that is what the recovered heap gives. The order is another: chains keep theirs here.
pub fn what_is_opened_quickly_drains_alike()
    ensures drainable { (words : List ℕ) (quick : Recovered)
        → IsReopenedAs words (IsHeldByAnchors (slice_index words)) quick
        → IsWellFormed (8 * length words) (slice_index words) → (class : ℕ)
        → IsDrainable (capacity_of (slice_index words)) (slice_index quick.heap.words)
        quick.heap.held class }
    ensures drains { (words : List ℕ) (quick : Recovered)
        → IsReopenedAs words (IsHeldByAnchors (slice_index words)) quick
        → (class : ℕ) (b : Block)
        → IsDrained (layout_of (slice_index words)) (IsHeldByAnchors (slice_index words)) class b
        ↔ IsToDrain (capacity_of (slice_index words)) (slice_index quick.heap.words)
        quick.heap.held class b }
    ensures alike { (words : List ℕ) (links : Links) (traced : Recovered)
        → IsMadeOf words (IsReachedIn (slice_index words) links) traced
        → ((b : Block) → IsHeldByAnchors (slice_index words) b
        ↔ IsReachedIn (slice_index words) links b)
        → (quick : Recovered) → IsReopenedAs words (IsHeldByAnchors (slice_index words)) quick
        → (class : ℕ) (b : Block)
        → IsToDrain (capacity_of (slice_index words)) (slice_index quick.heap.words)
        quick.heap.held class b
        ↔ IsToDrain (capacity_of (slice_index words)) (slice_index traced.heap.words)
        traced.heap.held class b }
{}

/// No word of a full superblock counts, nor one of a free superblock or of a large block, nor a
/// root: of two images that differ there alone both are orderly or neither is, and opened quickly
/// they have the same held blocks and the same free superblocks.
pub fn words_of_full_superblocks_do_not_count()
    ensures path { (words others : List ℕ)
        → AgreeButFull (slice_index words) (slice_index others) → (limit : Option ℕ)
        → length others ≡ length words
        → IsOrderly limit (8 * length words) (slice_index words)
        ↔ IsOrderly limit (8 * length others) (slice_index others) }
    ensures heap { (words others : List ℕ) → AgreeButFull (slice_index words) (slice_index others)
        → IsWellFormed (8 * length words) (slice_index words) → (quick other : Recovered)
        → IsReopenedAs words (IsHeldByAnchors (slice_index words)) quick
        → IsReopenedAs others (IsHeldByAnchors (slice_index others)) other
        → (quick.heap.held ≡ other.heap.held) × (quick.free.items ≡ other.free.items) }
{}
