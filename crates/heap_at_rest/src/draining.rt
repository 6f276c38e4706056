//! What recovery leaves to be drained, as a function with nothing to run: a caller cites its
//! clauses.

ghost use Rattle.std.specs.Prelude.{◌≤◌, ◌↔◌, ℕ, List, Contains};
ghost use Rattle.heap_model.specs.declared.block.Block.{Block};
ghost use Rattle.heap_model.specs.Geometry.{largest_capacity};
ghost use Rattle.heap_model.specs.Image.{Image};
ghost use Rattle.heap_model.specs.Header.{capacity_of};
ghost use Rattle.heap_model.specs.Blocks.{layout_of};
ghost use Rattle.heap_model.specs.Reach.{Links, IsReached};
ghost use Rattle.heap_model.specs.Recovered.{IsDrained};
ghost use Rattle.heap_model.specs.Recovery.{IsRecovered};
ghost use Rattle.heap_at_rest.specs.Draining.{IsDrainable, IsToDrain};

/// Of a recovered image, where exactly the reached blocks are held: each superblock in which no
/// held block has a part is in the free list, and what is to be drained of a class is exactly what
/// the image that was recovered had to give.
pub fn what_recovery_leaves_is_drainable()
    ensures drainable { (old new : Image) (kinds : ℕ → ℕ) (links : Links)
        (held : List Block) (class : ℕ)
        → IsRecovered old new (IsReached old kinds links)
        → ((b : Block) → Contains held b ↔ IsReached old kinds links b)
        → capacity_of old ≤ largest_capacity
        → IsDrainable (capacity_of old) new held class }
    ensures drains { (old new : Image) (kinds : ℕ → ℕ) (links : Links) (held : List Block)
        (class : ℕ) → IsRecovered old new (IsReached old kinds links)
        → ((b : Block) → Contains held b ↔ IsReached old kinds links b)
        → (b : Block) → IsDrained (layout_of old) (IsReached old kinds links) class b
        ↔ IsToDrain (capacity_of old) new held class b }
{}
