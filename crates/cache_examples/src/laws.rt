//! Some of the examples, as a function with nothing to run: what is taken, beside what differs in
//! one thing and is refused.

ghost use Rattle.std.specs.Prelude.{[], ◌∷◌};
ghost use Rattle.thread_cache.specs.Small.{HasAllocated, HasFreed, block_of};
ghost use Rattle.cache_fill.specs.Refills.{HasSeenNone, IsFull, IsLook};
ghost use Rattle.thread_cache.specs.Serving.{IsLight};
ghost use Rattle.cache_examples.specs.Blocks.{holds_fourth};
ghost use Rattle.cache_examples.specs.Looks.{refused};
ghost use Rattle.cache_examples.specs.Runs.{all_given};
ghost use Rattle.cache_examples.specs.Seats.{all_taken, before, later, look_at, with_cached, with_held, with_looks};

/// A look is none once an exchange was won. A request is refused by a look at the list of its class
/// before that at the list of the free ones, and a superblock is taken in the same order. A request
/// gets the only block of its cache, and no other. Two runs are flushed by two batches, and not by
/// one. 64 tickets are light, and 65 are not.
pub fn contracts_take_and_refuse()
    ensures look { IsLook (look_at 2 7) 2 before
        × (IsLook (look_at 2 7) 2 (record before { wins = 1 }) → ⊥) }
    ensures full { IsFull 20 all_taken before refused
        × (IsFull 20 all_taken before (with_looks (look_at 0 6) (look_at 0 5) (look_at 2 7)) → ⊥) }
    ensures none { HasSeenNone 20 before (with_looks (look_at 0 5) (look_at 0 6) (look_at 0 7))
        × (HasSeenNone 20 before (with_looks (look_at 0 6) (look_at 0 5) (look_at 0 7)) → ⊥) }
    ensures first { HasAllocated 20 (block_of 20 1080) (with_cached (1080 ∷ []) before)
        (with_held (1080 ∷ []) before)
        × (HasAllocated 20 (block_of 20 2872) (with_cached (1080 ∷ []) before)
        (with_held (2872 ∷ []) before) → ⊥) }
    ensures runs { HasFreed 1080 20 holds_fourth all_given
        × (HasFreed 1080 20 holds_fourth (record all_given { gives = 1 }) → ⊥) }
    ensures light { IsLight before (later 64 0 0 before)
        × (IsLight before (later 65 0 0 before) → ⊥) }
{}
