//! What follows from the definitions, as a function with nothing to run: a caller cites its clause.

ghost use Rattle.std.specs.Prelude.{◌≡◌, ◌<◌, ◌*◌, ℕ, List, length, slice_index, Contains, AllPairs};
ghost use Rattle.heap_model.specs.declared.block.Block.{Block};
ghost use Rattle.heap_model.specs.Header.{IsWellFormed};
ghost use Rattle.heap_model.specs.Blocks.{IsBlock, layout_of};
ghost use Rattle.heap_model.specs.Recovery.{IsRecovered};
ghost use Rattle.heap_model.specs.Rest.{IsReady};

/// What recovery leaves is a heap at rest: of an image with a good header, where the held blocks
/// are blocks of it in order of offset.
pub fn what_recovery_leaves_is_ready()
    ensures { (old new : List ℕ) (held : List Block)
        → IsWellFormed (8 * length old) (slice_index old)
        → length new ≡ length old
        → ((b : Block) → Contains held b → IsBlock (layout_of (slice_index old)) b)
        → AllPairs (λ (a b : Block). a.first_word < b.first_word) held
        → IsRecovered (slice_index old) (slice_index new) (Contains held)
        → IsReady new held }
{}
