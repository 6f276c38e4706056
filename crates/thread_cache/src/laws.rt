//! What follows of an offer and an accept of one block, as a function with nothing to run: a caller
//! cites its clauses.

ghost use Rattle.std.specs.Prelude.{ℕ};
ghost use Rattle.heap_model.specs.declared.block.Block.{Block};
ghost use Rattle.heap_model.specs.Blocks.{IsIn};
ghost use Rattle.heap_seat.specs.View.{View};
ghost use Rattle.heap_seat.specs.Handing.{ComesWith, Contents, GoesWith};
ghost use Rattle.heap_seat.specs.Words.{IsDurable, KeepsWord};

/// A block has with the seat that accepted it the words that it had with the one that offered it:
/// what loads saw is seen, and what was durable is.
pub fn a_block_comes_as_it_went()
    ensures words { (b : Block) (contents : Contents) (v w : View) (word : ℕ)
        → GoesWith b contents v → ComesWith b contents w → IsIn b word → KeepsWord v w word }
    ensures durable { (b : Block) (contents : Contents) (v w : View) (word : ℕ)
        → GoesWith b contents v → ComesWith b contents w → IsIn b word
        → IsDurable v word → IsDurable w word }
{}
