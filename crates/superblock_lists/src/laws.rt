//! What a popped superblock is, as a function with nothing to run.

ghost use Rattle.std.specs.Prelude.{◌≡◌, ◌≢◌, ◌<◌, ℕ, get_or, length};
ghost use Rattle.core_model.specs.View.{View, times_claimed};
ghost use Rattle.heap_table.specs.Plays.{HasSoundState};

/// A superblock that a seat has claimed is in no other seat's hand.
pub fn a_claimed_superblock_is_in_one_hand()
    ensures { (v : View) (s : HasSoundState v) (d : ℕ) → 0 < times_claimed d v
        → (j : ℕ) (u : View) → j ≢ s.seat → j < length s.views → get_or s.views j u ≡ u
        → times_claimed d u ≡ 0 }
{}
