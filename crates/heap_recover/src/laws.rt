//! What follows from the words that recovery leaves, and of recovery begun again, as functions with
//! nothing to run.
ghost use Rattle.std.specs.Prelude.{◌≡◌, ◌+◌, ◌*◌, ◌<◌, ◌≤◌, ℕ, List, Option, length, slice_index};
ghost use Rattle.heap_model.specs.declared.block.Block.{Block};
ghost use Rattle.heap_model.specs.Geometry.{roots, root_word, kind_word};
ghost use Rattle.heap_model.specs.Header.{capacity_of};
ghost use Rattle.heap_model.specs.Image.{Image};
ghost use Rattle.heap_model.specs.Blocks.{IsIn, layout_of};
ghost use Rattle.heap_model.specs.Reach.{Links, IsReached, IsReachedIn};
ghost use Rattle.heap_model.specs.Recovered.{IsFreeSuperblock, AreAscending};
ghost use Rattle.heap_model.specs.Recovery.{IsRecovered};
ghost use Rattle.heap_recover.specs.InPlace.{RecoversAlike, differences, steps_between};
ghost use Rattle.heap_recover.specs.Superblock.{LeavesSuperblock};

/// Recovery changes no word of a reached block, no root, and no kind of a root.
pub fn reached_words_are_unchanged()
    ensures blocks { (old new : Image) (kinds : ℕ → ℕ) (links : Links)
        → IsRecovered old new (IsReached old kinds links)
        → (b : Block) (word : ℕ) → IsReached old kinds links b → IsIn b word → new word ≡ old word }
    ensures roots { (old new : Image) (kinds : ℕ → ℕ) (links : Links)
        → IsRecovered old new (IsReached old kinds links)
        → (i : ℕ) → i < roots → new (root_word i) ≡ old (root_word i) }
    ensures kinds { (old new : Image) (kinds : ℕ → ℕ) (links : Links)
        → IsRecovered old new (IsReached old kinds links) → (i : ℕ) → i < roots
        → new (kind_word (capacity_of old) i) ≡ old (kind_word (capacity_of old) i) }
{}

/// Recovery that is begun again over what a stopped one left gives the same: the same list of held
/// blocks and the same list of free superblocks.
pub fn recovery_begun_again_gives_the_same()
    ensures held { (limit : Option ℕ) (bytes : ℕ) (image other : Image) (links : Links)
        → RecoversAlike limit bytes image other links → (held again : List Block)
        → AreAscending (λ (b : Block). b.first_word) (IsReachedIn image links) held
        → AreAscending (λ (b : Block). b.first_word) (IsReachedIn other links) again
        → again ≡ held }
    ensures free { (limit : Option ℕ) (bytes : ℕ) (image other : Image) (links : Links)
        → RecoversAlike limit bytes image other links → (free again : List ℕ)
        → AreAscending (λ d. d) (IsFreeSuperblock (layout_of image) (IsReachedIn image links)) free
        → AreAscending (λ d. d) (IsFreeSuperblock (layout_of other) (IsReachedIn other links)) again
        → again ≡ free }
{}

/// Recovery leaves each superblock as if there were no other: which of its words change, and to
/// what, follows from the image and from which blocks are kept.
pub fn each_superblock_is_left_by_itself()
    ensures { (old new : Image) (links : Links) → IsRecovered old new (IsReachedIn old links)
        → (d : ℕ) → LeavesSuperblock old new (IsReachedIn old links) d }
{}

/// Recovery has one outcome: the image and the blocks that its roots reach say what each word of
/// the heap is, in whatever way it was made.
pub fn recovery_has_one_outcome()
    ensures { (old new other : List ℕ) (links : Links) (held : List Block)
        → length other ≡ length new
        → AreAscending (λ (b : Block). b.first_word) (IsReachedIn (slice_index old) links) held
        → IsRecovered (slice_index old) (slice_index new) (IsReachedIn (slice_index old) links)
        → IsRecovered (slice_index old) (slice_index other) (IsReachedIn (slice_index old) links)
        → other ≡ new }
{}

/// Recovery in place takes at most two steps for each word that it changes, and one for the fence.
pub fn recovery_in_place_takes_few_steps()
    ensures { (old new : Image) (words : ℕ)
        → steps_between old new words ≤ 1 + 2 * differences old new words }
{}
