//! What follows from the definitions of words and bytes, and of the versions of images, as functions
//! with nothing to run.
ghost use Rattle.std.specs.Prelude.{◌≡◌, ◌↔◌, ℕ, ◌*◌, ◌^◌, ◌<◌, List, All, Option, IfSome, length, slice_index};
ghost use Rattle.heap_model.specs.declared.block.Block.{Block};
ghost use Rattle.heap_model.specs.Geometry.{roots};
ghost use Rattle.heap_model.specs.Image.{bytes_of_words};
ghost use Rattle.heap_model.specs.Header.{IsWellFormed, IsOldWellFormed, HasGoodHeader, HasKindsBelow, kinds_of};
ghost use Rattle.heap_model.specs.Reach.{Links, AreInside, Reach, ReachIn, IsOutside, IsOutsideIn};
ghost use Rattle.region_header.specs.Words.{AreWordsOf};
ghost use Rattle.region_header.specs.Migration.{current_words, HasSameHeap};

/// Words as bytes and bytes as words are inverse to each other.
pub fn conversions_are_inverse()
    // The bytes of words stand for these words, and for no others.
    ensures written { (words : List ℕ) → All (λ w. w < 2 ^ 64) words
        → AreWordsOf words (bytes_of_words words) }
    ensures unique { (words others bytes : List ℕ) → AreWordsOf words bytes
        → AreWordsOf others bytes → words ≡ others }

    // The words that bytes stand for have these bytes.
    ensures read { (bytes words : List ℕ) → All (λ b. b < 256) bytes → AreWordsOf words bytes
        → bytes_of_words words ≡ bytes }
{}

/// An image with a good header is well formed in this version, as it is or migrated. Its words are
/// the same but for the version, and the kinds of the roots are those that it stores, or those that
/// it is migrated with.
pub fn a_good_image_has_a_current_form()
    ensures formed { (limit : Option ℕ) (words kinds : List ℕ) → length kinds ≡ roots
        → HasGoodHeader limit (8 * length words) (slice_index words)
        → IsWellFormed (8 * length (current_words words kinds))
        (slice_index (current_words words kinds)) }
    ensures same { (limit : Option ℕ) (words kinds : List ℕ) → length kinds ≡ roots
        → HasGoodHeader limit (8 * length words) (slice_index words)
        → HasSameHeap (slice_index words) (slice_index (current_words words kinds)) }
    ensures kinds { (words kinds : List ℕ) → length kinds ≡ roots
        → IsOldWellFormed (8 * length words) (slice_index words) → (i : ℕ) → i < roots
        → kinds_of (slice_index (current_words words kinds)) i ≡ slice_index kinds i }
    ensures below { (limit : Option ℕ) (words kinds : List ℕ) → length kinds ≡ roots
        → HasGoodHeader limit (8 * length words) (slice_index words)
        → IfSome limit (λ most. All (λ kind. kind < most) kinds)
        → HasKindsBelow limit (slice_index (current_words words kinds)) }
{}

/// What an image of the old version reaches, with the kinds that it is migrated with, is what its
/// migrated form reaches by the kinds that this stores; and the same is outside. An image of this
/// version is left as it is.
pub fn a_migrated_image_reaches_the_same()
    ensures reach { (words kinds : List ℕ) (links : Links) (limit : ℕ) → length kinds ≡ roots
        → AreInside limit links → IsOldWellFormed (8 * length words) (slice_index words)
        → (b : Block) (kind : ℕ) → Reach (slice_index words) (slice_index kinds) links b kind
        ↔ ReachIn (slice_index (current_words words kinds)) links b kind }
    ensures outside { (words kinds : List ℕ) (links : Links) (limit : ℕ) → length kinds ≡ roots
        → AreInside limit links → IsOldWellFormed (8 * length words) (slice_index words)
        → (at : ℕ) → IsOutside (slice_index words) (slice_index kinds) links at
        ↔ IsOutsideIn (slice_index (current_words words kinds)) links at }
    ensures new { (words kinds : List ℕ) → IsWellFormed (8 * length words) (slice_index words)
        → current_words words kinds ≡ words }
{}
