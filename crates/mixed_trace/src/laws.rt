//! What follows of traces and recoveries by modes from the definitions, as functions with nothing
//! to run.
ghost use Rattle.std.specs.Prelude.{◌≡◌, ◌↔◌, ◌*◌, ℕ, List, Contains, length, map, slice_index};
ghost use Rattle.heap_model.specs.declared.block.Block.{Block};
ghost use Rattle.heap_model.specs.Geometry.{roots};
ghost use Rattle.heap_model.specs.Header.{IsOldWellFormed, kinds_of};
ghost use Rattle.heap_model.specs.Image.{Image};
ghost use Rattle.heap_model.specs.Reach.{Links, AreInside, Reach, IsReachedIn, IsOutside};
ghost use Rattle.heap_model.specs.Recovered.{AreAscending};
ghost use Rattle.region_header.specs.Migration.{current_words};
ghost use Rattle.filter_trace.specs.Reached.{AreReached};
ghost use Rattle.heap_recover.specs.declared.answer.Recovered.{Recovered};
ghost use Rattle.heap_recover.specs.Answer.{IsMadeOf};
ghost use Rattle.mixed_trace.specs.declared.mode.Mode.{Mode};
ghost use Rattle.mixed_trace.specs.declared.mode.Mode.TheVariants.{Kind};
ghost use Rattle.mixed_trace.specs.Reach.{modes_of, ReachMixed, IsReachedMixed, IsOutsideMixed};
ghost use Rattle.mixed_trace.specs.Codes.{HasMode, AreReachedMixed};
ghost use Rattle.mixed_trace.specs.Recovery.{words_by_modes};
ghost use Rattle.mixed_trace.specs.Laws.{HaveKinds, HaveNoFilter, HaveFewerFilters};

/// Where no root has a filter, no word is refused.
pub fn nothing_is_refused_without_filters()
    ensures { (image : Image) (modes : ℕ → Mode) (links : Links) → HaveNoFilter modes
        → (at : ℕ) → IsOutsideMixed image modes links at → ⊥ }
{}

/// Where each root has a kind, all is as in a trace with these kinds, and as in recovery of an
/// image that stores them.
pub fn kinds_alone_are_as_in_a_trace()
    ensures reach { (image : Image) (modes : ℕ → Mode) (kinds : ℕ → ℕ) (links : Links)
        → HaveKinds modes kinds → (b : Block) (kind : ℕ)
        → ReachMixed image modes links b (Kind kind) ↔ Reach image kinds links b kind }
    ensures outside { (image : Image) (modes : ℕ → Mode) (kinds : ℕ → ℕ) (links : Links)
        → HaveKinds modes kinds → (at : ℕ)
        → IsOutsideMixed image modes links at ↔ IsOutside image kinds links at }
    ensures marks { (image : Image) (modes : ℕ → Mode) (kinds : ℕ → ℕ) (links : Links) (limit : ℕ)
        (pairs others : List (Block × ℕ)) → HaveKinds modes kinds
        → AreReachedMixed image modes links limit pairs → AreReached image kinds links others
        → (b : Block) (kind : ℕ)
        → HasMode limit pairs b (Kind kind) ↔ Contains others (b, kind) }
    ensures made { (words : List ℕ) (modes : ℕ → Mode) (links : Links) (answer : Recovered)
        → HaveKinds modes (kinds_of (slice_index words))
        → IsMadeOf words (IsReachedMixed (slice_index words) modes links) answer
        → IsMadeOf words (IsReachedIn (slice_index words) links) answer }
    ensures held { (image : Image) (modes : ℕ → Mode) (links : Links) (held others : List Block)
        → HaveKinds modes (kinds_of image)
        → AreAscending (λ (b : Block). b.first_word) (IsReachedMixed image modes links) held
        → AreAscending (λ (b : Block). b.first_word) (IsReachedIn image links) others
        → held ≡ others }
    ensures words { (words kinds : List ℕ)
        → words_by_modes words (map (λ kind. Kind kind) kinds) ≡ current_words words kinds }
{}

/// Where some roots have their filter no more, what was held is held.
pub fn no_less_is_held_with_fewer_filters()
    ensures reached { (image : Image) (modes fewer : ℕ → Mode) (links : Links) (limit : ℕ)
        → AreInside limit links → HaveFewerFilters modes fewer → (b : Block)
        → IsReachedMixed image modes links b → IsReachedMixed image fewer links b }
    ensures held { (image : Image) (modes fewer : ℕ → Mode) (links : Links) (limit : ℕ)
        (held more : List Block) → AreInside limit links → HaveFewerFilters modes fewer
        → AreAscending (λ (b : Block). b.first_word) (IsReachedMixed image modes links) held
        → AreAscending (λ (b : Block). b.first_word) (IsReachedMixed image fewer links) more
        → (b : Block) → Contains held b → Contains more b }

    // than by recovery, with the kinds that an image of this version stores
    ensures recovered { (image : Image) (fewer : ℕ → Mode) (links : Links) (limit : ℕ)
        (held more : List Block) → AreInside limit links
        → HaveFewerFilters (λ root. Kind (kinds_of image root)) fewer
        → AreAscending (λ (b : Block). b.first_word) (IsReachedIn image links) held
        → AreAscending (λ (b : Block). b.first_word) (IsReachedMixed image fewer links) more
        → (b : Block) → Contains held b → Contains more b }

    // and with those that one of the old version is given
    ensures migrated { (words kinds : List ℕ) (fewer : List Mode) (links : Links) (limit : ℕ)
        (held more : List Block) → length kinds ≡ roots → length fewer ≡ roots
        → IsOldWellFormed (8 * length words) (slice_index words) → AreInside limit links
        → HaveFewerFilters (λ root. Kind (slice_index kinds root)) (modes_of fewer)
        → AreAscending (λ (b : Block). b.first_word)
        (IsReachedIn (slice_index (current_words words kinds)) links) held
        → AreAscending (λ (b : Block). b.first_word)
        (IsReachedMixed (slice_index (words_by_modes words fewer)) (modes_of fewer) links) more
        → (b : Block) → Contains held b → Contains more b }
{}
