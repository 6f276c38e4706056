//! What a closed heap leaves in its words, as functions with nothing to run: a caller cites their
//! clauses.

ghost use Rattle.std.specs.Prelude.{◌≡◌, ◌≤◌, ◌+◌, ◌*◌, ℕ, List, Option, None, length, slice_index};
ghost use Rattle.heap_model.specs.Counting.{total};
ghost use Rattle.heap_model.specs.Durability.{IsClosedImage, IsCrashImage, Mixes};
ghost use Rattle.heap_model.specs.Geometry.{image_words, used_word};
ghost use Rattle.heap_model.specs.Header.{IsWellFormed, HasKindsBelow, header_fault};
ghost use Rattle.heap_model.specs.Image.{Image};
ghost use Rattle.core_model.specs.Sound.{Each};
ghost use Rattle.core_model.specs.View.{Setup, View, one_if_some};
ghost use Rattle.heap_rule.specs.Images.{HasRecorded, IsImageOf, HasFixedWords};
ghost use Rattle.heap_rule.specs.Left.{IsCloseOf, IsCrashOf};
ghost use Rattle.heap_table.specs.AtTable.{IsClosedSound};

/// Of each own word a seat or a carrier has recorded what a close left: the volatile value and the
/// durable one.
pub fn a_closed_heap_has_the_recorded_words()
    ensures { (k : Setup) (now kept : List ℕ) (views : List View) → IsClosedSound k now kept views
        → Each views (HasRecorded (slice_index now) (slice_index kept)) }
{}

/// The words that no step changes are as they were opened, in every mixture of volatile and durable
/// words: so each of these has a good header, if the opened image has one.
pub fn a_closed_heap_has_the_opened_header()
    ensures fixed { (k : Setup) (now kept : List ℕ) (views : List View)
        → IsClosedSound k now kept views
        → (image : Image) → Mixes (slice_index now) (slice_index kept) image
        → HasFixedWords k image }
    ensures header { (k : Setup) (now kept : List ℕ) (views : List View)
        → IsClosedSound k now kept views
        → IsWellFormed (8 * length k.opened) (slice_index k.opened)
        → (limit : Option ℕ) → HasKindsBelow limit (slice_index k.opened)
        → (image : Image) → Mixes (slice_index now) (slice_index kept) image
        → header_fault limit (8 * image_words k.capacity) image ≡ None }
{}

/// The mark has risen by the superblocks that the seats took, within the capacity, and its durable
/// value is no higher; as many tickets were drawn as the seats drew.
pub fn a_closed_heap_counts_what_its_seats_did()
    ensures taken { (k : Setup) (now kept : List ℕ) (views : List View)
        → IsClosedSound k now kept views
        → slice_index now used_word ≡ k.used + total (λ (v : View). v.taken) views }
    ensures durable { (k : Setup) (now kept : List ℕ) (views : List View)
        → IsClosedSound k now kept views
        → slice_index kept used_word ≤ slice_index now used_word }
    ensures room { (k : Setup) (now kept : List ℕ) (views : List View)
        → IsClosedSound k now kept views → slice_index now used_word ≤ k.capacity }
    ensures draws { (k : Setup) (now kept : List ℕ) (views : List View)
        → (closed : IsClosedSound k now kept views)
        → closed.drawn ≡ total (λ (v : View). v.draws) views }
{}

/// Each mixture of the volatile and the durable words of a closed heap is an image of each of its
/// seats.
pub fn a_closed_heap_has_images_of_its_seats()
    ensures { (k : Setup) (now kept : List ℕ) (views : List View) → IsClosedSound k now kept views
        → (image : Image) → Mixes (slice_index now) (slice_index kept) image
        → Each views (λ v. v.carries ≡ 0 → IsImageOf v image) }
{}

/// What a crash leaves of a closed heap is what a crash may leave of each of its seats, with the
/// seat's last view, and so it is with a close: it has the seat's blocks and recorded words.
pub fn a_crash_or_a_close_of_a_closed_heap_is_one_of_each_seat()
    ensures crash { (k : Setup) (now kept : List ℕ) (views : List View)
        → IsClosedSound k now kept views
        → (image : Image) → IsCrashImage (slice_index kept) image
        → Each views (λ v. v.carries ≡ 0 → IsCrashOf v image) }
    ensures close { (k : Setup) (now kept : List ℕ) (views : List View)
        → IsClosedSound k now kept views
        → (image : Image) → IsClosedImage (slice_index now) image
        → Each views (λ v. v.carries ≡ 0 → IsCloseOf v image) }
{}

/// The bounds on what the seats of a closed heap did. Each lost at most as many exchanges as the
/// others won. All together moved at most as many superblocks to the list of the free ones as they
/// gave batches, and the capacity besides. At most as many tickets were drawn as the budget allows,
/// and one for each seat that stopped. A seat's last look at the mark, and what the seat took
/// since, is at most the mark. Each seat won and lost at most as many exchanges as it drew tickets,
/// gave and moved at most as often as it won, and cut at most as many superblocks as it drew.
pub fn a_closed_heap_bounds_what_its_seats_did()
    ensures lost { (k : Setup) (now kept : List ℕ) (views : List View)
        → IsClosedSound k now kept views
        → Each views (λ v. v.losses + v.wins ≤ total (λ (u : View). u.wins) views) }
    ensures moved { (k : Setup) (now kept : List ℕ) (views : List View)
        → IsClosedSound k now kept views
        → total (λ (v : View). v.moves) views ≤ total (λ (v : View). v.gives) views + k.capacity }
    ensures drawn { (k : Setup) (now kept : List ℕ) (views : List View)
        → (closed : IsClosedSound k now kept views)
        → closed.drawn ≤ k.budget + total (λ (v : View). one_if_some v.stopped) views }
    ensures looked { (k : Setup) (now kept : List ℕ) (views : List View)
        → IsClosedSound k now kept views
        → Each views (λ v. v.used_look.word + v.taken
        ≤ slice_index now used_word + v.used_look.taken) }
    ensures tried { (k : Setup) (now kept : List ℕ) (views : List View)
        → IsClosedSound k now kept views → Each views (λ v. v.wins + v.losses ≤ v.draws) }
    ensures gave { (k : Setup) (now kept : List ℕ) (views : List View)
        → IsClosedSound k now kept views → Each views (λ v. v.gives + v.moves ≤ v.wins) }
    ensures cut { (k : Setup) (now kept : List ℕ) (views : List View)
        → IsClosedSound k now kept views → Each views (λ v. v.cuts ≤ v.draws) }
{}
