//! What follows from the definitions, as functions with nothing to run: a caller cites their
//! clauses.

ghost use Rattle.std.specs.Prelude.{◌≡◌, ◌≢◌, ◌<◌, ◌≤◌, ◌*◌, ◌++◌, ◌∷◌, [], ℕ, List, get_or, set, length, slice_index, ◌↔◌, ◌+◌, Contains, Option, None};
ghost use Rattle.heap_model.specs.declared.block.Block.{Block};
ghost use Rattle.heap_model.specs.Geometry.{capacity_word, image_words, roots};
ghost use Rattle.heap_model.specs.Counting.{times, total};
ghost use Rattle.heap_model.specs.Rest.{IsReady};
ghost use Rattle.core_model.specs.declared.answer.StepAnswer.{StepAnswer};
ghost use Rattle.core_model.specs.declared.event.Event.{Event};
ghost use Rattle.core_model.specs.Cells.{Cell, data_cell};
ghost use Rattle.core_model.specs.Memory.{Memory, memory_of, table_index};
ghost use Rattle.core_model.specs.View.{Setup, View, times_free, times_held, times_own};
ghost use Rattle.core_model.specs.Guards.{IsOwn, MayStep};
ghost use Rattle.core_model.specs.Sound.{Each, Good, Sound};
ghost use Rattle.core_model.specs.Steps.{Keeps, TableState, IsSoundState, Runs, words_after, seat_after};
ghost use Rattle.core_model.specs.Carriers.{accepted, AreOneLess, AreSeatsAndCarriers, carrier_of, emptied, IsCarrier, IsEmptied, offered, one_if_carrier};
ghost use Rattle.core_model.specs.Handing.{AcceptsTo, OffersTo};
ghost use Rattle.core_model.specs.Splitting.{Choice, remaining, given_off};
ghost use Rattle.core_model.specs.Opening.{AreOwners, HasDoneNothing, IsOwnerOf, setup_of, opened_view, opened_state};
ghost use Rattle.core_model.specs.Held.{AreHeldOnce, IsHeld, IsHeldBy, IsFirm, volatile_image, durable_image};
ghost use Rattle.heap_model.specs.Header.{IsWellFormed, HasKindsBelow, header_fault, kinds_of};
ghost use Rattle.heap_model.specs.Image.{Image};
ghost use Rattle.heap_model.specs.Blocks.{Names, layout_of};
ghost use Rattle.heap_model.specs.Durability.{IsCrashImage, IsClosedImage};
ghost use Rattle.heap_model.specs.Reach.{Links, ReachIn, IsOutsideIn};
ghost use Rattle.core_model.specs.Effects.{place_of};

/// Each kind of step that a seat may take keeps memory and seats fitting together, whether an
/// exchange is won or lost, and whether a draw gives a ticket or stops the seat.
pub fn every_step_keeps_the_heap_sound()
    ensures memory { (k : Setup) (m : Memory) (views : List View) (i : ℕ) (v : View)
        → i < length views → get_or views i v ≡ v → Good k m views
        → (event : Event) → MayStep m v event → Keeps k m views i v event }
    ensures table { (k : Setup) (words : List ℕ) (views : List View) (i : ℕ) (v : View)
        (event : Event) → i < length views → get_or views i v ≡ v → Sound k words views
        → MayStep (memory_of k.capacity words) v event
        → Sound k (words_after k words v event)
        (set views i (seat_after (memory_of k.capacity words) v event)) }
{}

/// Whatever the seats do, in whatever order, the shared words and the views stay sound, and each
/// mixture of volatile and durable words names each held block.
pub fn every_list_of_events_keeps_the_heap_sound()
    ensures sound { (k : Setup) (s s' : TableState) (events : List (ℕ × Event))
        (answers : List StepAnswer) → IsSoundState k s → Runs k s events answers s'
        → IsSoundState k s' }
    ensures firm { (k : Setup) (s s' : TableState) (events : List (ℕ × Event))
        (answers : List StepAnswer) → IsSoundState k s → Runs k s events answers s'
        → IsFirm k.capacity s'.words s'.views }
{}

/// The same events from the same state have one outcome: the same answers, and the same words and
/// views.
pub fn a_list_of_events_has_one_outcome()
    ensures { (k : Setup) (s one other : TableState) (events : List (ℕ × Event))
        (answers answers' : List StepAnswer) → Runs k s events answers one
        → Runs k s events answers' other → (answers ≡ answers') × (one ≡ other) }
{}

/// A heap at rest that is opened for some seats, with an owner for each held block and each root,
/// is sound, and each seat has exactly what it owns and has done nothing yet; sound is whatever the seats make of it.
pub fn an_opened_heap_is_sound()
    ensures opened { (words : List ℕ) (held : List Block) (budget seats : ℕ)
        (block_owners root_owners : List ℕ) → IsReady words held
        → AreOwners held seats block_owners root_owners
        → IsSoundState (setup_of words budget seats)
        (opened_state (setup_of words budget seats) held block_owners root_owners seats) }
    ensures held { (words : List ℕ) (held : List Block) (budget seats : ℕ)
        (block_owners root_owners : List ℕ) → IsReady words held
        → AreOwners held seats block_owners root_owners → (i : ℕ) (b : Block)
        → IsHeld (opened_view (setup_of words budget seats) held block_owners root_owners i) b
        ↔ IsOwnerOf held block_owners i b }
    ensures owned { (words : List ℕ) (held : List Block) (budget seats : ℕ)
        (block_owners root_owners : List ℕ) → AreOwners held seats block_owners root_owners
        → (i n : ℕ) → (0 < times n
        (opened_view (setup_of words budget seats) held block_owners root_owners i).roots)
        ↔ ((n < roots) × (get_or root_owners n (i + 1) ≡ i)) }
    ensures nothing_yet { (words : List ℕ) (held : List Block) (budget seats : ℕ)
        (block_owners root_owners : List ℕ) (i : ℕ) → HasDoneNothing (setup_of words budget seats)
        (opened_view (setup_of words budget seats) held block_owners root_owners i) }
    ensures running { (words : List ℕ) (held : List Block) (budget seats : ℕ)
        (block_owners root_owners : List ℕ) → IsReady words held
        → AreOwners held seats block_owners root_owners
        → (events : List (ℕ × Event)) (answers : List StepAnswer) (s : TableState)
        → Runs (setup_of words budget seats)
        (opened_state (setup_of words budget seats) held block_owners root_owners seats) events
        answers s
        → IsSoundState (setup_of words budget seats) s }
    ensures firm { (words : List ℕ) (held : List Block) (budget seats : ℕ)
        (block_owners root_owners : List ℕ) → IsReady words held
        → AreOwners held seats block_owners root_owners
        → (events : List (ℕ × Event)) (answers : List StepAnswer) (s : TableState)
        → Runs (setup_of words budget seats)
        (opened_state (setup_of words budget seats) held block_owners root_owners seats) events
        answers s
        → IsFirm (slice_index words capacity_word) s.words s.views }
{}

/// A seat may give some of its held blocks and roots, whichever are chosen, to a new seat that has
/// done nothing yet: no word changes, and the state stays sound.
pub fn a_seat_may_be_split()
    ensures { (k : Setup) (words : List ℕ) (views : List View) (i : ℕ) (v : View)
        → i < length views → get_or views i v ≡ v → Sound k words views → (c : Choice)
        → Sound k words (set views i (remaining c v) ++ given_off c v ∷ []) }
{}

/// Whatever a crash leaves of a sound state, or a close, names each held block.
pub fn a_crash_leaves_each_held_block_named()
    ensures crash { (k : Setup) (s : TableState) → IsSoundState k s → (image : Image)
        → IsCrashImage (durable_image k.capacity s.words) image
        → (b : Block) → IsHeldBy s.views b → Names image (8 * b.first_word) b }
    ensures closed { (k : Setup) (s : TableState) → IsSoundState k s → (image : Image)
        → IsClosedImage (volatile_image k.capacity s.words) image
        → (b : Block) → IsHeldBy s.views b → Names image (8 * b.first_word) b }
{}

/// Whatever a crash leaves of a sound state, whose opened image has a good header, has one too, with
/// any limit that the kinds of its roots were below; so does what it leaves of any state that the
/// seats of an opened heap at rest come to.
pub fn a_crash_leaves_a_good_header()
    ensures sound { (k : Setup) (s : TableState) → IsSoundState k s
        → IsWellFormed (8 * length k.opened) (slice_index k.opened) → (limit : Option ℕ)
        → HasKindsBelow limit (slice_index k.opened) → (image : Image)
        → IsCrashImage (durable_image k.capacity s.words) image
        → header_fault limit (8 * image_words k.capacity) image ≡ None }
    ensures running { (words : List ℕ) (held : List Block) (budget seats : ℕ)
        (block_owners root_owners : List ℕ) → IsReady words held
        → AreOwners held seats block_owners root_owners
        → (events : List (ℕ × Event)) (answers : List StepAnswer) (s : TableState)
        → Runs (setup_of words budget seats)
        (opened_state (setup_of words budget seats) held block_owners root_owners seats) events
        answers s
        → (limit : Option ℕ) → HasKindsBelow limit (slice_index words) → (image : Image)
        → IsCrashImage (durable_image (slice_index words capacity_word) s.words) image
        → header_fault limit (8 * image_words (slice_index words capacity_word)) image ≡ None }
{}

/// Whatever a crash leaves of the same durable words, it is laid out the same, it stores the same
/// kinds of roots, it reaches the same blocks, as the same kinds, and the same words of it point outside, with the same values: no
/// trace looks at a word that a crash leaves at random.
pub fn whatever_a_crash_leaves_reaches_the_same()
    ensures layout { (durable image other : Image) → IsCrashImage durable image
        → IsCrashImage durable other → layout_of other ≡ layout_of image }
    ensures reach { (durable image other : Image) → IsCrashImage durable image
        → IsCrashImage durable other → (links : Links) (b : Block) (kind : ℕ)
        → ReachIn image links b kind → ReachIn other links b kind }
    ensures outside { (durable image other : Image) → IsCrashImage durable image
        → IsCrashImage durable other → (links : Links) (at : ℕ) → IsOutsideIn image links at
        → IsOutsideIn other links at × (other at ≡ image at) }
    ensures kinds { (durable image other : Image) → IsCrashImage durable image
        → IsCrashImage durable other
        → (root : ℕ) → root < roots → kinds_of other root ≡ kinds_of image root }
{}

/// No block is held twice: each stands once in the lists of one seat, blocks of two seats have no
/// word in common, and each lies in the heap; so it is in each sound state, and in each that the
/// seats of an opened heap at rest come to.
pub fn no_block_is_held_twice()
    ensures sound { (k : Setup) (s : TableState) → IsSoundState k s
        → AreHeldOnce k.capacity s.views }
    ensures running { (words : List ℕ) (held : List Block) (budget seats : ℕ)
        (block_owners root_owners : List ℕ) → IsReady words held
        → AreOwners held seats block_owners root_owners
        → (events : List (ℕ × Event)) (answers : List StepAnswer) (s : TableState)
        → Runs (setup_of words budget seats)
        (opened_state (setup_of words budget seats) held block_owners root_owners seats) events
        answers s
        → AreHeldOnce (slice_index words capacity_word) s.views }
{}

/// A step that a seat may take works on a word of the shared table.
pub fn a_step_works_on_a_word_of_the_table()
    ensures { (k : Setup) (s : TableState) (i : ℕ) (v : View) (event : Event)
        → i < length s.views → get_or s.views i v ≡ v → IsSoundState k s
        → MayStep (memory_of k.capacity s.words) v event
        → table_index k.capacity (place_of v event) < length s.words }
{}

/// No word is own to two seats.
pub fn a_word_is_own_to_at_most_one_seat()
    ensures { (k : Setup) (m : Memory) (views : List View) → Good k m views → (i j : ℕ) (v u : View)
        → j ≢ i → i < length views → get_or views i v ≡ v → j < length views → get_or views j u ≡ u
        → (cell : Cell) → IsOwn v cell → times_own u cell ≡ 0 }
{}

/// A seat has each word as its own at most once: so a word of a cached block, or of one in the
/// batch, is no word of a held one.
pub fn a_word_is_own_at_most_once()
    ensures once { (k : Setup) (m : Memory) (views : List View) → Good k m views
        → Each views (λ v. (cell : Cell) → times_own v cell ≤ 1) }
    ensures not_held { (k : Setup) (m : Memory) (views : List View) → Good k m views
        → Each views (λ v. (word : ℕ) → 0 < times_free v word
        → times_held v (data_cell word) ≡ 0) }
{}

/// A seat may offer a held block to a carrier, and accept what a carrier has, whatever order the
/// views then stand in: no word changes, and the state stays sound, with as many seats. The carrier
/// goes, or stays with nothing, and then is no carrier any more. Each offer has one carrier that is
/// left, or one accept. In each such state no block is held twice: by two seats, by two carriers,
/// or by a seat and a carrier.
pub fn a_block_may_go_between_seats()
    ensures offered { (k : Setup) (words : List ℕ) (views : List View) (i : ℕ) (v : View) (block : ℕ)
        → i < length views → get_or views i v ≡ v → Sound k words views
        → Sound k words (set views i (offered v block) ++ carrier_of v block ∷ []) }
    ensures carried { (v : View) (block : ℕ) → IsCarrier (carrier_of v block) }
    ensures accepted { (k : Setup) (words : List ℕ) (old new : List View) (v u : View)
        → Contains old v → Contains old u → IsCarrier u → AreOneLess old new v u (accepted v u)
        → Sound k words old → Sound k words new }
    ensures accepted_in_place { (k : Setup) (words : List ℕ) (views : List View) (i j : ℕ)
        (v u : View) → j ≢ i → i < length views → get_or views i v ≡ v → j < length views
        → get_or views j u ≡ u → IsCarrier u → Sound k words views
        → Sound k words (set (set views i (accepted v u)) j (emptied u)) }
    ensures emptied { (u : View) → IsCarrier u → IsEmptied (emptied u) }
    ensures once { (u : View) → IsEmptied u → IsCarrier u → ⊥ }
    ensures offers_one { (k : Setup) (views : List View) (i : ℕ) (v : View) (block : ℕ)
        → i < length views → get_or views i v ≡ v → v.carries ≡ 0 → AreSeatsAndCarriers k views
        → AreSeatsAndCarriers k (set views i (offered v block) ++ carrier_of v block ∷ []) }
    ensures accepts_one { (k : Setup) (old new : List View) (v u : View) → v.carries ≡ 0
        → IsCarrier u → AreOneLess old new v u (accepted v u) → AreSeatsAndCarriers k old
        → AreSeatsAndCarriers k new }
    ensures accepts_one_in_place { (k : Setup) (views : List View) (i j : ℕ) (v u : View) → j ≢ i
        → i < length views → get_or views i v ≡ v → j < length views → get_or views j u ≡ u
        → v.carries ≡ 0 → IsCarrier u → AreSeatsAndCarriers k views
        → AreSeatsAndCarriers k (set (set views i (accepted v u)) j (emptied u)) }
    ensures stepped { (k : Setup) (m : Memory) (views : List View) (i : ℕ) (v : View) (event : Event)
        → i < length views → get_or views i v ≡ v → v.carries ≡ 0 → AreSeatsAndCarriers k views
        → AreSeatsAndCarriers k (set views i (seat_after m v event)) }
    ensures counts { (k : Setup) (views : List View) → AreSeatsAndCarriers k views
        → total one_if_carrier views + total (λ (v : View). v.accepts) views
        ≡ total (λ (v : View). v.offers) views }
    ensures held_once { (k : Setup) (words : List ℕ) (views : List View) → Sound k words views
        → AreHeldOnce k.capacity views }
{}

/// Whatever a seat's offer or accept answers, the state stays sound, with as many seats, and each
/// offer has one carrier that is left, or one accept.
pub fn offers_and_accepts_keep_the_heap_sound()
    ensures offer { (k : Setup) (s : TableState) (i word : ℕ) (answer : StepAnswer)
        (s' : TableState) → i < length s.views → OffersTo s i word answer s' → IsSoundState k s
        → IsSoundState k s' }
    ensures accept { (k : Setup) (s : TableState) (i j : ℕ) (answer : StepAnswer)
        (s' : TableState) → i < length s.views → AcceptsTo s i j answer s' → IsSoundState k s
        → IsSoundState k s' }
    ensures offer_counts { (k : Setup) (s : TableState) (i word : ℕ) (answer : StepAnswer)
        (s' : TableState) → i < length s.views → OffersTo s i word answer s' → AreSeatsAndCarriers k s.views
        → AreSeatsAndCarriers k s'.views }
    ensures accept_counts { (k : Setup) (s : TableState) (i j : ℕ) (answer : StepAnswer)
        (s' : TableState) → i < length s.views → AcceptsTo s i j answer s' → AreSeatsAndCarriers k s.views
        → AreSeatsAndCarriers k s'.views }
{}
