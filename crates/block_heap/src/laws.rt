//! What follows from the definitions, as functions with nothing to run: a caller cites their
//! clauses.

ghost use Rattle.std.specs.Prelude.{◌≡◌, ◌≢◌, ◌↔◌, ℕ, ◌+◌, ◌*◌, ◌<◌, ◌≤◌, List, length, slice_index, Contains, true, false};
ghost use Rattle.heap_model.specs.declared.block.Block.{Block};
ghost use Rattle.heap_model.specs.Image.{Image};
ghost use Rattle.heap_model.specs.Durability.{Mixes, IsCrashImage, IsClosedImage, NamesAreDurable};
ghost use Rattle.heap_model.specs.Header.{capacity_of, used_of, kinds_of};
ghost use Rattle.heap_model.specs.Blocks.{layout_of};
ghost use Rattle.heap_model.specs.Reach.{Links, IsReached};
ghost use Rattle.heap_model.specs.Recovered.{IsDrained};
ghost use Rattle.heap_at_rest.specs.Draining.{IsDrainable, IsToDrain};
ghost use Rattle.line_memory.specs.View.{word_count, volatile_at, durable_at};
ghost use Rattle.heap_seat.specs.Rows.{IsRow};
ghost use Rattle.heap_seat.specs.Words.{HasPicked};
ghost use Rattle.block_heap.specs.Closing.{IsOpened, KeepsFixed, most_large_draws};
ghost use Rattle.heap_model.specs.Sizes.{IsLeastClassFor};
ghost use Rattle.block_heap.specs.Lists.{IsEmptyList, IsInList};
ghost use Rattle.block_heap.specs.Order.{HasNothing, IsServedInOrder};
ghost use Rattle.block_heap.specs.Parts.{held_in, cache_at};
ghost use Rattle.block_heap.specs.Reopening.{IsReopened};
ghost use Rattle.block_heap.specs.Requests.{IsDrainableFor, IsDrainedOf, Drains};
ghost use Rattle.block_heap.specs.SeqState.{SeqState, seat_of, MayLeave};
ghost use Rattle.heap_model.specs.Geometry.{roots, kind_word, IsFixed};
ghost use Rattle.heap_seat.specs.View.{kind_of};

/// Calls of a heap for one thread go together: over any row of them, the first four words of the
/// header, those that have no meaning and the kinds of the roots are what they were as the heap was
/// opened, as loads see them and as they are durable; and there are as many words. So the kinds of
/// the image that was opened are those that the heap shows, and those of each image that it may
/// leave.
pub fn fixed_words_stay()
    ensures none { (s : SeqState) → KeepsFixed s s }
    ensures row { (s t u : SeqState) → KeepsFixed s t → KeepsFixed t u → KeepsFixed s u }
    ensures opened { (words : List ℕ) (held : List Block) (budget : ℕ) (s t : SeqState)
        → IsOpened words held budget s → KeepsFixed s t
        → (word : ℕ) → IsFixed (capacity_of (slice_index words)) word
        → (volatile_at t.parts.words word ≡ slice_index words word)
        × (durable_at t.parts.words word ≡ slice_index words word) }
    ensures long { (words : List ℕ) (held : List Block) (budget : ℕ) (s t : SeqState)
        → IsOpened words held budget s → KeepsFixed s t
        → word_count t.parts.words ≡ length words }
    ensures kinds { (words : List ℕ) (held : List Block) (budget : ℕ) (s t : SeqState)
        → IsOpened words held budget s → KeepsFixed s t
        → (i : ℕ) → i < roots → kind_of (seat_of t) i ≡ kinds_of (slice_index words) i }
    ensures images { (words : List ℕ) (held : List Block) (budget : ℕ) (s t : SeqState)
        → IsOpened words held budget s → KeepsFixed s t
        → (image : Image) → MayLeave t image → (i : ℕ) → i < roots
        → image (kind_word (capacity_of (slice_index words)) i)
        ≡ kinds_of (slice_index words) i }
{}

/// The last look at the mark of taken superblocks tells how many there were as the heap was opened,
/// by what the heap had taken when it looked; and a row of calls draws few tickets.
pub fn looks_and_tickets_add_up()
    ensures looks { (words : List ℕ) (held : List Block) (budget : ℕ) (s t : SeqState)
        → IsOpened words held budget s → KeepsFixed s t
        → t.parts.used_look.seen ≡ used_of (slice_index words) + t.parts.used_look.taken }
    ensures draws { (small large most : ℕ) (s t : SeqState) → KeepsFixed s t
        → IsRow small large most (seat_of s) (seat_of t)
        → t.parts.words.drawn ≤ s.parts.words.drawn + (small + most_large_draws * large) }
{}

/// What was freed serves a request of a class before what was never taken. A superblock is taken
/// for the first time only where the cache of the class, its list and the free list are empty; and
/// one leaves the free list only where the cache is empty and each superblock in the list of the
/// class has all its blocks free.
pub fn freed_blocks_serve_first()
    ensures fresh { (bytes class : ℕ) (s t : SeqState) → IsServedInOrder bytes s.parts t.parts
        → IsLeastClassFor bytes class → t.parts.taken ≢ s.parts.taken
        → ((cache_at s.parts.caches class).count ≡ 0)
        × IsEmptyList s.parts class × IsEmptyList s.parts 0 }
    ensures free { (bytes class : ℕ) (s t : SeqState) (d : ℕ)
        → IsServedInOrder bytes s.parts t.parts → IsLeastClassFor bytes class
        → IsInList s.parts 0 d → (IsInList t.parts 0 d → ⊥)
        → ((cache_at s.parts.caches class).count ≡ 0) × HasNothing class s.parts }
{}

/// What is left of a heap for one thread is one of its images: each mixture of its two values of
/// each word, each image that a crash leaves, and each that a close leaves. A crash leaves own
/// words as they are durable, a close as loads see them; and each mixture names each held block.
pub fn what_is_left_is_an_image()
    ensures mixed { (s : SeqState) (image : Image)
        → Mixes (slice_index s.parts.words.volatile) (slice_index s.parts.words.durable) image
        → MayLeave s image }
    ensures crashed { (s : SeqState) (image : Image)
        → IsCrashImage (slice_index s.parts.words.durable) image
        → MayLeave s image × HasPicked (seat_of s) (λ _. false) image }
    ensures closed { (s : SeqState) (image : Image)
        → IsClosedImage (slice_index s.parts.words.volatile) image
        → MayLeave s image × HasPicked (seat_of s) (λ _. true) image }
    ensures named { (s : SeqState)
        → NamesAreDurable (slice_index s.parts.words.volatile)
        (slice_index s.parts.words.durable) (Contains (held_in s.parts)) }
{}

/// A heap that is opened over a recovered image, where exactly the reached blocks are held: it is
/// ready to be drained of each class, and what is to be drained of the class is exactly what the
/// image that was recovered had to give.
pub fn a_recovered_heap_drains_what_the_image_says()
    ensures drainable { (bytes : ℕ) (old : Image) (kinds : ℕ → ℕ) (links : Links) (words : List ℕ)
        (held : List Block) (budget : ℕ) (s : SeqState)
        → IsReopened bytes old kinds links words held budget s
        → (class : ℕ) → IsDrainableFor class s }
    ensures drains { (bytes : ℕ) (old : Image) (kinds : ℕ → ℕ) (links : Links) (words : List ℕ)
        (held : List Block) (budget : ℕ) (s : SeqState)
        → IsReopened bytes old kinds links words held budget s
        → (class : ℕ) (b : Block)
        → IsDrained (layout_of old) (IsReached old kinds links) class b ↔ IsDrainedOf class s b }
{}

/// A heap is to give of a class what the words say that it was opened with, beside the blocks that
/// were held then. Where two heaps are to give the same, drains of both give the same offsets, each
/// once; in which order depends on their chains and lists.
pub fn a_heap_drains_what_its_words_say()
    ensures drainable { (words : List ℕ) (held : List Block) (budget : ℕ) (s : SeqState)
        → IsOpened words held budget s → (class : ℕ)
        → IsDrainable (capacity_of (slice_index words)) (slice_index words) held class
        → IsDrainableFor class s }
    ensures drains { (words : List ℕ) (held : List Block) (budget : ℕ) (s : SeqState)
        → IsOpened words held budget s → (class : ℕ) (b : Block) → IsDrainedOf class s b
        ↔ IsToDrain (capacity_of (slice_index words)) (slice_index words) held class b }
    ensures offsets { (class : ℕ) (s t : SeqState)
        → ((b : Block) → IsDrainedOf class s b ↔ IsDrainedOf class t b)
        → (xs ys : List ℕ) → Drains class xs s → Drains class ys t
        → (offset : ℕ) → Contains xs offset ↔ Contains ys offset }
{}
