//! What a seat's view tells of the images that may be left, as functions with nothing to run: a
//! caller cites their clauses.

ghost use Rattle.std.specs.Prelude.{◌≡◌, ◌*◌, ℕ, Bool, Option, None, length, slice_index};
ghost use Rattle.heap_model.specs.declared.block.Block.{Block};
ghost use Rattle.heap_model.specs.Blocks.{Names};
ghost use Rattle.heap_model.specs.Geometry.{image_words};
ghost use Rattle.heap_model.specs.Header.{IsWellFormed, HasKindsBelow, header_fault};
ghost use Rattle.heap_model.specs.Image.{Image};
ghost use Rattle.core_model.specs.Held.{IsHeld};
ghost use Rattle.core_model.specs.View.{View};
ghost use Rattle.heap_rule.specs.Images.{HasPickedRecords, IsImageOf, HasFixedWords, MixesRecorded};
ghost use Rattle.heap_rule.specs.Left.{HasDurableRecords, HasFixedWordsButState, HasTransients, HasVolatileRecords, IsCloseOf, IsCrashOf, MayBeLeft, MixesLasting};
ghost use Rattle.heap_table.specs.Plays.{HasSoundState};

/// Each image of a seat names each block that the seat holds, has one of the two recorded values of
/// each own word, and has the words that no step changes as they were opened: so its header is
/// good, if that of the opened image is.
pub fn an_image_of_a_seat_has_its_blocks_and_words()
    ensures named { (v : View) (image : Image) → IsImageOf v image
        → (b : Block) → IsHeld v b → Names image (8 * b.first_word) b }
    ensures mixed { (v : View) (image : Image) → IsImageOf v image → MixesRecorded v image }
    ensures fixed { (v : View) (image : Image) → IsImageOf v image → HasFixedWords v.setup image }
    ensures header { (v : View) (image : Image) → IsImageOf v image
        → IsWellFormed (8 * length v.setup.opened) (slice_index v.setup.opened)
        → (limit : Option ℕ) → HasKindsBelow limit (slice_index v.setup.opened)
        → header_fault limit (8 * image_words v.setup.capacity) image ≡ None }
{}

/// However one of the two recorded values of each own word is picked, a seat whose view some sound
/// state has has an image with them.
pub fn each_choice_of_words_is_an_image_of_the_seat()
    ensures { (v : View) (pick : ℕ → Bool) → HasSoundState v
        → (image : Image) × IsImageOf v image × HasPickedRecords v pick image }
{}

/// What a crash leaves while a seat has its view names each block that the seat holds, and has the
/// recorded durable value of each info, root and word of a superblock that is the seat's own. The
/// words that no step changes are as they were opened, but for the state: so its header is good, if
/// that of the opened image is.
pub fn a_crash_leaves_a_seat_its_blocks_and_words()
    ensures named { (v : View) (image : Image) → IsCrashOf v image
        → (b : Block) → IsHeld v b → Names image (8 * b.first_word) b }
    ensures durable { (v : View) (image : Image) → IsCrashOf v image → HasDurableRecords v image }
    ensures fixed { (v : View) (image : Image) → IsCrashOf v image
        → HasFixedWordsButState v.setup image }
    ensures header { (v : View) (image : Image) → IsCrashOf v image
        → IsWellFormed (8 * length v.setup.opened) (slice_index v.setup.opened)
        → (limit : Option ℕ) → HasKindsBelow limit (slice_index v.setup.opened)
        → header_fault limit (8 * image_words v.setup.capacity) image ≡ None }
{}

/// The same of what a close leaves, which has the recorded volatile value of each own word.
pub fn a_close_leaves_a_seat_its_blocks_and_words()
    ensures named { (v : View) (image : Image) → IsCloseOf v image
        → (b : Block) → IsHeld v b → Names image (8 * b.first_word) b }
    ensures volatile { (v : View) (image : Image) → IsCloseOf v image → HasVolatileRecords v image }
    ensures fixed { (v : View) (image : Image) → IsCloseOf v image
        → HasFixedWordsButState v.setup image }
    ensures header { (v : View) (image : Image) → IsCloseOf v image
        → IsWellFormed (8 * length v.setup.opened) (slice_index v.setup.opened)
        → (limit : Option ℕ) → HasKindsBelow limit (slice_index v.setup.opened)
        → header_fault limit (8 * image_words v.setup.capacity) image ≡ None }
{}

/// What may be left while a seat has its view is a mixture, what a crash leaves, or a close. It names
/// each block that the seat holds, and has one of the two recorded values of each own word that a
/// crash leaves as it is durable.
pub fn what_may_be_left_has_a_seats_blocks_and_words()
    ensures by_mixture { (v : View) (image : Image) → IsImageOf v image → MayBeLeft v image }
    ensures by_crash { (v : View) (image : Image) → IsCrashOf v image → MayBeLeft v image }
    ensures by_close { (v : View) (image : Image) → IsCloseOf v image → MayBeLeft v image }
    ensures named { (v : View) (image : Image) → MayBeLeft v image
        → (b : Block) → IsHeld v b → Names image (8 * b.first_word) b }
    ensures mixed { (v : View) (image : Image) → MayBeLeft v image → MixesLasting v image }
    ensures fixed { (v : View) (image : Image) → MayBeLeft v image
        → HasFixedWordsButState v.setup image }
    ensures header { (v : View) (image : Image) → MayBeLeft v image
        → IsWellFormed (8 * length v.setup.opened) (slice_index v.setup.opened)
        → (limit : Option ℕ) → HasKindsBelow limit (slice_index v.setup.opened)
        → header_fault limit (8 * image_words v.setup.capacity) image ≡ None }
{}

/// A crash may leave any heads, anchors and links while a seat has a view that some sound state
/// has; and a close leaves something too.
pub fn a_crash_may_leave_any_heads_anchors_and_links()
    ensures crash { (v : View) (any : ℕ → ℕ) → HasSoundState v
        → (image : Image) × IsCrashOf v image × HasTransients v.setup.capacity any image }
    ensures close { (v : View) → HasSoundState v → (image : Image) × IsCloseOf v image }
{}
