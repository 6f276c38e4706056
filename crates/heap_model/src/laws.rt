//! What follows from the definitions, as functions with nothing to run: a caller cites their
//! clauses.

ghost use Rattle.std.specs.Prelude.{◌≡◌, ◌≢◌, ◌≤◌, ◌<◌, ◌+◌, ◌*◌, ℕ, Bool, IsTrue, ◌↔◌, Option, None};
ghost use Rattle.heap_model.specs.declared.block.Block.{Block};
ghost use Rattle.heap_model.specs.Geometry.{start_word, image_words};
ghost use Rattle.heap_model.specs.Image.{Image};
ghost use Rattle.heap_model.specs.Header.{HasGoodHeader, header_fault, empty_words};
ghost use Rattle.heap_model.specs.Blocks.{Layout, IsBlock, IsBlockOf, AreOneOrApart, layout_of, Names};
ghost use Rattle.heap_model.specs.Pointers.{IsPointerTo, Leads};
ghost use Rattle.heap_model.specs.Reach.{Links, AnyRoot, Reach, TracesAlike, IsOutside, IsClosed};

/// Two blocks are one, or have no word in common.
pub fn blocks_never_overlap()
    ensures { (l : Layout) (a b : Block) → IsBlock l a → IsBlock l b → AreOneOrApart a b }
{}

/// A block begins in its superblock, and all its words lie between the descriptors and the end of
/// the superblocks that have been taken.
pub fn a_block_lies_in_the_image()
    ensures superblock { (l : Layout) (b : Block) (d index words count : ℕ)
        → IsBlockOf l b d index words count
        → (start_word l.capacity d ≤ b.first_word)
        × (b.first_word < start_word l.capacity (d + 1)) }
    ensures image { (l : Layout) (b : Block) → IsBlock l b
        → (start_word l.capacity 0 ≤ b.first_word)
        × (b.first_word + b.words ≤ start_word l.capacity l.used) }
{}

/// A byte offset names one block, and a pointer word, which is never null, leads to one.
pub fn a_pointer_leads_to_one_block()
    ensures offset { (image : Image) (offset : ℕ) (a b : Block) → Names image offset a
        → Names image offset b → a ≡ b }
    ensures word { (image : Image) (word : ℕ) (a b : Block) → Leads image word a
        → Leads image word b → a ≡ b }
    ensures not_null { (word offset : ℕ) → IsPointerTo word offset → word ≢ 0 }
{}

/// What the roots lead to is reached, and what the links of reached blocks lead to.
pub fn reach_is_closed()
    ensures { (image : Image) (kinds : ℕ → ℕ) (links : Links) (has : Block → ℕ → Bool)
        → ((b : Block) (kind : ℕ) → IsTrue (has b kind) ↔ Reach image kinds links b kind)
        → IsClosed image kinds links has }
{}

/// Nothing else is reached: what is reached is in each closed set.
pub fn reach_is_least()
    ensures { (image : Image) (kinds : ℕ → ℕ) (links : Links) (has : Block → ℕ → Bool)
        → IsClosed image kinds links has → (b : Block) (kind : ℕ) → Reach image kinds links b kind
        → IsTrue (has b kind) }
{}

/// An image in which a trace finds what it finds in another reaches what that one reaches, and the
/// same where nothing is outside in that one.
pub fn reach_is_told_by_what_is_traced()
    ensures kept { (image other : Image) (kinds : ℕ → ℕ) (links : Links)
        → TracesAlike image other AnyRoot kinds links
        → (b : Block) (kind : ℕ) → Reach image kinds links b kind → Reach other kinds links b kind }
    ensures same { (image other : Image) (kinds : ℕ → ℕ) (links : Links)
        → TracesAlike image other AnyRoot kinds links
        → ((at : ℕ) → IsOutside image kinds links at → ⊥)
        → (b : Block) (kind : ℕ) → Reach image kinds links b kind ↔ Reach other kinds links b kind }
{}

/// A header is good, as one of its version, exactly where no cause holds.
pub fn a_header_is_good_or_has_a_fault()
    ensures { (limit : Option ℕ) (bytes : ℕ) (image : Image)
        → (header_fault limit bytes image ≡ None) ↔ HasGoodHeader limit bytes image }
{}
