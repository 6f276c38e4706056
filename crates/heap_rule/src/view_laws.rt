//! What is so of each view that some sound state has, and what a store leaves of it, as functions
//! with nothing to run: a caller cites their clauses.

ghost use Rattle.std.specs.Prelude.{◌≡◌, ◌≤◌, ◌<◌, ℕ, None, Some, length, set};
ghost use Rattle.heap_model.specs.declared.block.Block.{Block};
ghost use Rattle.heap_model.specs.Blocks.{AreOneOrApart, IsIn};
ghost use Rattle.heap_model.specs.Counting.{times, total};
ghost use Rattle.heap_model.specs.Geometry.{image_words, largest_capacity, root_word, roots, superblock_of};
ghost use Rattle.core_model.specs.declared.event.Event.TheVariants.{Load, Store, Settle};
ghost use Rattle.core_model.specs.Cells.{cell_at};
ghost use Rattle.core_model.specs.Effects.{learn};
ghost use Rattle.core_model.specs.Guards.{IsOwn, MayChangeWord};
ghost use Rattle.core_model.specs.Held.{IsHeld};
ghost use Rattle.core_model.specs.Memory.{durable_used, memory_of, used};
ghost use Rattle.core_model.specs.View.{View, times_block, times_large, times_raw};
ghost use Rattle.heap_rule.specs.Held.{IsPlacedBelow};
ghost use Rattle.heap_rule.specs.Left.{Lasts};
ghost use Rattle.heap_table.specs.Plays.{HasSoundState, IsEvent};
ghost use Rattle.heap_rule.specs.Shown.{Shows, ShowsDurable};

/// A superblock that a seat has claimed without a class is claimed once and lies in the image, and
/// no block of the seat begins in it; each of its words may be stored to.
pub fn a_superblock_without_a_class_is_the_seats_alone()
    ensures once { (v : View) → HasSoundState v → (d : ℕ) → times_raw d v ≤ 1 }
    ensures inside { (v : View) → HasSoundState v → (d : ℕ) → 0 < times_raw d v
        → d < v.setup.capacity }
    ensures blank { (v : View) → HasSoundState v → (word : ℕ)
        → 0 < times_raw (superblock_of v.setup.capacity word) v → MayChangeWord v word }
    ensures no_block { (v : View) → HasSoundState v → (word : ℕ)
        → 0 < times_raw (superblock_of v.setup.capacity word) v → times_block word v ≡ 0 }
{}

/// A seat has room to record each word of the image.
pub fn a_view_records_each_word()
    ensures volatile { (v : View) → HasSoundState v
        → length v.volatile ≡ image_words v.setup.capacity }
    ensures durable { (v : View) → HasSoundState v
        → length v.durable ≡ image_words v.setup.capacity }
{}

/// What was stored to an own word, or loaded of it, is recorded, and what was recorded of it before
/// it is settled is recorded as durable; nothing else that is recorded changes.
pub fn a_store_is_recorded()
    ensures stored { (word value : ℕ) (v w : View) (found : ℕ)
        → IsEvent (Store word value) v found w
        → Shows w (cell_at v.setup.capacity word) value }
    ensures volatile { (word value : ℕ) (v w : View) (found : ℕ)
        → IsEvent (Store word value) v found w → w.volatile ≡ learn v.volatile word value }
    ensures durable { (word value : ℕ) (v w : View) (found : ℕ)
        → IsEvent (Store word value) v found w → w.durable ≡ v.durable }
    ensures settled { (word value : ℕ) (v w : View) (found : ℕ) → IsEvent (Settle word) v found w
        → Shows v (cell_at v.setup.capacity word) value → w ≡ record v {
          volatile = learn v.volatile word value;
          durable = learn v.durable word value;
        } }
    ensures loaded { (word value : ℕ) (v w : View) → IsEvent (Load word) v value w
        → Shows w (cell_at v.setup.capacity word) value }
{}

/// Each block that a seat holds has words and lies in superblocks below the durable mark; two of
/// them are one block or have no word in common. A small block is held, cached or in the batch once,
/// a superblock is part of one large block, and a root is owned once, by one seat.
pub fn held_blocks_are_placed_and_apart()
    ensures placed { (v : View) → (has : HasSoundState v) → (b : Block) → IsHeld v b
        → IsPlacedBelow v.setup.capacity
        (durable_used (memory_of v.setup.capacity has.words)) b }
    ensures marks { (v : View) → (has : HasSoundState v)
        → (durable_used (memory_of v.setup.capacity has.words)
        ≤ used (memory_of v.setup.capacity has.words))
        × (used (memory_of v.setup.capacity has.words) ≤ v.setup.capacity)
        × (v.setup.capacity ≤ largest_capacity) }
    ensures apart { (v : View) → HasSoundState v
        → (a b : Block) → IsHeld v a → IsHeld v b → AreOneOrApart a b }
    ensures small { (v : View) → HasSoundState v → (b : ℕ) → times_block b v ≤ 1 }
    ensures large { (v : View) → HasSoundState v → (d : ℕ) → times_large d v.large ≤ 1 }
    ensures root { (v : View) → HasSoundState v → (i : ℕ) → times i v.roots ≤ 1 }
    ensures root_of_all { (v : View) → (has : HasSoundState v) → (i : ℕ)
        → total (λ (u : View). times i u.roots) has.views ≤ 1 }
{}

/// A seat that has stopped did so at its last ticket, which is not below the budget, and has none
/// in hand; a ticket in hand is the last one, and below the budget, as all tickets are of a seat
/// that goes on.
pub fn a_stopped_seat_keeps_its_last_ticket()
    ensures stop { (v : View) → HasSoundState v → (ticket : ℕ) → v.stopped ≡ Some ticket
        → (v.setup.budget ≤ ticket) × (v.last_ticket ≡ Some ticket) × (v.ticket ≡ None) }
    ensures hand { (v : View) → HasSoundState v → (ticket : ℕ) → v.ticket ≡ Some ticket
        → (v.last_ticket ≡ Some ticket) × (ticket < v.setup.budget) }
    ensures going { (v : View) → HasSoundState v → (ticket : ℕ) → v.stopped ≡ None
        → v.last_ticket ≡ Some ticket → ticket < v.setup.budget }
{}

/// Each word of a block that a seat holds is the seat's own, and so is each root that it owns; a
/// crash leaves them as they are durable.
pub fn words_of_held_blocks_and_roots_are_own()
    ensures block { (v : View) → HasSoundState v → (b : Block) → IsHeld v b
        → (word : ℕ) → IsIn b word
        → IsOwn v (cell_at v.setup.capacity word) × Lasts (cell_at v.setup.capacity word) }
    ensures root { (v : View) → (i : ℕ) → i < roots → 0 < times i v.roots
        → IsOwn v (cell_at v.setup.capacity (root_word i))
        × Lasts (cell_at v.setup.capacity (root_word i)) }
{}
