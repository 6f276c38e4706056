//! What follows from the definitions, as functions with nothing to run: a caller cites their
//! clauses.

ghost use Rattle.std.specs.Prelude.{◌↔◌, ◌≤◌, ℕ, Option};
ghost use Rattle.heap_model.specs.declared.block.Block.{Block};
ghost use Rattle.heap_model.specs.Image.{Image};
ghost use Rattle.heap_model.specs.Header.{capacity_of, used_of};
ghost use Rattle.heap_model.specs.Blocks.{IsBlock, layout_of};
ghost use Rattle.heap_model.specs.Recovered.{IsFreeSuperblock};
ghost use Rattle.heap_at_rest.specs.Orderly.{IsOrderly, IsHeldByAnchors};
ghost use Rattle.heap_at_rest.specs.Agreement.{AgreeButFull};

/// What the anchors of an image hold are blocks of it.
pub fn what_anchors_hold_are_blocks()
    ensures { (image : Image) (b : Block) → IsHeldByAnchors image b → IsBlock (layout_of image) b }
{}

/// What anchors tell depends on no root, on no word of a full or free superblock, and on none of a
/// large block: images that differ there alone are both orderly or neither is, and their anchors
/// hold the same blocks and leave the same superblocks free.
pub fn anchors_tell_without_the_words_of_full_superblocks()
    ensures orderly { (limit : Option ℕ) (bytes : ℕ) (image other : Image)
        → AgreeButFull image other → IsOrderly limit bytes image ↔ IsOrderly limit bytes other }
    ensures held { (image other : Image) → AgreeButFull image other
        → used_of image ≤ capacity_of image
        → (b : Block) → IsHeldByAnchors image b ↔ IsHeldByAnchors other b }
    ensures free { (image other : Image) → AgreeButFull image other
        → used_of image ≤ capacity_of image
        → (d : ℕ) → IsFreeSuperblock (layout_of image) (IsHeldByAnchors image) d
        ↔ IsFreeSuperblock (layout_of other) (IsHeldByAnchors other) d }
{}
