//! What follows for what is told of an image, as a function with nothing to run: a caller cites its
//! clauses.
ghost use Rattle.std.specs.Prelude.{◌≡◌, ◌↔◌, ◌++◌, ℕ, Bool, false, List, [], slice_index};
ghost use Rattle.heap_model.specs.declared.block.Block.{Block};
ghost use Rattle.heap_model.specs.Header.{first_kinds};
ghost use Rattle.heap_model.specs.Image.{Image};
ghost use Rattle.region_header.specs.Migration.{current_words};
ghost use Rattle.heap_at_rest.specs.Orderly.{IsHeldByAnchors};
ghost use Rattle.quick_recover.specs.declared.open.Path.TheVariants.{Quick as ByAnchors};
ghost use Rattle.dict_model.specs.Requests.{Request};
ghost use Rattle.run_model.specs.Opened.{HasMaps};
ghost use Rattle.image_run.specs.Reporting.{IsKept, Recovers, image_in, shown_text, words_in_bytes};
ghost use Rattle.image_run.specs.Running.{Options, RunsRequests};
ghost use Rattle.image_run.specs.Counting.{IsOrderlyImage, TellsOpened, way_line};

/// Where the anchors of an orderly image hold exactly what its roots reach, what is told of it is
/// `quick`, and then what is told of the heap that recovery makes of it, without keys: the same
/// report, and the same map. So it is of what a run closes.
pub fn what_anchors_show_is_counted_as_recovered()
    ensures image { (words : List ℕ) (with_map : Bool) (text : List ℕ) → IsOrderlyImage words
        → ((b : Block) → IsHeldByAnchors (slice_index words) b ↔ IsKept (slice_index words) b)
        → TellsOpened words with_map text
        → (held : List Block) (free : List ℕ) (left : Image)
        → Recovers (slice_index words) held free left
        → text ≡ way_line ByAnchors ++ shown_text (slice_index words) with_map [] held free left }
    ensures run { (image : Image) (requests : List Request) (options : Options)
        (put told : List ℕ) → HasMaps image → (run : RunsRequests image requests options put told)
        → run.stopped ≡ false → (with_map : Bool) (text : List ℕ)
        → TellsOpened (current_words (words_in_bytes put) first_kinds) with_map text
        → (held : List Block) (free : List ℕ) (left : Image)
        → Recovers (image_in put) held free left
        → text ≡ way_line ByAnchors ++ shown_text (image_in put) with_map [] held free left }
{}
