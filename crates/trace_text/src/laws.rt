//! What the texts tell of a heap at rest, as functions with nothing to run.
ghost use Rattle.std.specs.Prelude.{◌≡◌, ◌<◌, ◌≤◌, ◌+◌, ◌-◌, ◌*◌, ◌/◌, ℕ, List, true, Contains, map, slice_index};
ghost use Rattle.std.specs.List.{All, flat_map, range_with_len};
ghost use Rattle.heap_model.specs.declared.block.Block.{Block};
ghost use Rattle.heap_model.specs.Blocks.{layout_of};
ghost use Rattle.heap_model.specs.Geometry.{start_word, superblock_words};
ghost use Rattle.heap_model.specs.Header.{capacity_of, used_of};
ghost use Rattle.heap_model.specs.Recovered.{AreAscending, IsBlockOfClass, IsFreeSuperblock};
ghost use Rattle.heap_model.specs.Rest.{IsReady};
ghost use Rattle.heap_model.specs.Sizes.{IsClass, words_of_class};
ghost use Rattle.trace_text.specs.HeapMap.{begins_in, index_of, first_of, use_of};
ghost use Rattle.trace_text.specs.Ranges.{longest_runs, AreLongestRuns};
ghost use Rattle.trace_text.specs.Laws.{IsCounted, IsUse};
ghost use Rattle.trace_text.specs.Trace.{lines_of, AreLines, IsFirstOutside};
ghost use Rattle.trace_text.specs.Generated.{request_line, made_request, made_trace, IsWithinBounds};
ghost use Rattle.trace_text.specs.Schedule.{IsSchedule, IsFirstBad};
ghost use Rattle.trace_text.specs.declared.request.Request.{Request};
ghost use Rattle.trace_text.specs.declared.schedule.Schedule.{Schedule};

/// The texts tell of each held block.
pub fn each_held_block_is_told()
    // The report counts it.
    ensures counted { (words : List ℕ) (held : List Block) (b : Block) → IsReady words held
        → Contains held b → IsCounted (capacity_of (slice_index words)) b }

    // In the line of its superblock a block of a class stands under its index.
    ensures begins { (capacity class d index : ℕ) (b : Block) → IsClass class
        → IsBlockOfClass capacity class d index b → begins_in capacity d b ≡ true }
    ensures index { (capacity class d index : ℕ) (b : Block) → IsClass class
        → IsBlockOfClass capacity class d index b → index_of capacity class d b ≡ index }

    // A superblock behind the first of a large block is told with that first one.
    ensures inside { (words : List ℕ) (held : List Block) (b : Block) (first superblocks d : ℕ)
        → IsReady words held → Contains held b
        → b.first_word ≡ start_word (capacity_of (slice_index words)) first
        → b.words ≡ superblock_words * superblocks → first < d → d < first + superblocks
        → first_of (capacity_of (slice_index words)) d held ≡ first }
{}

/// The map tells how each superblock that has been taken is used, where the list is that of the
/// free ones.
pub fn each_use_is_told()
    ensures { (words : List ℕ) (held : List Block) (free : List ℕ) (d : ℕ) → IsReady words held
        → AreAscending (λ e. e)
        (IsFreeSuperblock (layout_of (slice_index words)) (Contains held)) free
        → d < used_of (slice_index words)
        → IsUse (slice_index words) held d (use_of (slice_index words) held free d) }
{}

/// The runs that are printed are the longest.
pub fn runs_are_the_longest()
    ensures { (ns : List ℕ) → AreLongestRuns ns (longest_runs ns) }
{}

/// A trace is read in one way.
pub fn a_trace_has_one_reading()
    // Lines ask for one list of requests.
    ensures requests { (lines : List (List ℕ)) (a b : List Request) → AreLines lines a
        → AreLines lines b → a ≡ b }

    // Lines that ask for requests have none that is outside the grammar.
    ensures both { (lines : List (List ℕ)) (requests : List Request) (number : ℕ)
        → AreLines lines requests → IsFirstOutside lines number → ⊥ }

    // One line is the first that is outside.
    ensures first { (lines : List (List ℕ)) (a b : ℕ) → IsFirstOutside lines a
        → IsFirstOutside lines b → a ≡ b }
{}

/// Requests are read as they are printed, and so is a trace that is made.
pub fn printed_requests_are_read()
    ensures printed { (requests : List Request) → All IsWithinBounds requests
        → AreLines (lines_of (flat_map request_line requests)) requests }

    ensures made { (n seed : ℕ) → AreLines (lines_of (made_trace n seed))
        (map (made_request seed) (range_with_len 0 n)) }
{}

/// A schedule is read in one way.
pub fn a_schedule_has_one_reading()
    // A text writes one schedule.
    ensures schedule { (text : List ℕ) (a b : Schedule) → IsSchedule text a → IsSchedule text b
        → (a.seats ≡ b.seats) × (a.lines.items ≡ b.lines.items) }

    // A text that writes a schedule has no line that is outside the grammar.
    ensures both { (text : List ℕ) (schedule : Schedule) (number : ℕ) → IsSchedule text schedule
        → IsFirstBad (lines_of text) number → ⊥ }

    // One line is the first that is outside.
    ensures first { (lines : List (List ℕ)) (a b : ℕ) → IsFirstBad lines a → IsFirstBad lines b
        → a ≡ b }
{}

/// A schedule has 1 to 8 seats, and steps of these alone.
pub fn a_schedule_has_its_seats()
    ensures seats { (text : List ℕ) (schedule : Schedule) → IsSchedule text schedule
        → (1 ≤ schedule.seats) × (schedule.seats ≤ 8) }
    ensures each { (text : List ℕ) (schedule : Schedule) → IsSchedule text schedule
        → All (λ step. step.0 < schedule.seats) schedule.lines.items }
{}
