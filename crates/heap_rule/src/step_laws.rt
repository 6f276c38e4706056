//! What a step leaves of the seat's view, as functions with nothing to run: a caller cites their
//! clauses.

ghost use Rattle.std.specs.Prelude.{◌≡◌, ◌≢◌, ◌≤◌, ◌+◌, ℕ, Option, None, Some, Result, IfErr, ⊤};
ghost use Rattle.core_model.specs.declared.answer.StepAnswer.TheVariants.{Done, Stopped};
ghost use Rattle.core_model.specs.declared.event.Event.{Event};
ghost use Rattle.core_model.specs.declared.event.Event.TheVariants.{Tick, LookUsed, TakeFresh, Pop, Push, TakeAll, Give};
ghost use Rattle.core_model.specs.declared.event.Shift.{Shift};
ghost use Rattle.core_model.specs.declared.event.Shift.TheVariants.{Cut, Free};
ghost use Rattle.core_model.specs.Effects.{before, drew, given, lost, popped, pushed, seen, seen_of, seen_word, stopped, taken_all, taken_fresh};
ghost use Rattle.core_model.specs.ViewAfter.{after_free, shifted};
ghost use Rattle.core_model.specs.Cells.{cell_at};
ghost use Rattle.core_model.specs.Guards.{IsAsSeen, IsOwn};
ghost use Rattle.core_model.specs.Memory.{memory_of};
ghost use Rattle.core_model.specs.Steps.{StepsTo, words_after};
ghost use Rattle.core_model.specs.View.{View};
ghost use Rattle.heap_model.specs.Words.{head_first};
ghost use Rattle.heap_rule.specs.Cuts.{cut_for};
ghost use Rattle.heap_table.specs.Plays.{IsEvent, state_before, state_with};
ghost use Rattle.heap_rule.specs.Records.{IsOn, KeepsRecord};
ghost use Rattle.heap_rule.specs.Seated.{HasLostTo, Tells};
ghost use Rattle.heap_rule.specs.Shown.{CanCut, CanFree};
ghost use Rattle.heap_rule.specs.Tickets.{next_of};

/// A draw that goes on leaves the ticket in hand and its change done; one that stops the seat
/// leaves nothing else changed. What a view shows of a superblock's class is the class that its
/// blocks are made for, or that a freed block is of.
pub fn a_draw_leaves_its_change_or_a_stop()
    ensures done { (shift : Option Shift) (v w : View) (ticket : ℕ)
        → (e : IsEvent (Tick shift) v ticket w) → w.stopped ≡ None
        → w ≡ shifted (memory_of v.setup.capacity e.before.words) (drew v ticket) shift }
    ensures stop { (shift : Option Shift) (v w : View) (ticket step : ℕ)
        → IsEvent (Tick shift) v ticket w → v.stopped ≡ None → w.stopped ≡ Some step
        → w ≡ stopped v step }
    ensures cut { (d : ℕ) (v w : View) (ticket : ℕ) → IsEvent (Tick (Some (Cut d))) v ticket w
        → w.stopped ≡ None → (can : CanCut v d) → w ≡ cut_for can.class (drew v ticket) d }
    ensures free { (block : ℕ) (v w : View) (ticket : ℕ)
        → IsEvent (Tick (Some (Free block))) v ticket w
        → w.stopped ≡ None → (can : CanFree v block)
        → w ≡ after_free (drew v ticket) can.class block }
{}

/// A seat's step is one of the core: in the sound state before it, the same seat takes the event
/// there, unless it is an exchange that is lost.
pub fn a_step_of_a_seat_is_one_of_the_core()
    ensures done { (event : Event) (v w : View) (found : ℕ) → (e : IsEvent event v found w)
        → IsAsSeen (memory_of v.setup.capacity e.before.words) v event → w.stopped ≡ None
        → StepsTo v.setup (state_before e.before) e.before.seat event Done
        (state_with e.before (words_after v.setup e.before.words v event) w) }
    ensures stops { (event : Event) (v w : View) (found step : ℕ) → (e : IsEvent event v found w)
        → IsAsSeen (memory_of v.setup.capacity e.before.words) v event → w.stopped ≡ Some step
        → StepsTo v.setup (state_before e.before) e.before.seat event (Stopped step)
        (state_with e.before (words_after v.setup e.before.words v event) w) }
{}

/// An exchange of a word that is as it was seen is won, and leaves what it does; any other is lost:
/// the ticket and the snapshot are used up, a loss is counted with the word that was found, and
/// nothing else changes.
pub fn an_exchange_is_won_or_lost()
    ensures taken { (n : ℕ) (v w : View) (found : ℕ) → IsEvent (TakeFresh n) v found w
        → found ≡ seen v.seen_used → w ≡ taken_fresh v n }
    ensures not_taken { (n : ℕ) (v w : View) (found : ℕ) → IsEvent (TakeFresh n) v found w
        → found ≢ seen v.seen_used → w ≡ record (lost v found) { seen_used = None } }
    ensures popped { (v w : View) (found : ℕ) → IsEvent Pop v found w
        → found ≡ seen_word v.seen_head
        → w ≡ popped v (before (head_first (seen_word v.seen_head))) }
    ensures not_popped { (v w : View) (found : ℕ) → IsEvent Pop v found w
        → found ≢ seen_word v.seen_head → w ≡ record (lost v found) { seen_head = None } }
    ensures pushed { (d : ℕ) (v w : View) (found : ℕ) → IsEvent (Push d) v found w
        → found ≡ seen_word v.seen_head → w ≡ pushed v d }
    ensures not_pushed { (d : ℕ) (v w : View) (found : ℕ) → IsEvent (Push d) v found w
        → found ≢ seen_word v.seen_head → w ≡ record (lost v found) { seen_head = None } }
    ensures taken_all { (d : ℕ) (v w : View) (found : ℕ) → (e : IsEvent (TakeAll d) v found w)
        → found ≡ seen_word v.seen_anchor
        → w ≡ taken_all (memory_of v.setup.capacity e.before.words) v d }
    ensures not_taken_all { (d : ℕ) (v w : View) (found : ℕ) → IsEvent (TakeAll d) v found w
        → found ≢ seen_word v.seen_anchor → w ≡ record (lost v found) { seen_anchor = None } }
    ensures given { (d : ℕ) (v w : View) (found : ℕ) → IsEvent (Give d) v found w
        → found ≡ seen_word v.seen_anchor → w ≡ given v d }
    ensures not_given { (d : ℕ) (v w : View) (found : ℕ) → IsEvent (Give d) v found w
        → found ≢ seen_word v.seen_anchor → w ≡ record (lost v found) { seen_anchor = None } }
{}

/// An exchange that is lost answers the word that it found itself, which the view keeps: what
/// stands, in a sound state before it, in the word that the event works on.
pub fn a_lost_exchange_answers_the_word_that_it_found()
    ensures taken { (n : ℕ) (v w : View) (found : ℕ) (result : Result ⊤ ℕ)
        → IsEvent (TakeFresh n) v found w → Tells (seen v.seen_used) found result
        → IfErr result (λ word. HasLostTo (TakeFresh n) (seen v.seen_used) word v w) }
    ensures popped { (v w : View) (found : ℕ) (result : Result ⊤ ℕ)
        → IsEvent Pop v found w → Tells (seen_word v.seen_head) found result
        → IfErr result (λ word. HasLostTo Pop (seen_word v.seen_head) word v w) }
    ensures pushed { (d : ℕ) (v w : View) (found : ℕ) (result : Result ⊤ ℕ)
        → IsEvent (Push d) v found w → Tells (seen_word v.seen_head) found result
        → IfErr result (λ word. HasLostTo (Push d) (seen_word v.seen_head) word v w) }
    ensures taken_all { (d : ℕ) (v w : View) (found : ℕ) (result : Result ⊤ ℕ)
        → IsEvent (TakeAll d) v found w → Tells (seen_word v.seen_anchor) found result
        → IfErr result (λ word. HasLostTo (TakeAll d) (seen_word v.seen_anchor) word v w) }
    ensures given { (d : ℕ) (v w : View) (found : ℕ) (result : Result ⊤ ℕ)
        → IsEvent (Give d) v found w → Tells (seen_word v.seen_anchor) found result
        → IfErr result (λ word. HasLostTo (Give d) (seen_word v.seen_anchor) word v w) }
{}

/// What is read of `used` is within the capacity.
pub fn a_seen_used_is_within_the_capacity()
    ensures { (v w : View) (found : ℕ) → IsEvent LookUsed v found w → found ≤ v.setup.capacity }
{}

/// A look at the mark of taken superblocks finds no less than the last one, and what the seat has
/// taken since. A ticket that is drawn is above the seat's last one, and is the last one then; the
/// seat has drawn at most as many as there are up to it.
pub fn looks_and_tickets_rise()
    ensures used { (v w : View) (found : ℕ) → IsEvent LookUsed v found w
        → v.used_look.word + v.taken ≤ found + v.used_look.taken }
    ensures ticket { (shift : Option Shift) (v w : View) (ticket : ℕ)
        → IsEvent (Tick shift) v ticket w → next_of v ≤ ticket }
    ensures last { (shift : Option Shift) (v w : View) (ticket : ℕ)
        → IsEvent (Tick shift) v ticket w → w.last_ticket ≡ Some ticket }
    ensures draws { (shift : Option Shift) (v w : View) (ticket : ℕ)
        → IsEvent (Tick shift) v ticket w
        → (w.draws ≡ v.draws + 1) × (w.draws ≤ ticket + 1) }
{}

/// What is recorded of a seat's own word that stays its own is the same after each of its steps,
/// but for the word that is loaded, stored to or made durable.
pub fn own_words_keep_what_is_recorded()
    ensures { (event : Event) (v w : View) (found word : ℕ) → IsEvent event v found w
        → IsOwn v (cell_at v.setup.capacity word) → IsOwn w (cell_at v.setup.capacity word)
        → (IsOn event word → ⊥) → KeepsRecord word v w }
{}
