//! What every memory of lines promises.
ghost use Rattle.std.specs.Prelude.{◌≡◌, ◌≢◌, ℕ, ◌+◌, ◌<◌, ◌≤◌, ◌⊎◌, Some, OnOk, IfOk, IfErr, ⊤};
ghost use Rattle.line_memory.specs.View.{View, IsSound, word_count, HasLine, volatile_at, durable_at};
ghost use Rattle.line_memory.specs.Crash.{AddsNothing, OnlyWritesBack, MayLeaveStore};
ghost use Rattle.line_memory.specs.Steps.{Takes, TakesBy, Refuses, RefusesBy, IsLoad, IsStore, IsWriteBack, IsFence};

/// How many words a line has.
pub const LINE: u64 = 8;

/// The budget is used up: the step with this ticket was refused, and each later step is.
#[derive(Clone, Copy, Debug, PartialEq, Eq)]
pub struct Stopped {
    /// The ticket that was refused.
    pub step: u64,
}

/// A memory of words in lines of eight. Each call draws one ticket and one number by chance, which
/// may write back one of the last sixteen stores early. At the first ticket that is not below the
/// budget the memory stops: that call and every later one answers `Stopped` with that ticket.
pub trait LineMemory {
    // What contracts see of it.
    ghost view: { Self → View };

    // The number that a call drew by chance: the memory before, the memory after, the number. By
    // default any.
    ghost draws: { Self → Self → ℕ → Type 0 } = { λ _ _ _. ⊤ };

    /// What loads see of the word.
    fn load(&mut self, word: u64) -> Result<u64, Stopped>
        requires { word < word_count (view self.old) }
        ensures ok { IfOk result (λ value. TakesBy (draws self.old self.new) (IsLoad word value)
            (view self.old) (view self.new)) }
        ensures stopped { IfErr result (λ e. RefusesBy (draws self.old self.new) e.step
            (view self.old) (view self.new)) }
        ensures idle { (ticket : ℕ) → (view self.old).stopped ≡ Some ticket
            → self.new ≡ self.old };

    /// Changes what loads see of the word. A crash may still leave its old value.
    fn store(&mut self, word: u64, value: u64) -> Result<(), Stopped>
        requires { word < word_count (view self.old) }
        ensures ok { OnOk result (TakesBy (draws self.old self.new) (IsStore word value)
            (view self.old) (view self.new)) }
        ensures stopped { IfErr result (λ e. RefusesBy (draws self.old self.new) e.step
            (view self.old) (view self.new)) }
        ensures idle { (ticket : ℕ) → (view self.old).stopped ≡ Some ticket
            → self.new ≡ self.old };

    /// Asks for the words of the line to be made durable, which the next fence awaits.
    fn write_back(&mut self, line: u64) -> Result<(), Stopped>
        requires { HasLine (view self.old) line }
        ensures ok { OnOk result (TakesBy (draws self.old self.new) (IsWriteBack line)
            (view self.old) (view self.new)) }
        ensures stopped { IfErr result (λ e. RefusesBy (draws self.old self.new) e.step
            (view self.old) (view self.new)) }
        ensures idle { (ticket : ℕ) → (view self.old).stopped ≡ Some ticket
            → self.new ≡ self.old };

    /// Waits until each word that was written back, and not stored to since, is durable.
    fn fence(&mut self) -> Result<(), Stopped>
        ensures ok { OnOk result (TakesBy (draws self.old self.new) IsFence
            (view self.old) (view self.new)) }
        ensures stopped { IfErr result (λ e. RefusesBy (draws self.old self.new) e.step
            (view self.old) (view self.new)) }
        ensures idle { (ticket : ℕ) → (view self.old).stopped ≡ Some ticket
            → self.new ≡ self.old };

    ghost sound: { (memory : Self) → IsSound (view memory) };
}

/// Stores the value and makes it durable: a crash after `Ok` leaves it.
pub fn persist<M: LineMemory>(memory: &mut M, word: u64, value: u64) -> Result<(), Stopped>
    requires { word < word_count (M.view memory.old) }
    ensures ok { OnOk result (volatile_at (M.view memory.new) word ≡ value) }
    ensures durable { OnOk result (durable_at (M.view memory.new) word ≡ value) }
    ensures stopped { IfErr result (λ e. (M.view memory.new).stopped ≡ Some e.step) }
    ensures drawn { (M.view memory.new).drawn ≤ (M.view memory.old).drawn + 3 }
    ensures budget { (M.view memory.new).budget ≡ (M.view memory.old).budget }

    // At every exit a crash leaves what it could before, or the value in the word.
    ensures crash { MayLeaveStore word value (M.view memory.old) (M.view memory.new) }
{
    memory.store(word, value)?;
    memory.write_back(word / LINE)?;
    memory.fence()
}

/// A law: what no call but a store adds, and what a store adds.
///
/// No call changes a durable value to any but the one that loads saw before it.
pub fn only_stores_add()
    ensures load { (word value : ℕ) (v w : View) → Takes (IsLoad word value) v w → AddsNothing v w }
    ensures store { (word value : ℕ) (v w : View) → Takes (IsStore word value) v w →
        OnlyWritesBack v w }
    ensures write_back { (line : ℕ) (v w : View) → Takes (IsWriteBack line) v w → AddsNothing v w }
    ensures fence { (v w : View) → Takes IsFence v w → AddsNothing v w }
    ensures stopped { (ticket : ℕ) (v w : View) → Refuses ticket v w → AddsNothing v w }
{}
