//! What every open heap promises to the thread that works on it.
ghost use Rattle.std.specs.Prelude.{◌≡◌, ℕ, ◌*◌, ⊤, IfOk, OnOk, IfErr, OnErr, Contains, Bool, Some};
ghost use Rattle.heap_model.specs.declared.block.Block.{Block};
ghost use Rattle.heap_model.specs.Image.{Image};
ghost use Rattle.heap_model.specs.Sizes.{span_of};
ghost use Rattle.heap_seat.specs.declared.fault.AllocFault.TheVariants.{Full};
ghost use Rattle.heap_seat.specs.declared.fault.Looks.{Looks};
ghost use Rattle.heap_seat.specs.View.{View, word_of};
ghost use Rattle.heap_seat.specs.Words.{IsOwnSpot, KeepsOwn, MayHaveStored, MixesOwn, NamesAll, StoresKinds, HasPicked};
ghost use Rattle.heap_seat.specs.Tickets.{Stops};
ghost use Rattle.heap_seat.specs.Calls.{IsSmallCall, IsLargeCall, Loads, Stores, WritesBack, Fences};
ghost use Rattle.heap_seat.specs.Alloc.{Allocates, FailsBy};
ghost use Rattle.heap_seat.specs.Free.{MayHaveFreed, Frees};
ghost use Rattle.heap_seat.specs.Sound.{IsSeat};

use crate::fault::AllocFault;
use crate::spot::Spot;
use heap_model::Block;
use line_memory::Stopped;

/// One thread's part of an open heap: the blocks that it holds, the roots that are its own, and the
/// words of both. Each call but `block` draws tickets. At the first ticket that is not below the
/// budget the seat stops: that call and every later one answers `Stopped` with that ticket.
pub trait HeapSeat {
    // What contracts see of it.
    ghost view: { Self → View };

    // The images of the whole heap that may be left: a crash at this moment leaves one of them, and
    // so does each mixture of volatile and durable words.
    ghost images: { Self → Image → Type 0 };

    // What is so of a seat before and after a request of so many bytes that it gives a block to,
    // and of one that it refuses for want of room, with these looks. By default nothing more than
    // what its looks tell.
    ghost has_room: { Self → Self → ℕ → Type 0 } = { λ _ _ _. ⊤ };

    ghost has_none: { Self → Self → ℕ → Looks → Type 0 } = { λ _ _ _ _. ⊤ };

    // What is so of a seat before and after it took this block back. By default nothing.
    ghost gives_back: { Self → Self → Block → Type 0 } = { λ _ _ _. ⊤ };

    // What else of the heap every call leaves as it is. By default nothing.
    ghost keeps: { Self → Self → Type 0 } = { λ _ _. ⊤ };

    /// A block of at least so many bytes. What its words hold is not known.
    fn alloc(&mut self, bytes: u64) -> Result<Block, AllocFault>
        ensures ok { IfOk result (λ b. Allocates bytes b (view self.old) (view self.new)) }
        ensures cause { IfErr result (λ fault. FailsBy bytes fault
            (view self.old) (view self.new)) }
        ensures room { OnOk result (has_room self.old self.new bytes) }
        ensures none { IfErr result (λ fault. (looks : Looks) → fault ≡ Full looks
            → has_none self.old self.new bytes looks) }
        ensures unchanged { OnErr result (KeepsOwn (view self.old) (view self.new)) }
        ensures counted { IsLargeCall (span_of bytes) (view self.old) (view self.new) }
        ensures idle { (ticket : ℕ) → (view self.old).stopped ≡ Some ticket
            → self.new ≡ self.old }
        ensures kept { keeps self.old self.new };

    /// Gives a held block back. After `Stopped` it may be held or not.
    fn free(&mut self, b: Block) -> Result<(), Stopped>
        requires { Contains (view self.old).held b }
        ensures ok { OnOk result (Frees b (view self.old) (view self.new)) }
        ensures given { OnOk result (gives_back self.old self.new b) }
        ensures stopped { IfErr result (λ e. Stops e.step (view self.old) (view self.new)) }
        ensures others { MayHaveFreed b (view self.old) (view self.new) }
        ensures counted { IsLargeCall 0 (view self.old) (view self.new) }
        ensures idle { (ticket : ℕ) → (view self.old).stopped ≡ Some ticket
            → self.new ≡ self.old }
        ensures kept { keeps self.old self.new };

    /// The word at the spot.
    fn load(&mut self, s: Spot) -> Result<u64, Stopped>
        requires { IsOwnSpot (view self.old) s }
        ensures ok { IfOk result (λ value. Loads (word_of s) value
            (view self.old) (view self.new)) }
        ensures stopped { IfErr result (λ e. Stops e.step (view self.old) (view self.new)) }
        ensures unchanged { KeepsOwn (view self.old) (view self.new) }
        ensures counted { IsSmallCall (view self.old) (view self.new) }
        ensures idle { (ticket : ℕ) → (view self.old).stopped ≡ Some ticket
            → self.new ≡ self.old }
        ensures kept { keeps self.old self.new };

    /// Changes what loads see of the word at the spot. A crash may still leave its old value.
    fn store(&mut self, s: Spot, value: u64) -> Result<(), Stopped>
        requires { IsOwnSpot (view self.old) s }
        ensures ok { OnOk result (Stores (word_of s) value (view self.old) (view self.new)) }
        ensures stopped { IfErr result (λ e. Stops e.step (view self.old) (view self.new)) }
        ensures unchanged { OnErr result (KeepsOwn (view self.old) (view self.new)) }
        ensures crash { MayHaveStored (word_of s) value (view self.old) (view self.new) }
        ensures counted { IsSmallCall (view self.old) (view self.new) }
        ensures idle { (ticket : ℕ) → (view self.old).stopped ≡ Some ticket
            → self.new ≡ self.old }
        ensures kept { keeps self.old self.new };

    /// Asks for the words of the spot's block that share its line, or for the root, to be made
    /// durable, which the next fence awaits.
    fn write_back(&mut self, s: Spot) -> Result<(), Stopped>
        requires { IsOwnSpot (view self.old) s }
        ensures ok { OnOk result (WritesBack s (view self.old) (view self.new)) }
        ensures stopped { IfErr result (λ e. Stops e.step (view self.old) (view self.new)) }
        ensures unchanged { KeepsOwn (view self.old) (view self.new) }
        ensures counted { IsSmallCall (view self.old) (view self.new) }
        ensures idle { (ticket : ℕ) → (view self.old).stopped ≡ Some ticket
            → self.new ≡ self.old }
        ensures kept { keeps self.old self.new };

    /// Waits until each own word that was written back, and not stored to since, is durable.
    fn fence(&mut self) -> Result<(), Stopped>
        ensures ok { OnOk result (Fences (view self.old) (view self.new)) }
        ensures stopped { IfErr result (λ e. Stops e.step (view self.old) (view self.new)) }
        ensures unchanged { KeepsOwn (view self.old) (view self.new) }
        ensures counted { IsSmallCall (view self.old) (view self.new) }
        ensures idle { (ticket : ℕ) → (view self.old).stopped ≡ Some ticket
            → self.new ≡ self.old }
        ensures kept { keeps self.old self.new };

    /// The held block that begins at the byte offset. Draws no ticket.
    fn block(&self, offset: u64) -> Block
        requires { (b : Block) × Contains (view self.now).held b × (offset ≡ 8 * b.first_word) }
        ensures held { Contains (view self.now).held result }
        ensures at { offset ≡ 8 * result.first_word };

    ghost seat: { (s : Self) → IsSeat (view s) };

    ghost mixed: { (s : Self) (image : Image) → images s image → MixesOwn (view s) image };

    ghost named: { (s : Self) (image : Image) → images s image → NamesAll image (view s).held };

    ghost stored_kinds: { (s : Self) (image : Image) → images s image
        → StoresKinds (view s) image };

    // What is kept goes on from call to call.
    ghost keeps_none: { (s : Self) → keeps s s };

    ghost keeps_row: { (s t u : Self) → keeps s t → keeps t u → keeps s u };

    // However one of the two values of each own word is picked, an image may be left that has it,
    // where it is known: so there are such images.
    ghost may_be: { (s : Self) (pick : ℕ → Bool) → ∥ ((image : Image) × images s image
        × HasPicked (view s) pick image) ∥₁ };
}
