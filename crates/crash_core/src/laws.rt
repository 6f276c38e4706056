//! What follows of a core, as a function with nothing to run: a caller cites its clauses.

ghost use Rattle.std.specs.Prelude.{◌*◌};
ghost use Rattle.heap_model.specs.declared.block.Block.{Block};
ghost use Rattle.heap_model.specs.Image.{Image};
ghost use Rattle.heap_model.specs.Blocks.{Names};
ghost use Rattle.heap_model.specs.Durability.{IsCrashImage};
ghost use Rattle.core_model.specs.Carriers.{AreSeatsAndCarriers};
ghost use Rattle.core_model.specs.Held.{AreHeldOnce, IsFirm, IsHeldBy, durable_image};
ghost use Rattle.core_model.specs.Steps.{TableState, IsSoundState};
ghost use Rattle.core_model.specs.View.{Setup};
ghost use Rattle.crash_core.specs.declared.state.CoreState.{CoreState};
ghost use Rattle.crash_core.specs.Standing.{Represents};

/// A core stands for a sound state, of its seats and of the carriers behind them: each mixture of
/// its volatile and durable words names each held or carried block, and so does whatever a crash
/// leaves of it. No block is held twice, by two seats, by two carriers, or by a seat and a carrier;
/// and each offer has one carrier that is left, or one accept.
pub fn a_core_stands_for_a_sound_state()
    ensures sound { (core : CoreState) (k : Setup) (s : TableState) → Represents core k s
        → IsSoundState k s }
    ensures firm { (core : CoreState) (k : Setup) (s : TableState) → Represents core k s
        → IsFirm k.capacity s.words s.views }
    ensures crash { (core : CoreState) (k : Setup) (s : TableState) → Represents core k s
        → (image : Image) → IsCrashImage (durable_image k.capacity s.words) image
        → (b : Block) → IsHeldBy s.views b → Names image (8 * b.first_word) b }
    ensures held_once { (core : CoreState) (k : Setup) (s : TableState) → Represents core k s
        → AreHeldOnce k.capacity s.views }
    ensures counted { (core : CoreState) (k : Setup) (s : TableState) → Represents core k s
        → AreSeatsAndCarriers k s.views }
{}
