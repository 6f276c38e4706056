//! The source of the numbers that decide which words are written back early.
ghost use Rattle.std.specs.Prelude.{◌≡◌, ℕ, ⊤};

/// A source of numbers. Nothing is promised of them, so each theorem holds whatever it gives.
pub trait Chance: Drop {
    // What one draw gives: the source before, the number, the source after. By default anything.
    ghost draw_gives: { Self → ℕ → Self → Type 0 } = { λ _ _ _. ⊤ };

    /// The next number. A memory asks for one at each ticket.
    fn draw(&mut self) -> u64
        ensures { draw_gives self.old result self.new };
}

/// A chance that always gives the same number: by 0 nothing is made durable early, by 1 the latest
/// store is, at each next step.
#[derive(Clone, Copy, Drop)]
pub struct ConstantChance(pub u64);

impl Chance for ConstantChance {
    fn draw(&mut self) -> u64
        ensures same { result ≡ self.old.0 }
        ensures unchanged { self.new ≡ self.old }
    {
        self.0
    }
}
