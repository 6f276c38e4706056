//! What a call of the tool answers.
ghost use Rattle.std.specs.Prelude.{◌≡◌};

use std::marker::Model;

/// The exit status of the program.
#[derive(Clone, Copy, PartialEq, Eq, Debug)]
pub struct Status {
    code: u8,
}

impl Model for Status {
    ghost use Rattle.std.specs.Prelude.{ℕ, ◌<◌, ◌^◌};

    ghost Value = { ℕ };

    ghost view = { λ s. s.code };

    ghost invariant = { λ s. s.code < 2 ^ 8 };

    ghost inverse = { λ n. record { code = n } };
}

impl Status {
    /// The status of this number.
    pub(crate) fn new(code: u8) -> Self
        ensures { result ≡ code }
    {
        Status { code }
    }

    /// Its number.
    pub fn code(&self) -> u8
        ensures { result ≡ self.now }
    {
        self.code
    }
}
