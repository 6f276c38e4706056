//! What a step of the core answers.

/// The answer of a step.
#[derive(Clone, Copy, PartialEq, Eq, Debug)]
pub enum StepAnswer {
    /// It was done.
    Done,
    /// It was a draw of this ticket, which is not below the budget, or the seat had stopped at it.
    Stopped { step: u64 },
    /// The seat may not take it now.
    NotNow,
}
