//! What a trace that is to be made is made of.
ghost use Rattle.std.specs.Prelude.{◌≡◌, ◌≤◌};
ghost use Rattle.tool_command.specs.declared.trace_plan.TheConstants.{MOST_REQUESTS, GREATEST_SEED};

/// The most requests of a trace that is made.
pub const MOST_REQUESTS: u64 = 100_000;

/// The greatest seed of a trace that is made.
pub const GREATEST_SEED: u64 = 1_000_000;

/// How many requests a trace is to have, and the seed that they come from.
#[derive(Clone, Copy)]
pub struct TracePlan {
    pub requests: u64,
    pub seed: u64,
    pub ghost few: { requests ≤ MOST_REQUESTS },
    pub ghost small: { seed ≤ GREATEST_SEED },
}

impl TracePlan {
    /// The plan of so many requests from this seed.
    pub fn new(requests: u64, seed: u64) -> Self
        requires few { requests ≤ MOST_REQUESTS }
        requires small { seed ≤ GREATEST_SEED }
        ensures requests { result.requests ≡ requests }
        ensures seed { result.seed ≡ seed }
    {
        TracePlan { requests, seed }
    }
}
