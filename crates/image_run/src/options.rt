//! How a trace is run, and what is told of it.
ghost use Rattle.std.specs.Prelude.{◌≡◌, ◌≤◌, false};
ghost use Rattle.image_run.specs.declared.options.TheConstants.{MOST_WORKERS, MOST_BUDGET};

/// The most workers of a run.
pub const MOST_WORKERS: u64 = 8;

/// The greatest budget of a run, in steps.
pub const MOST_BUDGET: u64 = (1 << 40) - 1;

/// How a trace is run, and what is told of it.
#[derive(Clone, Copy)]
pub struct RunOptions {
    /// How many workers run it.
    pub workers: u64,
    /// How many steps the heap allows.
    pub budget: u64,
    /// The seed of all chances.
    pub seed: u64,
    /// Whether replies and keys are summed up.
    pub with_sum: bool,
    /// Whether the map of superblocks is told.
    pub with_map: bool,
    pub ghost some: { 1 ≤ workers },
    pub ghost few: { workers ≤ MOST_WORKERS },
    pub ghost below: { budget ≤ MOST_BUDGET },
}

impl RunOptions {
    /// A run by so many workers within a budget, that tells replies and keys one by one and no map.
    pub fn new(workers: u64, budget: u64, seed: u64) -> Self
        requires some { 1 ≤ workers }
        requires few { workers ≤ MOST_WORKERS }
        requires below { budget ≤ MOST_BUDGET }
        ensures workers { result.workers ≡ workers }
        ensures budget { result.budget ≡ budget }
        ensures seed { result.seed ≡ seed }
        ensures short { (result.with_sum ≡ false) × (result.with_map ≡ false) }
    {
        RunOptions {
            workers,
            budget,
            seed,
            with_sum: false,
            with_map: false,
        }
    }

    /// The same run, that sums up where `sum` says so, and tells the map where `map` does.
    pub fn telling(self, sum: bool, map: bool) -> Self
        ensures same { (result.workers ≡ self.workers) × (result.budget ≡ self.budget)
            × (result.seed ≡ self.seed) }
        ensures sum { result.with_sum ≡ sum }
        ensures map { result.with_map ≡ map }
    {
        RunOptions {
            workers: self.workers,
            budget: self.budget,
            seed: self.seed,
            with_sum: sum,
            with_map: map,
        }
    }
}
