//! The count of failures that each port keeps.
ghost use Rattle.std.specs.Prelude.{◌≡◌, ◌^◌, ◌<◌};
ghost use Rattle.tool_ports.specs.Causes.{one_more};

/// How many calls of a port have failed by the outside. It stops at its last value.
#[derive(Drop)]
pub struct FaultCount {
    /// How many calls have failed.
    pub count: u64,
    pub ghost fits: { count < 2 ^ 64 },
}

impl FaultCount {
    /// No failure yet.
    pub fn new() -> Self
        ensures { result.count ≡ 0 }
    {
        FaultCount { count: 0 }
    }

    /// Counts one failure.
    pub fn rise(&mut self)
        ensures { self.new.count ≡ one_more self.old.count }
    {
        self.count = self.count.saturating_add(1);
    }
}
