//! The failures that a port in memory is told to have.
ghost use Rattle.std.specs.Prelude.{◌≡◌, ◌↔◌, Contains, IsTrue};
ghost use Rattle.tool_ports.specs.Causes.{one_more};

/// The numbers of the calls that are to fail, counted from 0, and the number of the next call.
#[derive(Drop)]
pub struct FailingCalls {
    pub numbers: Vec<u64>,
    pub next: u64,
}

impl FailingCalls {
    pub fn new(numbers: Vec<u64>) -> Self
        ensures numbers { result.numbers ≡ numbers }
        ensures next { result.next ≡ 0 }
    {
        FailingCalls { numbers, next: 0 }
    }

    /// Counts one call, and says whether it is one of those that are to fail.
    pub fn begin(&mut self) -> bool
        ensures fails { IsTrue result ↔ Contains self.old.numbers.items self.old.next }
        ensures next { self.new.next ≡ one_more self.old.next }
        ensures unchanged { self.new.numbers ≡ self.old.numbers }
    {
        let number = self.next;
        self.next = number.saturating_add(1);
        self.numbers.contains(&number)
    }
}
