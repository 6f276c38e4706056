//! The calls of a store, counted.
ghost use Rattle.std.specs.Prelude.{◌≡◌};
ghost use Rattle.tool_ports.specs.Calls.{no_calls, with_get, with_put};

/// How often a store was called, and for how many bytes. The counts stop at their last value.
#[derive(Clone, Copy, PartialEq, Eq, Debug)]
pub struct StoreCalls {
    /// How many gets there were.
    pub gets: u64,
    /// How many puts there were, but those for which memory ran out.
    pub puts: u64,
    /// The greatest number of bytes that a get asked for.
    pub most: usize,
}

impl StoreCalls {
    /// No call yet.
    pub fn new() -> Self
        ensures { result ≡ no_calls }
    {
        StoreCalls {
            gets: 0,
            puts: 0,
            most: 0,
        }
    }

    /// Counts a get of at most so many bytes.
    pub fn count_get(&mut self, most: usize)
        ensures { self.new ≡ with_get most self.old }
    {
        self.gets = self.gets.saturating_add(1);
        self.most = self.most.max(most);
    }

    /// Counts a put.
    pub fn count_put(&mut self)
        ensures { self.new ≡ with_put self.old }
    {
        self.puts = self.puts.saturating_add(1);
    }
}
