//! What a thread read last of a word that it shares with others.
ghost use Rattle.std.specs.Prelude.{◌≡◌, Some};

/// A shared word as it was read last.
#[derive(Clone, Copy, PartialEq, Eq, Debug)]
pub struct Look {
    /// What it held.
    pub seen: u64,
    /// The ticket of that step; none if it was read as the heap was opened.
    pub ticket: Option<u64>,
    /// How many superblocks the thread had taken by then.
    pub taken: u64,
}

impl Look {
    /// A look by the ticket.
    pub fn by(seen: u64, ticket: u64, taken: u64) -> Look
        ensures seen { result.seen ≡ seen }
        ensures ticket { result.ticket ≡ Some ticket }
        ensures taken { result.taken ≡ taken }
    {
        Look {
            seen,
            ticket: Some(ticket),
            taken,
        }
    }
}
