//! A heap at rest as it is opened for several seats.

ghost use Rattle.std.specs.Prelude.{◌≡◌, ◌++◌, ◌∷◌, [], ℕ, List, IfOk};
ghost use Rattle.seat_state.specs.OwnerLists.{OwnerLists};
ghost use Rattle.core_model.specs.Memory.{table_index, tickets};
ghost use Rattle.core_model.specs.Opening.{setup_of, opened_state};

use std::alloc::{AllocError, Global};
use std::marker::Model;
use super_block::{Geometry, Ready};

/// A seat for each held block of a heap at rest, in the order of its `held()`, and for each root.
#[derive(Drop)]
pub struct Owners {
    held: Vec<u32>,
    roots: Vec<u32>,
}

impl Model for Owners {
    ghost use Rattle.seat_state.specs.OwnerLists.{OwnerLists};

    ghost Value = { OwnerLists };

    ghost view = { λ a. record { held = a.held.items; roots = a.roots.items } };
}

impl Owners {
    /// These seats. Whoever opens a heap with them asks that each is below the number of seats.
    pub fn new(held: Vec<u32>, roots: Vec<u32>) -> Owners
        ensures held { result.held ≡ held.items }
        ensures roots { result.roots ≡ roots.items }
    {
        Owners { held, roots }
    }

    /// The seat of each held block.
    pub fn held(&self) -> &[u32]
        ensures { result.now ≡ self.now.held }
    {
        &self.held
    }

    /// The seat of each root.
    pub fn roots(&self) -> &[u32]
        ensures { result.now ≡ self.now.roots }
    {
        &self.roots
    }
}

/// Where the shared table has the word that counts drawn tickets: behind the image's words as
/// volatile words and as durable words.
pub fn ticket_place(geometry: Geometry) -> u64
    ensures { result ≡ table_index geometry.capacity tickets }
{
    2 * geometry.length()
}

/// The words of the shared table of a heap at rest: the words of its image as volatile words, the
/// same as durable words, and no ticket drawn.
pub fn opened_table(alloc: Global, heap: &Ready) -> Result<Vec<u64>, AllocError>
    ensures ok { IfOk result (λ table. table.items
        ≡ heap.now.words ++ (heap.now.words ++ (0 ∷ []))) }
    ensures state { IfOk result (λ table. (budget seats : ℕ) (owners : OwnerLists) → table.items
        ≡ (opened_state (setup_of heap.now.words budget seats) heap.now.held
        owners.held owners.roots seats).words) }
{
    let length = heap.words().len();
    let mut table = Vec::with_capacity(alloc, 2 * length + 1)?;
    table.extend_from_slice(heap.words())?;
    table.extend_from_slice(heap.words())?;
    table.push(0)?;
    Ok(table)
}
