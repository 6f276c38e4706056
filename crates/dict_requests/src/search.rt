//! The search for a key.
ghost use Rattle.std.specs.Prelude.{◌≡◌, ℕ, ◌<◌, IfOk, IfErr};
ghost use Rattle.heap_seat.specs.View.{View};
ghost use Rattle.heap_seat.specs.Tickets.{Stops};
ghost use Rattle.dict_model.specs.Nodes.{shard_of};
ghost use Rattle.dict_requests.specs.Quiet.{IsQuiet};
ghost use Rattle.dict_requests.specs.Walks.{IsQuietWalk};
ghost use Rattle.dict_requests.specs.Removal.{IsShard};
ghost use Rattle.dict_requests.specs.Searches.{FindsTable, Searches};

use crate::walk::{Place, block_of, follow, shard_of, walk};
use heap_model::Block;
use heap_seat::{HeapSeat, Spot};
use line_memory::Stopped;

/// Where the search for a key ends.
#[derive(Clone, Copy)]
pub(crate) enum SearchEnd {
    /// The shard has no table.
    NoTable,
    /// The key is not in its bucket of the table.
    Missing(Block),
    /// The key's node was found.
    Found(Place),
}

/// The table of the key's shard, if that has one.
pub(crate) fn table_of<H: HeapSeat>(seat: &mut H, key: u64) -> Result<Option<Block>, Stopped>
    requires { IsShard (H.view seat.old) (shard_of key) }
    ensures ok { IfOk result (λ table. FindsTable (shard_of key) table
        (H.view seat.old) (H.view seat.new)) }
    ensures cause { IfErr result (λ e. Stops e.step (H.view seat.old) (H.view seat.new)) }
    ensures quiet { IsQuiet 2 (H.view seat.old) (H.view seat.new) }
    ensures kept { H.keeps seat.old seat.new }
{
    let word = follow(seat, Spot::Root(shard_of(key)))?;
    Ok(block_of(seat, word))
}

/// Searches for a key. Each link on the way is durable with the next fence.
pub(crate) fn search<H: HeapSeat>(seat: &mut H, key: u64) -> Result<SearchEnd, Stopped>
    requires { IsShard (H.view seat.old) (shard_of key) }
    ensures ok { IfOk result (λ search. Searches key search (H.view seat.old) (H.view seat.new)) }
    ensures cause { IfErr result (λ e. Stops e.step (H.view seat.old) (H.view seat.new)) }
    ensures quiet { IsQuietWalk 5 (shard_of key) (H.view seat.old) (H.view seat.new) }
    ensures kept { H.keeps seat.old seat.new }
{
    let Some(table) = table_of(seat, key)? else {
        return Ok(SearchEnd::NoTable);
    };
    match walk(seat, table, key)? {
        Some(place) => Ok(SearchEnd::Found(place)),
        None => Ok(SearchEnd::Missing(table)),
    }
}
