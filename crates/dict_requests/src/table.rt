//! Making the table of a shard.
ghost use Rattle.std.specs.Prelude.{◌≡◌, ℕ, ◌+◌, ◌*◌, ◌<◌, ◌≤◌, IfOk, OnOk, IfErr, Contains};
ghost use Rattle.heap_model.specs.declared.block.Block.{Block};
ghost use Rattle.heap_model.specs.Sizes.{span_of};
ghost use Rattle.heap_seat.specs.declared.fault.AllocFault.TheVariants.{Full};
ghost use Rattle.heap_seat.specs.declared.fault.Looks.{Looks};
ghost use Rattle.heap_seat.specs.View.{View};
ghost use Rattle.heap_seat.specs.Tickets.{Stops};
ghost use Rattle.heap_seat.specs.Rows.{IsRow};
ghost use Rattle.dict_model.specs.Nodes.{buckets, table_bytes, shard_of};
ghost use Rattle.dict_model.specs.Shards.{Map};
ghost use Rattle.dict_requests.specs.Changes.{MayChange};
ghost use Rattle.dict_requests.specs.Reached.{ReachesAllHeld};
ghost use Rattle.dict_requests.specs.Removal.{IsShard};
ghost use Rattle.dict_requests.specs.Searches.{HasNoRoot};
ghost use Rattle.dict_requests.specs.Puts.{PutFails, WasTurnedDown};
ghost use Rattle.dict_requests.specs.Nodes.{StoresWithin};
ghost use Rattle.dict_requests.specs.Tables.{IsClearing, MakesTable};

use crate::node::write_word;
use crate::walk::shard_of;
use dict_model::BUCKETS;
use heap_model::Block;
use heap_seat::{AllocFault, HeapSeat, Spot, persist};
use line_memory::Stopped;
use offset_ptr::encode;
use super_block::WORD_BYTES;

/// Makes the links of a table null.
fn clear<H: HeapSeat>(seat: &mut H, table: Block) -> Result<(), Stopped>
    requires held { Contains (H.view seat.old).held table }
    requires size { table.words ≡ buckets }
    ensures ok { OnOk result (IsClearing table buckets (H.view seat.old) (H.view seat.new)) }
    ensures cause { IfErr result (λ e. Stops e.step (H.view seat.old) (H.view seat.new)) }
    ensures within { StoresWithin table (2 * buckets) (H.view seat.old) (H.view seat.new) }
    ensures kept { H.keeps seat.old seat.new }
{
    for bucket in 0..BUCKETS {
        write_word(seat, table, bucket, 0)?;
    }
    Ok(())
}

/// Makes the table of the key's shard, which has none.
pub(crate) fn make_table<H: HeapSeat>(seat: &mut H, key: u64) -> Result<Block, AllocFault>
    requires shard { IsShard (H.view seat.old) (shard_of key) }
    requires none { HasNoRoot (shard_of key) (H.view seat.old) (H.view seat.old) }
    ensures ok { IfOk result (λ table. MakesTable key table
        (H.view seat.old) (H.view seat.new)) }
    ensures exact { OnOk result (ReachesAllHeld (H.view seat.old)
        → ReachesAllHeld (H.view seat.new)) }
    ensures cause { IfErr result (λ fault. PutFails table_bytes fault
        (H.view seat.old) (H.view seat.new)) }
    ensures none { IfErr result (λ fault. (looks : Looks) → fault ≡ Full looks
        → WasTurnedDown H.keeps H.has_none table_bytes looks seat.old seat.new) }
    ensures crash { (after : Map → Map) → MayChange (shard_of key) after
        (H.view seat.old) (H.view seat.new) }
    ensures calls { IsRow 260 1 (span_of table_bytes) (H.view seat.old) (H.view seat.new) }
    ensures kept { H.keeps seat.old seat.new }
{
    let table = seat.alloc(WORD_BYTES * BUCKETS)?;
    clear(seat, table)?;
    // The table is empty before the root leads to it.
    seat.fence()?;
    let root = Spot::Root(shard_of(key));
    persist(seat, root, encode(WORD_BYTES * table.first_word))?;
    Ok(table)
}
