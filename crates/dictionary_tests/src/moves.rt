//! A key's node on its way to another key, by the three calls of a shard on one seat.
ghost use Rattle.std.specs.Prelude.{◌≡◌, OnOk, IfErr};
ghost use Rattle.dict_requests.specs.Shards.{HasShards};
ghost use Rattle.heap_seat.specs.View.{View};
ghost use Rattle.heap_seat.specs.declared.fault.AllocFault.TheVariants.{Full};
ghost use Rattle.heap_seat.specs.declared.fault.Looks.{Looks};

use block_heap::{AllocFault, HeapSeat};
use dict_requests::Shard;

/// Takes the one key out, and brings its node to the other key, whose shard has a table by then.
/// The answer is whether the key was there.
pub(crate) fn move_key<H: HeapSeat>(seat: &mut H, from: u64, to: u64) -> Result<bool, AllocFault>
    requires { HasShards (H.view seat.old) }
    ensures ok { OnOk result (HasShards (H.view seat.new)) }
    ensures full { IfErr result (λ fault. (looks : Looks) → fault ≡ Full looks
        → HasShards (H.view seat.new)) }
{
    Shard::at(to % 8).make_table(seat)?;
    let Some(node) = Shard::at(from % 8).take(seat, from)? else {
        return Ok(false);
    };
    Shard::at(to % 8).bring(seat, to, node)?;
    Ok(true)
}
