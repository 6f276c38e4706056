//! Tables for the shards that values go to, made before requests.
ghost use Rattle.std.specs.Prelude.{◌≡◌, ℕ, ◌+◌, ◌*◌, ◌<◌, ◌≤◌, ◌⊎◌, Bool, true, false, List, IfOk, OnOk, IfErr};
ghost use Rattle.heap_model.specs.Image.{Image};
ghost use Rattle.heap_model.specs.Sizes.{span_of};
ghost use Rattle.heap_seat.specs.Rows.{IsRow};
ghost use Rattle.heap_seat.specs.Tickets.{Runs, Stops};
ghost use Rattle.heap_seat.specs.View.{View};
ghost use Rattle.dict_model.specs.Links.{shards};
ghost use Rattle.dict_model.specs.Nodes.{table_bytes};
ghost use Rattle.dict_model.specs.Requests.{Request, Reply};
ghost use Rattle.dict_model.specs.Shards.{Map};
ghost use Rattle.dict_requests.specs.Changes.{MayChange, Changes};
ghost use Rattle.dict_requests.specs.Moving.{TableTakes};
ghost use Rattle.dict_requests.specs.Reached.{ReachesAllHeld};
ghost use Rattle.dict_requests.specs.Removal.{IsShard};
ghost use Rattle.run_model.specs.Progress.{HasAnswered};
ghost use Rattle.run_model.specs.Spending.{tables_made, tables_missing};
ghost use Rattle.shard_moves.specs.Tables.{is_flagged, flag_count, TellsTable};

use dict_model::SHARDS;
use dict_requests::{PutFault, Shard};
use heap_seat::HeapSeat;
use line_memory::Stopped;

/// Of each shard whether it is one of those that something is said of: that values are moved to
/// them, or that they have a table.
pub type ShardFlags = [bool; 8];

/// Whether the shard has a table in the end: one is made if there is room for it.
fn have_table<H: HeapSeat>(seat: &mut H, number: u64) -> Result<bool, Stopped>
    requires number { number < 8 }
    requires shard { IsShard (H.view seat.old) number }
    ensures told { IfOk result (λ has. TellsTable H.view H.keeps H.has_none number has
        seat.old seat.new) }
    ensures none { IfOk result (λ has. has ≡ false
        → (H.view seat.new).taken ≤ (H.view seat.old).taken) }
    ensures runs { OnOk result (Runs (H.view seat.old) (H.view seat.new)) }
    ensures exact { OnOk result (ReachesAllHeld (H.view seat.old)
        → ReachesAllHeld (H.view seat.new)) }
    ensures cause { IfErr result (λ e. Stops e.step (H.view seat.old) (H.view seat.new)) }

    // At every exit.
    ensures maps { Changes number (λ map. map) (H.view seat.old) (H.view seat.new) }
    ensures crash { MayChange number (λ map. map) (H.view seat.old) (H.view seat.new) }
    ensures taken { TableTakes number (H.view seat.old) (H.view seat.new) }
    ensures calls { IsRow 512 1 (span_of table_bytes) (H.view seat.old) (H.view seat.new) }
    ensures kept { H.keeps seat.old seat.new }
{
    match Shard::at(number).make_table(seat) {
        Ok(()) => Ok(true),
        Err(PutFault::Full(_)) => Ok(false),
        Err(PutFault::Stopped(stopped)) => Err(stopped),
    }
}

/// Sees to it that each wanted shard has a table, as far as there is room, and tells of each in
/// `tables` whether it has one. The maps are as before, wherever this ends.
pub fn make_tables<H: HeapSeat>(
    seat: &mut H,
    wanted: &ShardFlags,
    tables: &mut ShardFlags,
) -> Result<(), Stopped>
    requires shards { (shard : ℕ) → shard < shards → is_flagged wanted.now shard ≡ true
        → IsShard (H.view seat.old) shard }
    ensures told { OnOk result ((shard : ℕ) → shard < shards → is_flagged wanted.now shard ≡ true
        → TellsTable H.view H.keeps H.has_none shard (is_flagged tables.new shard)
        seat.old seat.new) }
    ensures taken { OnOk result ((H.view seat.new).taken ≤ (H.view seat.old).taken
        + tables_made (is_flagged wanted.now) (H.view seat.old) (H.view seat.new)) }
    ensures exact { OnOk result (ReachesAllHeld (H.view seat.old)
        → ReachesAllHeld (H.view seat.new)) }
    ensures runs { OnOk result ((H.view seat.new ≡ H.view seat.old)
        ⊎ Runs (H.view seat.old) (H.view seat.new)) }
    ensures cause { IfErr result (λ e. Stops e.step (H.view seat.old) (H.view seat.new)) }

    // At every exit.
    ensures others { (shard : ℕ) → is_flagged wanted.now shard ≡ false
        → is_flagged tables.new shard ≡ is_flagged tables.old shard }
    ensures answered { (image : Image) (rs : List (Request × Reply))
        → HasAnswered image rs (H.view seat.old) → HasAnswered image rs (H.view seat.new) }
    ensures most { (H.view seat.new).taken ≤ (H.view seat.old).taken
        + tables_missing (is_flagged wanted.now) (H.view seat.old) }
    ensures calls { IsRow (512 * flag_count wanted.now) (flag_count wanted.now)
        (flag_count wanted.now) (H.view seat.old) (H.view seat.new) }
    ensures roots { (H.view seat.new).roots ≡ (H.view seat.old).roots }
    ensures kept { H.keeps seat.old seat.new }
{
    for shard in 0..SHARDS {
        if wanted[shard as usize] {
            let has = have_table(seat, shard)?;
            tables[shard as usize] = has;
        }
    }
    Ok(())
}
