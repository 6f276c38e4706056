//! Between two rows each worker is handed what the others sent it.

ghost use Rattle.std.specs.Prelude.{◌≡◌, ◌-◌, ◌++◌, ◌≤◌, ◌<◌, ℕ, [], All, IfOk, flat_map, length, map};
ghost use Rattle.std.specs.List.Sorted.{IsPermutation};
ghost use Rattle.parcel_queue.specs.Account.{all_parts};
ghost use Rattle.run_model.specs.Workers.{Replies};
ghost use Rattle.seat_parcels.specs.Boxes.{all_put, pieces_of};
ghost use Rattle.seat_parcels.specs.Parcels.{IsParcelOf};
ghost use Rattle.shard_moves.specs.Tables.{is_flagged};
ghost use Rattle.worker_run.specs.Said.{requests_of};
ghost use Rattle.run_rows.specs.Posts.{ArePassesTo};
ghost use Rattle.run_rows.specs.Rows.{AreDealtOut, IsPostedOf, IsArrivingOf, parcels_by};
ghost use Rattle.run_rows.specs.Turns.{AreInTurn};

use crate::arriving::Arriving;
use crate::sending::Posted;
use heap_rule::Shared;
use line_memory::Chance;
use parcel_queue::{Pass, absorb_each};
use seat_parcels::{HeapOf, Parcel, Post, sort_out};
use std::alloc::{AllocError, Global};
use trace_text::Request;
use worker_parts::Asked;

/// All workers without their passes, and what no queue took of what they sent.
#[derive(Drop)]
struct Collected<'a, C> {
    asked: Vec<Asked<'a, C>>,
    kept: Vec<Parcel>,
}

/// The owners take in the passes of all workers.
fn absorb_all<'a, J: HeapOf, C: Chance>(
    alloc: Global,
    queues: &[Post<J>],
    owners: &mut Vec<Pass<Parcel>>,
    all: Vec<Posted<'a, C>>,
) -> Result<Collected<'a, C>, AllocError>
    requires few { length all.items ≤ 8 }
    requires owners { ArePassesTo (all_parts - length all.items) queues.now owners.old.items }
    requires nothing { all_put owners.old.items ≡ [] }
    requires passes { All (λ one. ArePassesTo 1 queues.now one.passes.items) all.items }
    requires kept { All (λ one. All (IsParcelOf J.table) one.kept.items) all.items }
    ensures asked { IfOk result (λ c. c.asked.items ≡ map (λ one. one.asked) all.entry.items) }
    ensures owners { IfOk result (λ c. ArePassesTo all_parts queues.now owners.new.items) }
    ensures kept { IfOk result (λ c. All (IsParcelOf J.table) c.kept.items) }
    ensures parcels { IfOk result (λ c. IsPermutation (flat_map (λ one. parcels_by one) all.entry.items)
        (all_put owners.new.items ++ c.kept.items)) }
{
    let mut kept = Vec::new(alloc);
    let mut asked = Vec::with_capacity(alloc, all.len())?;
    for one in all {
        absorb_each(queues, owners, one.passes);
        let mut more = one.kept;
        kept.append(&mut more)?;
        asked.push_reserved(one.asked);
    }
    Ok(Collected { asked, kept })
}

/// Each worker gets its own queue's pass and its piece of what was kept.
fn deal_out<'a, C: Chance>(
    alloc: Global,
    mut owners: Vec<Pass<Parcel>>,
    mut pieces: Vec<Vec<Parcel>>,
    all: Vec<Asked<'a, C>>,
) -> Result<Vec<Arriving<'a, C>>, AllocError>
    requires owners { length owners.items ≡ length all.items }
    requires pieces { length pieces.items ≡ length all.items }
    ensures dealt { IfOk result (λ arriving. AreDealtOut owners.items (pieces_of pieces.items)
        all.entry.items arriving.items) }
{
    let mut arriving = Vec::with_capacity(alloc, all.len())?;
    for asked in all {
        let (Some(pass), Some(kept)) = (owners.pop(), pieces.pop()) else {
            unreachable!();
        };
        arriving.push_reserved(Arriving { asked, pass, kept });
    }
    Ok(arriving)
}

/// The owners take in the passes of all workers, and each worker gets its own queue's and what no
/// queue took of what is for it.
pub(crate) fn hand_over<'a, J: HeapOf, C: Chance>(
    alloc: Global,
    _shared: &Shared,
    queues: &[Post<J>],
    mut owners: Vec<Pass<Parcel>>,
    all: Vec<Posted<'a, C>>,
    _requests: &[Request],
    _tables: &[bool; 8],
) -> Result<Vec<Arriving<'a, C>>, AllocError>
    requires heap { J.table ≡ _shared.now.table }
    requires each { length queues.now ≡ length all.items }
    requires few { length all.items ≤ 8 }
    requires some { 1 ≤ length all.items }
    requires owners { ArePassesTo (all_parts - length all.items) queues.now owners.items }
    requires nothing { all_put owners.items ≡ [] }
    requires answered { All (IsPostedOf _shared.now (requests_of _requests.now)
        (is_flagged _tables.now) queues.now) all.items }
    requires turns { AreInTurn (λ one. one.asked.worker) (length all.items) all.items }
    ensures arriving { IfOk result (λ arriving. (told : ℕ → Replies) × All (IsArrivingOf _shared.now
        (requests_of _requests.now) (is_flagged _tables.now) queues.now told) arriving.items) }
    ensures turns { IfOk result (λ arriving. AreInTurn (λ one. one.asked.worker)
        (length all.entry.items) arriving.items) }
    ensures count { IfOk result (λ arriving. length arriving.items ≡ length all.entry.items) }
{
    let Collected { asked, kept } = absorb_all(alloc, queues, &mut owners, all)?;
    let pieces = sort_out(alloc, kept, queues.len())?;
    deal_out(alloc, owners, pieces, asked)
}
