//! The worker that a parcel is for, and parcels by their workers.

ghost use Rattle.std.specs.Prelude.{◌≡◌, ◌<◌, ◌≤◌, [], ◌∷◌, ◌++◌, IfOk, OnOk, get_or, length, map, set};
ghost use Rattle.dict_model.specs.Nodes.{shard_of};
ghost use Rattle.run_model.specs.Workers.{worker_numbers, worker_of};
ghost use Rattle.seat_parcels.specs.Boxes.{parcels_for, pieces_of};

use crate::parcel::Parcel;
use dict_model::SHARDS;
use std::alloc::{AllocError, Global};
use std::collections::VecDeque;

/// The worker that a parcel goes to.
pub(crate) fn worker_for(key: u64, workers: usize) -> usize
    requires { 1 ≤ workers }
    ensures { result ≡ worker_of workers (shard_of key) }
{
    (key % SHARDS) as usize % workers
}

/// Lays a parcel behind those of one worker.
fn lay(pieces: &mut Vec<Vec<Parcel>>, to: usize, parcel: Parcel) -> Result<(), AllocError>
    requires { to < length pieces.old.items }
    ensures { OnOk result (pieces_of pieces.new.items ≡ set (pieces_of pieces.old.items) to
        (get_or (pieces_of pieces.old.items) to [] ++ parcel ∷ [])) }
{
    pieces[to].push(parcel)?;
    Ok(())
}

/// A piece for each worker, with nothing in it.
fn empty_pieces(alloc: Global, workers: usize) -> Result<Vec<Vec<Parcel>>, AllocError>
    ensures { IfOk result (λ pieces. pieces_of pieces.items
        ≡ map (λ worker. parcels_for workers worker []) (worker_numbers workers)) }
{
    let mut pieces = Vec::with_capacity(alloc, workers)?;
    for _ in 0..workers {
        pieces.push_reserved(Vec::new(alloc));
    }
    Ok(pieces)
}

/// For each worker the parcels that go to it, in the order in which they stand here.
///
/// `Err` where memory is short: then the parcels are lost.
pub fn sort_out(
    alloc: Global,
    parcels: Vec<Parcel>,
    workers: usize,
) -> Result<Vec<Vec<Parcel>>, AllocError>
    requires { 1 ≤ workers }
    ensures { IfOk result (λ pieces. pieces_of pieces.items
        ≡ map (λ worker. parcels_for workers worker parcels.items) (worker_numbers workers)) }
{
    let mut pieces = empty_pieces(alloc, workers)?;
    let mut left = VecDeque::from_vec(parcels);
    while let Some(parcel) = left.pop_front() {
        let to = worker_for(parcel.key, workers);
        lay(&mut pieces, to, parcel)?;
    }
    Ok(pieces)
}
