//! What follows for passes with which each parcel was put for its worker, and for parcels by their
//! workers.

ghost use Rattle.std.specs.Prelude.{◌≡◌, ◌+◌, ◌++◌, ◌<◌, ◌≤◌, ℕ, List, [], filter, flat_map, get_or, length, map, nat_eq};
ghost use Rattle.std.specs.List.Sorted.{IsPermutation};
ghost use Rattle.dict_model.specs.Nodes.{shard_of};
ghost use Rattle.parcel_queue.specs.Account.{PassView};
ghost use Rattle.parcel_queue.specs.Row.{each_joined, giving_a_part, with_a_part};
ghost use Rattle.run_model.specs.Workers.{worker_numbers, worker_of};
ghost use Rattle.seat_parcels.specs.Boxes.{ArePutRightly, HaveParts, all_put, parcels_for};
ghost use Rattle.seat_parcels.specs.Parcels.{all_sent_of};
ghost use Rattle.seat_parcels.specs.declared.parcel.Parcel.{Parcel};

/// Passes that were just made have put nothing, so a box may be made of them. Joined to the owners'
/// passes, those of boxes leave each parcel with its worker's: there is what was put for this worker,
/// and nothing else.
pub fn each_parcel_goes_to_its_worker()
    ensures none { (owners : List (PassView Parcel)) → all_put (map with_a_part owners) ≡ [] }
    ensures new { (workers from : ℕ) (owners : List (PassView Parcel))
        → ArePutRightly workers from (map with_a_part owners) }
    ensures given { (workers from : ℕ) (owners : List (PassView Parcel))
        → ArePutRightly workers from owners
        → ArePutRightly workers from (map giving_a_part owners) }
    ensures joined { (workers from : ℕ) (owners others : List (PassView Parcel))
        → ArePutRightly workers from owners → ArePutRightly workers from others
        → ArePutRightly workers from (each_joined owners others) }
    ensures new_parts { (owners : List (PassView Parcel)) → HaveParts 1 (map with_a_part owners) }
    ensures given_parts { (parts : ℕ) (owners : List (PassView Parcel))
        → HaveParts (parts + 1) owners → HaveParts parts (map giving_a_part owners) }
    ensures joined_parts { (m n : ℕ) (owners others : List (PassView Parcel))
        → length others ≡ length owners → HaveParts m owners → HaveParts n others
        → HaveParts (m + n) (each_joined owners others) }
    ensures each { (workers from to : ℕ) (passes : List (PassView Parcel)) (pass : PassView Parcel)
        → ArePutRightly workers from passes → to < length passes → pass ≡ get_or passes to pass
        → parcels_for workers (from + to) (all_put passes) ≡ pass.account.put }
    ensures all { (owners others : List (PassView Parcel)) → length others ≤ length owners
        → IsPermutation (all_put owners ++ all_put others) (all_put (each_joined owners others)) }
{}

/// Each parcel is for one of the workers. What is for a worker has the values that were sent to its
/// shards.
pub fn each_parcel_is_for_one_worker()
    ensures all { (workers : ℕ) (parcels : List Parcel) → 1 ≤ workers
        → IsPermutation parcels (flat_map (λ worker. parcels_for workers worker parcels)
        (worker_numbers workers)) }
    ensures sent { (workers worker : ℕ) (parcels : List Parcel)
        → all_sent_of (parcels_for workers worker parcels)
        ≡ filter (λ s. nat_eq (worker_of workers (shard_of s.key)) worker) (all_sent_of parcels) }
{}
