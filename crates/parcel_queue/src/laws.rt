//! What follows for what was put and taken, as functions with nothing to run: a caller cites their
//! clauses.

ghost use Rattle.std.specs.Prelude.{◌≡◌, ◌<◌, ◌+◌, ℕ, List, [], All, Contains, get_or, length, map, set, suc, sum_by};
ghost use Rattle.std.specs.List.Sorted.{IsNonDecreasingBy, IsPermutation, IsStrictlyIncreasing};
ghost use Rattle.parcel_queue.specs.Account.{Account, PassView, QueueView, all_joined, unused, with_all_taken};
ghost use Rattle.parcel_queue.specs.Delivery.{AreDelivered, IsDelivered};
ghost use Rattle.parcel_queue.specs.Row.{ArePassesOf, ArePassesWith, IsPassOf};

/// Where the owner of a queue took in the passes of all its senders, and then took until it found
/// no parcel, it has what they put: each parcel as often, and no other.
pub fn an_owner_takes_what_its_senders_put<T>()
    ensures parts { (owner : Account T) (senders : List (PassView T))
        → (all_joined owner senders).parts
        ≡ owner.parts + sum_by (λ sender. sender.account.parts) senders }
    ensures delivered { (parts : ℕ) (senders : List (PassView T)) (taken : List T)
        → All (λ sender. sender.account.taken ≡ []) senders
        → IsDelivered (with_all_taken (all_joined (unused parts) senders) taken)
        → AreDelivered (map (λ sender. sender.account.put) senders) taken }
{}

/// Of what is delivered nothing is lost, nothing comes from nowhere, and nothing comes more or less
/// often than it was put.
pub fn a_delivery_loses_and_repeats_nothing<T>()
    ensures lost { (sent : List (List T)) (taken parcels : List T) (parcel : T)
        → AreDelivered sent taken → Contains sent parcels → Contains parcels parcel
        → Contains taken parcel }
    ensures made { (sent : List (List T)) (taken : List T) (parcel : T)
        → AreDelivered sent taken → Contains taken parcel
        → (parcels : List T) × Contains sent parcels × Contains parcels parcel }
    ensures count { (sent : List (List T)) (taken : List T) → AreDelivered sent taken
        → length taken ≡ sum_by length sent }
    ensures weights { (weigh : T → ℕ) (sent : List (List T)) (taken : List T)
        → AreDelivered sent taken
        → sum_by weigh taken ≡ sum_by (λ parcels. sum_by weigh parcels) sent }
{}

/// Parcels that came in any order, and are sorted by numbers that differ, are the list of what was
/// sent in the order of these numbers.
pub fn parcels_sorted_by_number_are_those_sent<T>()
    ensures { (number : T → ℕ) (sent taken : List T) → IsPermutation sent taken
        → IsStrictlyIncreasing (map number sent) → IsNonDecreasingBy number taken
        → taken ≡ sent }
{}

/// In a row of passes each is one to the queue in its place, and a row stays one where a pass
/// changes. Who has more than some parts has more than fewer.
pub fn each_pass_of_a_row_is_to_its_queue<T>()
    ensures count { (queues : List QueueView) (passes : List (PassView T))
        → ArePassesOf queues passes → length passes ≡ length queues }
    ensures each { (queues : List QueueView) (passes : List (PassView T)) (at : ℕ)
        (queue : QueueView) (pass : PassView T) → ArePassesOf queues passes → at < length queues
        → queue ≡ get_or queues at queue → pass ≡ get_or passes at pass → IsPassOf queue pass }
    ensures kept { (queues : List QueueView) (passes : List (PassView T)) (at : ℕ)
        (queue : QueueView) (pass : PassView T) → ArePassesOf queues passes → at < length queues
        → IsPassOf (get_or queues at queue) pass → ArePassesOf queues (set passes at pass) }
    ensures fewer { (parts : ℕ) (queues : List QueueView) (passes : List (PassView T))
        → ArePassesWith (suc parts) queues passes → ArePassesWith parts queues passes }
{}
