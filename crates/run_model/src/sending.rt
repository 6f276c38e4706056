//! What follows for values on their way, as a function with nothing to run: a caller cites its
//! clauses.

ghost use Rattle.std.specs.Prelude.{◌≡◌, ℕ, ◌-◌, ◌<◌, ◌≤◌, nat_eq, List, ◌++◌, filter, flat_map, length, map, replicate, None};
ghost use Rattle.std.specs.List.Sorted.{IsPermutation, IsStrictlyIncreasing};
ghost use Rattle.dict_model.specs.Nodes.{shard_of};
ghost use Rattle.dict_model.specs.Requests.{Request};
ghost use Rattle.dict_model.specs.Shards.{Map};
ghost use Rattle.run_model.specs.Arrivals.{arrivals, worker_arrivals};
ghost use Rattle.run_model.specs.Runs.{answered};
ghost use Rattle.run_model.specs.Sending.{puts_of, numbered, worker_numbered, all_sent, coming};
ghost use Rattle.run_model.specs.Workers.{Replies, worker_of, worker_requests, worker_replies, worker_numbers};

/// What the workers of a run send, put together, is what the trace sends, and that is what arrives:
/// at each worker in the order of the requests' numbers, which all differ.
pub fn what_workers_send_is_what_arrives()
    ensures arrives { (whole : Map) (requests : List Request) (replies : Replies)
        → puts_of (all_sent whole (numbered 0 requests) replies)
        ≡ arrivals whole (answered requests replies) }
    ensures comes { (workers worker : ℕ) (whole : Map) (requests : List Request)
        (replies : Replies) → puts_of (coming workers worker whole requests replies)
        ≡ worker_arrivals workers worker whole (answered requests replies) }
    ensures ordered { (workers worker : ℕ) (whole : Map) (requests : List Request)
        (replies : Replies)
        → IsStrictlyIncreasing (map (λ s. s.number) (coming workers worker whole requests replies)) }

    // Where each worker's replies are those that it told, and none behind them.
    ensures together { (workers : ℕ) (whole : Map) (requests : List Request) (replies : Replies)
        (told : ℕ → Replies) → 1 ≤ workers
        → ((worker : ℕ) → worker < workers → worker_replies workers worker requests replies
        ≡ told worker ++ replicate
        (length (worker_requests workers worker requests) - length (told worker)) None)
        → IsPermutation (flat_map (λ worker. all_sent whole
        (worker_numbered workers worker requests) (told worker)) (worker_numbers workers))
        (all_sent whole (numbered 0 requests) replies) }
    ensures to_one { (workers worker : ℕ) (whole : Map) (requests : List Request)
        (replies : Replies) (told : ℕ → Replies) → 1 ≤ workers
        → ((from : ℕ) → from < workers → worker_replies workers from requests replies
        ≡ told from ++ replicate
        (length (worker_requests workers from requests) - length (told from)) None)
        → IsPermutation (flat_map (λ from. filter
        (λ s. nat_eq (worker_of workers (shard_of s.key)) worker) (all_sent whole
        (worker_numbered workers from requests) (told from))) (worker_numbers workers))
        (coming workers worker whole requests replies) }
{}
