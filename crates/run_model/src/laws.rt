//! What follows from the definitions, as functions with nothing to run: a caller cites their
//! clauses.

ghost use Rattle.std.specs.Prelude.{◌≡◌, ℕ, ◌+◌, ◌≤◌, false, List, ◌∷◌, ◌++◌, length};
ghost use Rattle.heap_model.specs.Image.{Image};
ghost use Rattle.heap_model.specs.Header.{capacity_of, used_of};
ghost use Rattle.dict_model.specs.Requests.{Request, Reply, put, move, full, after, AreReplies};
ghost use Rattle.dict_model.specs.Shards.{Map};
ghost use Rattle.run_model.specs.Needs.{superblocks_needed};
ghost use Rattle.run_model.specs.Arrivals.{IsWholeMap, arrivals};
ghost use Rattle.run_model.specs.OneMap.{NoneIsFull, IsAsOneThread};
ghost use Rattle.run_model.specs.Opened.{HasMaps};
ghost use Rattle.run_model.specs.Runs.{answered, AnswersInOrder, AnswerInOrder, StopsRightly, IsFullRightly, RepliesRightly, LeavesMaps};
ghost use Rattle.run_model.specs.Workers.{Replies};

/// An image each of whose shards is a map is one map of all keys, and only one.
pub fn a_dictionary_is_one_map()
    ensures some { (image : Image) → HasMaps image → (whole : Map) × IsWholeMap image whole }
    ensures one { (image : Image) (a b : Map) → IsWholeMap image a → IsWholeMap image b
        → (key : ℕ) → a key ≡ b key }
{}

/// A run that isn't stopped, and refuses no request for want of room, is that of one thread,
/// however many workers it has. However a run ends, its replies are right for the whole map, asked
/// by the answered requests in the order of the trace; and where it isn't stopped, the whole map
/// after these, and after what arrives by them, is left.
pub fn a_run_without_a_refusal_is_that_of_one_thread()
    ensures thread { (image left : Image) (workers budget : ℕ) (requests : List Request)
        (replies : Replies) → HasMaps image → AnswerInOrder workers requests replies
        → StopsRightly image workers requests budget replies false
        → RepliesRightly image requests replies
        → LeavesMaps image workers requests replies false left
        → NoneIsFull replies → IsAsOneThread image requests replies left }
    ensures right { (image : Image) (requests : List Request) (replies : Replies) (whole : Map)
        → HasMaps image → IsWholeMap image whole → RepliesRightly image requests replies
        → AreReplies whole (answered requests replies) }
    ensures left { (image left : Image) (workers : ℕ) (requests : List Request)
        (replies : Replies) (whole : Map) → HasMaps image → IsWholeMap image whole
        → LeavesMaps image workers requests replies false left
        → IsWholeMap left (after whole (answered requests replies
        ++ arrivals whole (answered requests replies))) }
{}

/// Of two runs of a trace over one image that are each that of one thread, the replies are the
/// same, and so is the whole map that is left.
pub fn runs_as_one_thread_are_alike()
    ensures replies { (image left other : Image) (requests : List Request) (a b : Replies)
        → IsAsOneThread image requests a left → IsAsOneThread image requests b other → b ≡ a }
    ensures left { (image left other : Image) (requests : List Request) (a b : Replies)
        → IsAsOneThread image requests a left → IsAsOneThread image requests b other
        → (whole : Map) → IsWholeMap left whole → IsWholeMap other whole }
{}

/// Each of a worker's requests has a reply or stands as unanswered; and where as many superblocks
/// are left as the trace needs, no put and no move of it is told that there is no room.
pub fn replies_fit_the_trace()
    ensures each { (requests : List Request) (replies : Replies) → AnswersInOrder requests replies
        → length replies ≡ length requests }
    ensures room { (image : Image) (workers : ℕ) (requests : List Request) (replies : Replies)
        → 1 ≤ workers → IsFullRightly image workers requests replies
        → used_of image + superblocks_needed requests ≤ capacity_of image
        → (before later : List (Request × Reply)) (key : ℕ) (value : List ℕ)
        → answered requests replies ≡ before ++ (put key value, full) ∷ later → ⊥ }
    ensures move_room { (image : Image) (workers : ℕ) (requests : List Request) (replies : Replies)
        → 1 ≤ workers → IsFullRightly image workers requests replies
        → used_of image + superblocks_needed requests ≤ capacity_of image
        → (before later : List (Request × Reply)) (key to : ℕ)
        → answered requests replies ≡ before ++ (move key to, full) ∷ later → ⊥ }
{}

/// So there no reply at all is that there is no room: of right replies only a put's or a move's may
/// be.
pub fn enough_room_refuses_nothing()
    ensures { (image : Image) (workers : ℕ) (requests : List Request) (replies : Replies)
        → 1 ≤ workers → HasMaps image → AnswerInOrder workers requests replies
        → RepliesRightly image requests replies → IsFullRightly image workers requests replies
        → used_of image + superblocks_needed requests ≤ capacity_of image → NoneIsFull replies }
{}
