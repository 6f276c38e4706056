//! What is so of each state that a run's heap comes to, of each request that was answered, and of
//! each that found no room.

ghost use Rattle.std.specs.Prelude.{◌≡◌, ◌<◌, ℕ, List, Bool, Contains};
ghost use Rattle.heap_model.specs.declared.block.Block.{Block};
ghost use Rattle.core_model.specs.Held.{AreHeldOnce};
ghost use Rattle.core_model.specs.View.{View};
ghost use Rattle.dict_model.specs.Requests.{Request, Reply, put, full};
ghost use Rattle.heap_table.specs.Reached.{IsReached};
ghost use Rattle.heap_table.specs.Rule.{setup_for, state_of};
ghost use Rattle.run_model.specs.Runs.{answered};
ghost use Rattle.run_model.specs.Sending.{puts_of};
ghost use Rattle.run_model.specs.Workers.{Replies, worker_requests};
ghost use Rattle.run_outcome.specs.Held.{WasTakenIn, WasTurnedDownIn};
ghost use Rattle.run_outcome.specs.Together.{HaveWorked, opening_for};

/// In each state that the heap of a run comes to, from its opening to its close, each block is held
/// once: by one seat, or by one carrier and no seat.
pub fn what_the_workers_held()
    ensures { (words : List ℕ) (held : List Block) (workers budget : ℕ)
        (requests : List Request) (replies : Replies) (stopped : Bool) (now kept left : List ℕ)
        → (h : HaveWorked words held workers budget requests replies stopped now kept left)
        → (state : List ℕ) (views : List View)
        → IsReached (setup_for (opening_for words held h.owners workers budget))
        (state_of (opening_for words held h.owners workers budget)) state views
        → AreHeldOnce (setup_for (opening_for words held h.owners workers budget)).capacity views }
{}

/// Each answered request was worked off between two of the states that its worker's seat went
/// through: its tickets are below the budget, and its calls are few. So was each value that was
/// brought in, as a put that is done.
pub fn an_answered_request_was_worked_off()
    ensures asked { (words : List ℕ) (held : List Block) (workers budget : ℕ)
        (requests : List Request) (replies : Replies) (stopped : Bool) (now kept left : List ℕ)
        → (h : HaveWorked words held workers budget requests replies stopped now kept left)
        → (worker : ℕ) (request : Request) (reply : Reply) → worker < workers
        → Contains (answered (worker_requests workers worker requests) (h.told worker))
        (request, reply)
        → WasTakenIn request reply (h.first worker) (h.last worker) }
    ensures brought { (words : List ℕ) (held : List Block) (workers budget : ℕ)
        (requests : List Request) (replies : Replies) (stopped : Bool) (now kept left : List ℕ)
        → (h : HaveWorked words held workers budget requests replies stopped now kept left)
        → (worker : ℕ) (request : Request) (reply : Reply) → worker < workers
        → Contains (puts_of (h.brought worker)) (request, reply)
        → WasTakenIn request reply (h.first worker) (h.last worker) }
{}

/// A put is answered that there is no room only where its worker's seat turned down a request for a
/// block, between two of the states that it went through.
pub fn a_refused_put_was_turned_down()
    ensures { (words : List ℕ) (held : List Block) (workers budget : ℕ)
        (requests : List Request) (replies : Replies) (stopped : Bool) (now kept left : List ℕ)
        → (h : HaveWorked words held workers budget requests replies stopped now kept left)
        → (worker key : ℕ) (value : List ℕ) → worker < workers
        → Contains (answered (worker_requests workers worker requests) (h.told worker))
        (put key value, full)
        → WasTurnedDownIn (put key value) (h.first worker) (h.last worker) }
{}
