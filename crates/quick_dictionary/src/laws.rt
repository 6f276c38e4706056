//! What follows for a dictionary that was opened by its own anchors, as functions with nothing to
//! run: a caller cites their clauses.
ghost use Rattle.std.specs.Prelude.{◌≡◌, ◌↔◌, ◌*◌, ◌<◌, ℕ, List, Some, Contains, length, slice_index};
ghost use Rattle.heap_model.specs.Reach.{IsReachedIn};
ghost use Rattle.heap_at_rest.specs.Orderly.{IsHeldByAnchors};
ghost use Rattle.heap_recover.specs.declared.answer.Recovered.{Recovered};
ghost use Rattle.heap_recover.specs.Answer.{IsMadeOf};
ghost use Rattle.heap_recover.specs.InPlace.{RecoversAlike};
ghost use Rattle.quick_recover.specs.Reopened.{IsReopenedAs};
ghost use Rattle.dict_model.specs.Links.{dict_links, kind_count, shards};
ghost use Rattle.dict_model.specs.Shards.{Map, MapOf};
ghost use Rattle.run_model.specs.Opened.{IsDictionary};
ghost use Rattle.quick_dictionary.specs.OrderlyDictionary.{IsOrderlyDictionary};

/// A dictionary whose anchors hold exactly what its roots reach is opened by these as the same
/// dictionary, and as recovery opens it: with the same roots, the same blocks reached as the same
/// kinds and with the same words, nothing outside, the same map of each shard, and exactly the
/// reached blocks held. So the heap may be read by `read_maps` and `MappedHeap`, and asked through
/// any seat that is opened over it (`an_opened_dictionary_has_its_shards` of `dictionary_heap`).
///
/// That the anchors hold what the roots reach is a premise, and only a trace of the roots tells it.
/// That is most of a recovery, so a call that looks before it opens quickly would gain nothing, and
/// there is none.
pub fn what_is_opened_quickly_is_a_dictionary()
    ensures alike { (words : List ℕ) (quick : Recovered)
        → IsOrderlyDictionary (8 * length words) (slice_index words)
        → IsReopenedAs words (IsHeldByAnchors (slice_index words)) quick
        → RecoversAlike (Some kind_count) (8 * length words) (slice_index words)
        (slice_index quick.heap.words) dict_links }
    ensures maps { (words : List ℕ) (quick : Recovered)
        → IsOrderlyDictionary (8 * length words) (slice_index words)
        → IsReopenedAs words (IsHeldByAnchors (slice_index words)) quick
        → (shard : ℕ) (map : Map) → shard < shards
        → MapOf (slice_index words) shard map ↔ MapOf (slice_index quick.heap.words) shard map }
    ensures dictionary { (words : List ℕ) (quick : Recovered)
        → IsOrderlyDictionary (8 * length words) (slice_index words)
        → IsReopenedAs words (IsHeldByAnchors (slice_index words)) quick
        → IsDictionary (slice_index quick.heap.words) (Contains quick.heap.held) }
    ensures recovered { (words : List ℕ) (quick traced : Recovered)
        → IsOrderlyDictionary (8 * length words) (slice_index words)
        → IsReopenedAs words (IsHeldByAnchors (slice_index words)) quick
        → IsMadeOf words (IsReachedIn (slice_index words) dict_links) traced
        → (quick.heap.held ≡ traced.heap.held) × (quick.free.items ≡ traced.free.items)
        × ((shard : ℕ) (map : Map) → shard < shards
        → MapOf (slice_index quick.heap.words) shard map
        ↔ MapOf (slice_index traced.heap.words) shard map) }
{}

/// An image is opened by its anchors in one way: with the same list of held blocks, the same list
/// of free superblocks, and the same value of each word.
pub fn an_image_is_opened_quickly_in_one_way()
    ensures held { (words : List ℕ) (quick other : Recovered)
        → IsReopenedAs words (IsHeldByAnchors (slice_index words)) quick
        → IsReopenedAs words (IsHeldByAnchors (slice_index words)) other
        → other.heap.held ≡ quick.heap.held }
    ensures free { (words : List ℕ) (quick other : Recovered)
        → IsReopenedAs words (IsHeldByAnchors (slice_index words)) quick
        → IsReopenedAs words (IsHeldByAnchors (slice_index words)) other
        → other.free.items ≡ quick.free.items }
    ensures words { (words : List ℕ) (quick other : Recovered)
        → IsReopenedAs words (IsHeldByAnchors (slice_index words)) quick
        → IsReopenedAs words (IsHeldByAnchors (slice_index words)) other
        → other.heap.words ≡ quick.heap.words }
{}
