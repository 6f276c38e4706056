//! A heap for one thread, opened over what a crash left.
ghost use Rattle.std.specs.Prelude.{◌≡◌, ◌*◌, ◌<◌, ◌^◌, Some, Err, length, slice_index, IfOk, OnOk, IfErr};
ghost use Rattle.heap_model.specs.declared.header.BadHeader.{BadHeader};
ghost use Rattle.heap_model.specs.Header.{header_fault};
ghost use Rattle.block_heap.specs.SeqState.{seat_of};
ghost use Rattle.dict_model.specs.Links.{kind_count};
ghost use Rattle.dict_requests.specs.Reached.{ReachesAllHeld};
ghost use Rattle.dict_requests.specs.Shards.{HasShards};
ghost use Rattle.dictionary_heap.specs.Images.{current_image, CanBeRecovered};
ghost use Rattle.dictionary_heap.specs.Opened.{GivesMapsOf, HasDoneNothing, IsOpenedFrom};
ghost use Rattle.dictionary_heap.specs.Faults.{TellsFault};

use crate::fault::OpenFault;
use crate::recovering::recover_dictionary;
use block_heap::{Chance, SeqHeap};
use std::alloc::Global;

/// Opens a heap for one thread over an image of a dictionary: recovers it, reads its maps, and
/// gives the heap a budget of so many steps, at the end of which it stops. The chance says what is
/// written back early.
///
/// Then a request to any shard may be made (`Shard` of `dict_requests`). An image is refused as by
/// `recover_dictionary`; memory may run out at any time.
pub fn open_dictionary<C: Chance>(
    alloc: Global,
    image: &[u64],
    budget: u64,
    chance: C,
) -> Result<SeqHeap<C>, OpenFault>
    requires { budget < 2 ^ 40 }

    // the heap
    ensures shards { IfOk result (λ heap. HasShards (seat_of heap)) }
    ensures maps { IfOk result (λ heap. GivesMapsOf (current_image image.now) (seat_of heap)) }
    ensures exact { IfOk result (λ heap. ReachesAllHeld (seat_of heap)) }
    ensures nothing { IfOk result (λ heap. HasDoneNothing budget (seat_of heap)) }
    ensures opened { IfOk result (IsOpenedFrom (current_image image.now) budget) }

    // when it comes, and what comes else
    ensures good { OnOk result (CanBeRecovered image.now) }
    ensures cause { IfErr result (TellsFault image.now) }
    ensures header { (cause : BadHeader)
        → header_fault (Some kind_count) (8 * length image.now) (slice_index image.now)
        ≡ Some cause
        → result ≡ Err (OpenFault.Header cause) }
{
    let found = recover_dictionary(alloc, image)?;
    Ok(SeqHeap::new(alloc, found.heap, budget, chance)?)
}
