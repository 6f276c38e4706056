//! What came for a worker is taken out of its queue.

ghost use Rattle.std.specs.Prelude.{◌≡◌, ◌++◌, [], All, IfOk};
ghost use Rattle.std.specs.List.Sorted.{IsNonDecreasingBy, IsPermutation};
ghost use Rattle.parcel_queue.specs.Account.{all_parts};
ghost use Rattle.seat_parcels.specs.Parcels.{IsParcelOf};

use crate::fact::HeapOf;
use crate::parcel::Parcel;
use crate::postbox::Post;
use parcel_queue::Pass;
use std::alloc::AllocError;
use std::sync::Wait;

/// All that came for a worker, in the order of the requests' numbers: what its queue has, and what
/// was kept back for it. The pass is the owner's, with all parts.
///
/// `Err` where memory is short: what was taken until then is lost.
pub fn collect<J: HeapOf, R: Wait>(
    rt: &R,
    queue: &Post<J>,
    pass: &mut Pass<Parcel>,
    kept: Vec<Parcel>,
) -> Result<Vec<Parcel>, AllocError>
    requires queue { pass.old.queue ≡ queue.now.queue }
    requires parts { pass.old.account.parts ≡ all_parts }
    requires taken { pass.old.account.taken ≡ [] }
    requires kept { All (IsParcelOf J.table) kept.items }
    ensures all { IfOk result (λ came. IsPermutation
        (pass.old.account.put ++ kept.items) came.items) }
    ensures order { IfOk result (λ came. IsNonDecreasingBy (λ p. p.number) came.items) }
    ensures each { IfOk result (λ came. All (IsParcelOf J.table) came.items) }

    // At every exit.
    ensures queue { pass.new.queue ≡ queue.now.queue }
    ensures parts { pass.new.account.parts ≡ all_parts }
    ensures put { pass.new.account.put ≡ pass.old.account.put }
{
    let mut came = kept;
    queue.take_all(rt, pass, &mut came)?;
    came.sort_by_key(|parcel| parcel.number)?;
    Ok(came)
}
