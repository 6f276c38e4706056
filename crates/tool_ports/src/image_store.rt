//! A store of heap images under names, as the tool sees it.
ghost use Rattle.std.specs.Prelude.{◌≡◌, ◌^◌, ◌<◌, ◌≤◌, ℕ, List, Option, length, IfOk, OnOk, OnErr, IsErrOf};
ghost use Rattle.tool_ports.specs.Calls.{with_get, with_put};
ghost use Rattle.tool_ports.specs.Causes.{HasCause};
ghost use Rattle.tool_ports.specs.Contents.{HoldsFirst, Lacks, Holds, HoldsOldOrNew, KeepsOthers};
ghost use Rattle.tool_ports.specs.declared.store_calls.StoreCalls.{StoreCalls};
ghost use Rattle.tool_ports.specs.declared.image_store.GetFault.TheVariants.{Memory as GetMemory};
ghost use Rattle.tool_ports.specs.declared.image_store.PutImageFault.TheVariants.{Memory as PutMemory};

use std::alloc::{AllocError, Global};

/// Why a store gave no image.
#[derive(Clone, Copy, Debug, PartialEq, Eq)]
pub enum GetFault {
    /// The store has no such name.
    Absent,
    /// The outside failed, and the store counted it.
    Failed,
    /// Memory ran out.
    Memory,
}

/// Why a store took no image.
#[derive(Clone, Copy, Debug, PartialEq, Eq)]
pub enum PutImageFault {
    /// The outside failed, and the store counted it: the name has its old or its new bytes.
    Failed,
    /// Memory ran out before anything was changed.
    Memory,
}

/// Keeps heap images, each a row of bytes under a name.
pub trait ImageStore {
    /// What it holds under each name, by the name's UTF-8 bytes, where it tells that.
    ghost contents: { Self → Option (List ℕ → Option (List ℕ)) };

    /// How many of its calls have failed by the outside; it stops at 2^64 - 1.
    ghost faults: { Self → ℕ };

    /// How often it was called, and the greatest number of bytes that a get asked for. Each count
    /// stops at 2^64 - 1.
    ghost calls: { Self → StoreCalls };

    /// The image's first `most` bytes, or all if it has fewer.
    fn get(&mut self, alloc: Global, name: &str, most: usize) -> Result<Vec<u8>, GetFault>
        ensures ok { IfOk result (λ v. HoldsFirst (contents self.old) name.now most v.items) }
        ensures short { IfOk result (λ v. length v.items ≤ most) }
        ensures none { IsErrOf result GetFault.Absent → Lacks (contents self.old) name.now }
        ensures unchanged { contents self.new ≡ contents self.old }
        ensures cause { HasCause (faults self.old) (faults self.new)
            (IsErrOf result GetFault.Failed) }
        ensures counted { calls self.new ≡ with_get most (calls self.old) };

    /// Puts these bytes under the name, in the place of what was there. A call for which memory
    /// ran out is not counted.
    fn put(&mut self, alloc: Global, name: &str, bytes: &[u8]) -> Result<(), PutImageFault>
        ensures ok { OnOk result (Holds (contents self.new) name.now bytes.now) }
        ensures err { OnErr result (HoldsOldOrNew name.now bytes.now
            (contents self.old) (contents self.new)) }
        ensures unchanged { IsErrOf result PutImageFault.Memory →
            contents self.new ≡ contents self.old }
        ensures not_counted { IsErrOf result PutImageFault.Memory →
            calls self.new ≡ calls self.old }
        ensures others { KeepsOthers name.now (contents self.old) (contents self.new) }
        ensures cause { HasCause (faults self.old) (faults self.new)
            (IsErrOf result PutImageFault.Failed) }
        ensures counted { ¬ (IsErrOf result PutImageFault.Memory) →
            calls self.new ≡ with_put (calls self.old) };

    /// The last value at which the count of faults stands is 2^64 - 1.
    ghost faults_fit: { (store : Self) → faults store < 2 ^ 64 };
}

impl From<AllocError> for GetFault {
    ghost from_gives = { λ _ e. e ≡ GetMemory };

    fn from(_: AllocError) -> Self {
        GetFault::Memory
    }
}

impl From<AllocError> for PutImageFault {
    ghost from_gives = { λ _ e. e ≡ PutMemory };

    fn from(_: AllocError) -> Self {
        PutImageFault::Memory
    }
}
