//! A store of images in memory, for tests.
ghost use Rattle.std.specs.Prelude.{◌≡◌, ◌≢◌, ℕ, List, OnOk, OnErr, option_copied};
ghost use Rattle.tool_ports.specs.Calls.{no_calls};
ghost use Rattle.tool_ports.specs.Images.{images_in};

use crate::failing_calls::FailingCalls;
use crate::fault_count::FaultCount;
use crate::image_store::{GetFault, ImageStore, PutImageFault};
use crate::store_calls::StoreCalls;
use std::alloc::{AllocError, Global};
use std::collections::BTreeMap;

/// What a `put` that is to fail leaves under its name: a store may do either.
#[derive(Clone, Copy, Debug, PartialEq, Eq)]
pub enum FailedPut {
    /// What was there before.
    LeavesOld,
    /// What was to be put.
    LeavesNew,
}

/// Images in memory, which tell their contents. Chosen calls fail.
#[derive(Drop)]
pub struct MapStore {
    images: BTreeMap<String, Vec<u8>>,
    calls: StoreCalls,
    faults: FaultCount,
    failing: FailingCalls,
    failed_put: FailedPut,
}

impl MapStore {
    ghost use Rattle.tool_ports.specs.MapStore.{images_of, fault_count, calls_of, failing_numbers, next_number, failed_put_of};

    /// An empty store. `failing` has the numbers of the calls that are to fail: gets and puts are
    /// counted together, from 0.
    pub fn new(alloc: Global, failing: Vec<u64>, failed_put: FailedPut) -> Self
        ensures none { (name : List ℕ) → images_of result name ≡ None }
        ensures faults { fault_count result ≡ 0 }
        ensures calls { calls_of result ≡ no_calls }
        ensures failing { failing_numbers result ≡ failing.items }
        ensures next { next_number result ≡ 0 }
        ensures failed_put { failed_put_of result ≡ failed_put }
    {
        MapStore {
            images: BTreeMap::new(alloc),
            calls: StoreCalls::new(),
            faults: FaultCount::new(),
            failing: FailingCalls::new(failing),
            failed_put,
        }
    }

    /// The image under a name, without a call that is counted.
    pub fn image(&self, name: &str) -> Option<&[u8]>
        ensures { option_copied result ≡ images_of self.now name.now }
    {
        self.images.get(name).map(|image| image.as_slice())
    }

    /// The calls that were made.
    pub fn calls(&self) -> StoreCalls
        ensures { result ≡ calls_of self.now }
    {
        self.calls
    }
}

fn insert_image(
    images: &mut BTreeMap<String, Vec<u8>>,
    alloc: Global,
    name: &str,
    bytes: &[u8],
) -> Result<(), AllocError>
    ensures ok { OnOk result (images_in images.new name.now ≡ Some bytes.now) }
    ensures err { OnErr result ((other : List ℕ) →
        images_in images.new other ≡ images_in images.old other) }
    ensures others { (other : List ℕ) → other ≢ name.now →
        images_in images.new other ≡ images_in images.old other }
{
    let image = Vec::from_slice(alloc, bytes)?;
    images.insert(String::from_str(alloc, name)?, image)?;
    Ok(())
}

impl ImageStore for MapStore {
    ghost use Rattle.std.specs.Prelude.{◌≡◌, ◌↔◌, ◌≤◌, Some, length, IfOk, OnOk, OnErr, IsErr, IsErrOf};
    ghost use Rattle.tool_ports.specs.Calls.{with_get, with_put};
    ghost use Rattle.tool_ports.specs.Causes.{HasCause};
    ghost use Rattle.tool_ports.specs.Contents.{HoldsFirst, Lacks, Holds, HoldsOldOrNew, KeepsOthers};
    ghost use Rattle.tool_ports.specs.MapStore.{images_of, fault_count, calls_of, failed_put_of, IsToFail, IsOneCallOn};

    ghost contents = { λ s. Some (images_of s) };

    ghost faults = { fault_count };

    ghost calls = { calls_of };

    ghost faults_fit = { λ s. s.faults.fits };

    fn get(&mut self, alloc: Global, name: &str, most: usize) -> Result<Vec<u8>, GetFault>
        // as any store
        ensures ok { IfOk result
            (λ v. HoldsFirst (Some (images_of self.old)) name.now most v.items) }
        ensures short { IfOk result (λ v. length v.items ≤ most) }
        ensures none { IsErrOf result GetFault.Absent →
            Lacks (Some (images_of self.old)) name.now }
        ensures unchanged { images_of self.new ≡ images_of self.old }
        ensures cause { HasCause (fault_count self.old) (fault_count self.new)
            (IsErrOf result GetFault.Failed) }
        ensures counted { calls_of self.new ≡ with_get most (calls_of self.old) }

        // the chosen calls fail, and no other
        ensures failed { IsErrOf result GetFault.Failed ↔ IsToFail self.old }
        ensures next { IsOneCallOn self.old self.new }
    {
        self.calls.count_get(most);
        if self.failing.begin() {
            self.faults.rise();
            return Err(GetFault::Failed);
        }
        let image = self.images.get(name).ok_or(GetFault::Absent)?;
        let count = most.min(image.len());
        Ok(Vec::from_slice(alloc, &image[..count])?)
    }

    fn put(&mut self, alloc: Global, name: &str, bytes: &[u8]) -> Result<(), PutImageFault>
        // as any store
        ensures ok { OnOk result (Holds (Some (images_of self.new)) name.now bytes.now) }
        ensures err { OnErr result (HoldsOldOrNew name.now bytes.now
            (Some (images_of self.old)) (Some (images_of self.new))) }
        ensures unchanged { IsErrOf result PutImageFault.Memory →
            images_of self.new ≡ images_of self.old }
        ensures not_counted { IsErrOf result PutImageFault.Memory →
            calls_of self.new ≡ calls_of self.old }
        ensures others { KeepsOthers name.now
            (Some (images_of self.old)) (Some (images_of self.new)) }
        ensures cause { HasCause (fault_count self.old) (fault_count self.new)
            (IsErrOf result PutImageFault.Failed) }
        ensures counted { ¬ (IsErrOf result PutImageFault.Memory) →
            calls_of self.new ≡ with_put (calls_of self.old) }

        // the chosen calls fail, and no other, and leave what was chosen
        ensures failed { IsErrOf result PutImageFault.Failed → IsToFail self.old }
        ensures to_fail { IsToFail self.old → IsErr result }
        ensures told { failed_put_of self.old ≡ FailedPut.LeavesOld → IsToFail self.old
            → IsErrOf result PutImageFault.Failed }
        ensures leaves_old { IsErrOf result PutImageFault.Failed →
            failed_put_of self.old ≡ FailedPut.LeavesOld →
            images_of self.new ≡ images_of self.old }
        ensures leaves_new { IsErrOf result PutImageFault.Failed →
            failed_put_of self.old ≡ FailedPut.LeavesNew →
            Holds (Some (images_of self.new)) name.now bytes.now }
        ensures next { IsOneCallOn self.old self.new }
    {
        let fails = self.failing.begin();
        if !fails || self.failed_put == FailedPut::LeavesNew {
            insert_image(&mut self.images, alloc, name, bytes)?;
        }
        self.calls.count_put();
        if fails {
            self.faults.rise();
            return Err(PutImageFault::Failed);
        }
        Ok(())
    }
}
