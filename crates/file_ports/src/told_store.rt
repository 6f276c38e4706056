//! A store that tells how long an image took to be read and to be put, and what lies between.
ghost use Rattle.std.specs.Prelude.{◌≡◌, ◌≤◌, false, length, IfOk, OnOk, OnErr, IsErrOf};
ghost use Rattle.tool_ports.specs.Calls.{with_get, with_put};
ghost use Rattle.tool_ports.specs.Causes.{HasCause};
ghost use Rattle.tool_ports.specs.Contents.{HoldsFirst, Lacks, Holds, HoldsOldOrNew, KeepsOthers};

use crate::progress::{Progress, Step};
use std::alloc::Global;
use std::io::Write;
use std::time::Clock;
use tool_ports::{GetFault, ImageStore, PutImageFault};

/// A store whose calls are those of another one. What is told of them changes nothing.
#[derive(Drop)]
pub struct ToldStore<'a, I: ImageStore, C: Clock, W: Write> {
    store: I,
    progress: Progress<'a, C, W>,
}

impl<'a, I: ImageStore, C: Clock, W: Write> ToldStore<'a, I, C, W> {
    pub fn new(store: I, progress: Progress<'a, C, W>) -> Self
        ensures store { result.store ≡ store }
        ensures progress { result.progress ≡ progress.entry }
    {
        ToldStore { store, progress }
    }

    /// The store whose calls they are.
    pub fn store(&self) -> &I
        ensures { result.now ≡ self.now.store }
    {
        &self.store
    }
}

impl<'a, I: ImageStore, C: Clock, W: Write> ImageStore for ToldStore<'a, I, C, W> {
    ghost contents = { λ s. I.contents s.store };

    ghost faults = { λ s. I.faults s.store };

    ghost calls = { λ s. I.calls s.store };

    ghost faults_fit = { λ s. I.faults_fit s.store };

    fn get(&mut self, alloc: Global, name: &str, most: usize) -> Result<Vec<u8>, GetFault>
        // as the store
        ensures ok { IfOk result (λ v.
            HoldsFirst (I.contents self.old.store) name.now most v.items) }
        ensures short { IfOk result (λ v. length v.items ≤ most) }
        ensures none { IsErrOf result GetFault.Absent →
            Lacks (I.contents self.old.store) name.now }
        ensures unchanged { I.contents self.new.store ≡ I.contents self.old.store }
        ensures cause { HasCause (I.faults self.old.store) (I.faults self.new.store)
            (IsErrOf result GetFault.Failed) }
        ensures counted { I.calls self.new.store ≡ with_get most (I.calls self.old.store) }

        // where nothing is to be told, nothing is written
        ensures quiet { self.old.progress.tells ≡ false → self.new.progress ≡ self.old.progress }
    {
        let answer = self.store.get(alloc, name, most);
        match answer {
            Ok(_) => self.progress.end(Step::Read(name)),
            Err(_) => self.progress.pass(),
        }
        answer
    }

    fn put(&mut self, alloc: Global, name: &str, bytes: &[u8]) -> Result<(), PutImageFault>
        // as the store
        ensures ok { OnOk result (Holds (I.contents self.new.store) name.now bytes.now) }
        ensures err { OnErr result (HoldsOldOrNew name.now bytes.now
            (I.contents self.old.store) (I.contents self.new.store)) }
        ensures unchanged { IsErrOf result PutImageFault.Memory →
            I.contents self.new.store ≡ I.contents self.old.store }
        ensures not_counted { IsErrOf result PutImageFault.Memory →
            I.calls self.new.store ≡ I.calls self.old.store }
        ensures others { KeepsOthers name.now
            (I.contents self.old.store) (I.contents self.new.store) }
        ensures cause { HasCause (I.faults self.old.store) (I.faults self.new.store)
            (IsErrOf result PutImageFault.Failed) }
        ensures counted { ¬ (IsErrOf result PutImageFault.Memory) →
            I.calls self.new.store ≡ with_put (I.calls self.old.store) }

        // where nothing is to be told, nothing is written
        ensures quiet { self.old.progress.tells ≡ false → self.new.progress ≡ self.old.progress }
    {
        self.progress.end(Step::Worked);
        let answer = self.store.put(alloc, name, bytes);
        match answer {
            Ok(()) => self.progress.end(Step::Wrote(name)),
            Err(_) => self.progress.pass(),
        }
        answer
    }
}
