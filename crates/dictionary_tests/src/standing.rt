//! A dictionary on a heap for one thread.
ghost use Rattle.std.specs.Prelude.{◌<◌, ◌^◌};

use crate::moves::move_key;
use block_heap::{AllocFault, Chance, Closed, SeqHeap, Stopped};
use dict_model::LARGEST_VALUE;
use dict_requests::Shard;
use dictionary_heap::open_dictionary;
use std::alloc::Global;
use std::marker::Model;
use std::test::Fail;

/// A dictionary on a heap for one thread. Once it has stopped it is asked nothing more.
#[derive(Drop)]
pub struct Standing<C: Chance> {
    heap: SeqHeap<C>,
    stopped: Option<Stopped>,
}

impl<C: Chance> Model for Standing<C> {
    ghost use Rattle.std.specs.Prelude.{◌≡◌, None};
    ghost use Rattle.block_heap.specs.SeqState.{seat_of};
    ghost use Rattle.dict_requests.specs.Shards.{HasShards};

    ghost Value = { Unit {0} };

    ghost view = { λ _. tt };

    ghost invariant = { λ s. s.stopped ≡ None → HasShards (seat_of s.heap) };
}

impl<C: Chance> Standing<C> {
    /// Opens what recovery makes of the image.
    pub fn open(alloc: Global, image: &[u64], budget: u64, chance: C) -> Result<Standing<C>, Fail>
        requires { budget < 2 ^ 40 }
    {
        Ok(Standing {
            heap: open_dictionary(alloc, image, budget, chance)?,
            stopped: None,
        })
    }

    /// Sets a key. The inner answer is the request's.
    pub fn put(&mut self, key: u64, value: &[u8]) -> Result<Result<(), AllocFault>, Fail> {
        if let Some(stopped) = self.stopped {
            return Ok(Err(AllocFault::Stopped(stopped)));
        }
        if value.len() as u64 > LARGEST_VALUE {
            return Err("the value is too long".into());
        }
        match Shard::at(key % 8).put(&mut self.heap, key, value) {
            Ok(()) => Ok(Ok(())),
            Err(AllocFault::Full(looks)) => Ok(Err(AllocFault::Full(looks))),
            Err(AllocFault::Stopped(stopped)) => {
                self.stopped = Some(stopped);
                Ok(Err(AllocFault::Stopped(stopped)))
            }
        }
    }

    /// The length of the key's value, if it is there. The output begins with the value, as far as
    /// that fits.
    pub fn get(&mut self, key: u64, out: &mut [u8]) -> Result<Option<usize>, Stopped> {
        if let Some(stopped) = self.stopped {
            return Err(stopped);
        }
        let answer = Shard::at(key % 8).get(&mut self.heap, key, out);
        if let Err(stopped) = answer {
            self.stopped = Some(stopped);
        }
        answer
    }

    /// Takes a key out; the answer is whether it was there.
    pub fn del(&mut self, key: u64) -> Result<bool, Stopped> {
        if let Some(stopped) = self.stopped {
            return Err(stopped);
        }
        let answer = Shard::at(key % 8).del(&mut self.heap, key);
        if let Err(stopped) = answer {
            self.stopped = Some(stopped);
        }
        answer
    }

    /// Takes the one key out, and brings its node to the other one, whose shard has a table by then;
    /// the answer is whether the key was there.
    pub fn move_key(&mut self, from: u64, to: u64) -> Result<bool, AllocFault> {
        if let Some(stopped) = self.stopped {
            return Err(AllocFault::Stopped(stopped));
        }
        match move_key(&mut self.heap, from, to) {
            Ok(found) => Ok(found),
            Err(AllocFault::Full(looks)) => Err(AllocFault::Full(looks)),
            Err(AllocFault::Stopped(stopped)) => {
                self.stopped = Some(stopped);
                Err(AllocFault::Stopped(stopped))
            }
        }
    }

    /// Closes the heap, and gives what loads saw and what a crash would have left.
    pub fn finish(self) -> Closed {
        self.heap.finish()
    }
}
