//! What C keeps of an open dictionary between calls.
ghost use Rattle.std.specs.Prelude.{◌≡◌, Option, None, Some, IsSome};
ghost use Rattle.c_dictionary.specs.declared.store.Store.{Store};
ghost use Rattle.c_dictionary.specs.Ready.{IsHeldAt, IsStateOf};

use crate::loose::Loose;
use crate::store::Store;
use std::alloc::Global;
use std::marker::Model;

/// The state of a handle with no dictionary. C begins with zeros.
pub const CLOSED: u64 = 0;

/// The state of one whose dictionary takes requests.
pub const GOING: u64 = 1;

/// The state of one whose dictionary has stopped, or may have.
pub const HALTED: u64 = 2;

/// An open dictionary, or none. C keeps it where it likes, begins with zeros, and neither reads nor
/// changes what stands in it.
#[repr(C)]
#[derive(Drop)]
pub struct Handle {
    at: *mut u8,
    state: u64,
    ghost value: { Option Store },
}

impl Model for Handle {
    ghost use Rattle.c_dictionary.specs.Owning.{owned};

    ghost also_owns = { λ h. owned h.state h.at h.value };
}

// What it owns names no thread, and a dictionary may go to another.
unsafe impl Send for Handle {}

impl Handle {
    /// Its state, which tells whether it has a dictionary and whether that takes requests.
    pub fn state(&mut self) -> u64
        ensures { IsStateOf result self.old.value × (self.new.value ≡ self.old.value) }
    {
        self.state
    }

    /// Puts a dictionary in, in this state. What was in is forgotten.
    pub fn set(&mut self, loose: Loose<Store, Global>, state: u64)
        requires { IsHeldAt state loose.value }
        ensures { self.new.value ≡ Some loose.value }
    {
        let Loose { at, alloc: _ } = loose;
        self.at = at as *mut u8;
        self.state = state;
    }

    /// Takes the dictionary out.
    pub fn take(&mut self, alloc: Global) -> Loose<Store, Global>
        requires { IsSome self.old.value }
        ensures { (self.old.value ≡ Some result.value) × (self.new.value ≡ None) }
    {
        self.state = 0;
        Loose {
            at: self.at as *mut Store,
            alloc,
        }
    }
}

/// Takes what may go to another thread.
fn send<T: Send + Drop>(_sent: T) {}

/// That a handle may.
pub fn a_handle_may_cross(handle: Handle) {
    send(handle)
}
