//! A number that is known to be a class.
ghost use Rattle.std.specs.Prelude.{◌≡◌};
ghost use Rattle.heap_model.specs.Sizes.{IsClass};

use crate::class::class_of;

/// A size class.
#[derive(Clone, Copy, PartialEq, Eq, Debug)]
pub struct SizeClass {
    /// Its number.
    pub number: u8,
    pub ghost is: { IsClass number },
}

impl SizeClass {
    ghost use Rattle.std.specs.Prelude.{◌<◌, ◌↔◌, IsNone, IfSome};
    ghost use Rattle.heap_model.specs.Sizes.{IsLeastClassFor, largest_small};

    /// The class of this number.
    pub fn new(number: u8) -> Self
        requires { IsClass number }
        ensures { result.number ≡ number }
    {
        SizeClass { number }
    }

    /// The class that serves a request of so many bytes, or `None` where it takes superblocks of
    /// its own.
    pub fn for_bytes(bytes: u64) -> Option<SizeClass>
        ensures none { IsNone result ↔ (largest_small < bytes) }
        ensures some { IfSome result (λ class. IsLeastClassFor bytes class.number) }
    {
        match class_of(bytes) {
            Some(number) => Some(SizeClass::new(number)),
            None => None,
        }
    }
}
