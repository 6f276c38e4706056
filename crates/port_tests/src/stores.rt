//! What is asked of a store of images, in memory or in files. A clause says what each call is
//! counted as.
ghost use Rattle.std.specs.Prelude.{◌≡◌};
ghost use Rattle.tool_ports.specs.Calls.{with_get, with_put};
ghost use Rattle.tool_ports.specs.Causes.{Rose};

use crate::asserts::{must_be, must_hold};
use std::process::Abort;
use tool_ports::{GetFault, ImageStore, PutImageFault};

/// Puts an image.
pub fn must_put<I: ImageStore>(
    rt: &(impl Abort + AllocGlobal),
    store: &mut I,
    name: &str,
    bytes: &[u8],
)
    ensures faults { I.faults store.new ≡ I.faults store.old }
    ensures calls { I.calls store.new ≡ with_put (I.calls store.old) }
{
    let answer = store.put(rt.alloc(), name, bytes);
    must_hold(rt, answer.is_ok(), name);
}

/// Fails to put an image.
pub fn must_refuse<I: ImageStore>(
    rt: &(impl Abort + AllocGlobal),
    store: &mut I,
    name: &str,
    bytes: &[u8],
)
    ensures faults { Rose (I.faults store.old) (I.faults store.new) }
    ensures calls { I.calls store.new ≡ with_put (I.calls store.old) }
{
    let answer = store.put(rt.alloc(), name, bytes);
    must_hold(rt, answer == Err(PutImageFault::Failed), name);
}

/// Gets these bytes, the first `most` of an image or all.
pub fn must_get<I: ImageStore>(
    rt: &(impl Abort + AllocGlobal),
    store: &mut I,
    name: &str,
    most: usize,
    bytes: &[u8],
)
    ensures faults { I.faults store.new ≡ I.faults store.old }
    ensures calls { I.calls store.new ≡ with_get most (I.calls store.old) }
{
    let image = store.get(rt.alloc(), name, most).ok();
    must_be(rt, image, bytes, name);
}

/// Finds no such image.
pub fn must_miss<I: ImageStore>(
    rt: &(impl Abort + AllocGlobal),
    store: &mut I,
    name: &str,
    most: usize,
)
    ensures faults { I.faults store.new ≡ I.faults store.old }
    ensures calls { I.calls store.new ≡ with_get most (I.calls store.old) }
{
    let answer = store.get(rt.alloc(), name, most).err();
    must_hold(rt, answer == Some(GetFault::Absent), name);
}

/// Fails to get an image.
pub fn must_fail<I: ImageStore>(
    rt: &(impl Abort + AllocGlobal),
    store: &mut I,
    name: &str,
    most: usize,
)
    ensures faults { Rose (I.faults store.old) (I.faults store.new) }
    ensures calls { I.calls store.new ≡ with_get most (I.calls store.old) }
{
    let answer = store.get(rt.alloc(), name, most).err();
    must_hold(rt, answer == Some(GetFault::Failed), name);
}
