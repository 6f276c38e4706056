//! The list heads that the exchanges of a stack leave: the stack of Treiber, with a head that
//! counts its pops, so that an exchange with a head from before a pop fails.

ghost use Rattle.std.specs.Prelude.{◌≡◌, ◌+◌, ◌-◌, ◌<◌, ◌^◌};
ghost use Rattle.heap_model.specs.Words.{head_of, head_first, head_pops};
ghost use Rattle.core_model.specs.View.{View};
ghost use Rattle.core_model.specs.Effects.{seen, seen_word, popped_head, pushed_head};

use super_block::ListHead;

/// The head after a pop of its first descriptor, whose link was read: one pop more. A run draws
/// fewer tickets than a head can count pops.
pub fn head_after_pop(head: u64, link: u64) -> u64
    requires { head_pops head < 2 ^ 40 - 1 }
    ensures word { result ≡ head_of (head_first link) (head_pops head + 1) }

    // what a pop leaves of the head that its seat saw
    ensures left { (v : View) → seen_word v.seen_head ≡ head → seen v.seen_link ≡ link
        → result ≡ popped_head v }
{
    ListHead::unpack(head).popped(link).pack()
}

/// The head after a push of descriptor `d`: the pops stay.
pub fn head_after_push(head: u64, d: u64) -> u64
    requires { d < 2 ^ 24 - 1 }
    ensures word { result ≡ head_of (d + 1) (head_pops head) }

    // what a push leaves of the head that its seat saw
    ensures left { (v : View) → seen_word v.seen_head ≡ head → result ≡ pushed_head v d }
{
    ListHead::unpack(head).pushed(d).pack()
}

/// The first descriptor's number plus 1, or 0 of an empty list.
pub fn head_first(head: u64) -> u64
    ensures { result ≡ head_first head }
{
    ListHead::unpack(head).link().pack()
}
