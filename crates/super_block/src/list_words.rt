//! The words that make a list of descriptors. A link says which descriptor comes next, by its index
//! plus 1, or 0; a head says so of the first one, and counts the pops:
//!
//! ```text
//! 63                24 23                                  0
//! | how often popped  | first descriptor's index + 1, or 0 |
//! ```

ghost use Rattle.std.specs.Prelude.{◌≡◌, ◌+◌, ◌<◌, ◌^◌, Some};
ghost use Rattle.heap_model.specs.Words.{head_of, head_first, head_pops};
ghost use Rattle.super_block.specs.Links.{link_of};

/// Where the count of pops begins.
const POPS_SHIFT: u32 = 24;

/// The link of a descriptor in a list: the descriptor that comes next, if one does.
#[derive(Clone, Copy, Debug, PartialEq, Eq)]
pub struct ListLink {
    /// The index of the next descriptor.
    pub next: Option<u64>,
}

/// The head of a list: its first descriptor, if it has one, and how often the list was popped.
#[derive(Clone, Copy, Debug, PartialEq, Eq)]
pub struct ListHead {
    /// The index of the first descriptor.
    pub first: Option<u64>,
    /// How often the list was popped.
    pub pops: u64,
}

impl ListLink {
    /// What the word says.
    pub fn unpack(word: u64) -> ListLink
        ensures { link_of result.next ≡ word }
    {
        let next = if word == 0 { None } else { Some(word - 1) };
        ListLink { next }
    }

    /// The word of a link.
    pub fn pack(self) -> u64
        requires { link_of self.next < 2 ^ 64 }
        ensures { result ≡ link_of self.next }
    {
        match self.next {
            Some(d) => d + 1,
            None => 0,
        }
    }
}

impl ListHead {
    /// What the word says.
    pub fn unpack(word: u64) -> ListHead
        ensures first { link_of result.first ≡ head_first word }
        ensures pops { result.pops ≡ head_pops word }

        // `pack` undoes it.
        ensures packed { head_of (link_of result.first) result.pops ≡ word }
        ensures small { link_of result.first < 2 ^ 24 }
        ensures few { result.pops < 2 ^ 40 }
    {
        ListHead {
            first: ListLink::unpack(word % (1 << POPS_SHIFT)).next,
            pops: word >> POPS_SHIFT,
        }
    }

    /// The word of a head.
    pub fn pack(self) -> u64
        requires first { link_of self.first < 2 ^ 24 }
        requires pops { self.pops < 2 ^ 40 }
        ensures { result ≡ head_of (link_of self.first) self.pops }
    {
        self.link().pack() + (self.pops << POPS_SHIFT)
    }

    /// A link to the first descriptor.
    pub fn link(self) -> ListLink
        ensures { link_of result.next ≡ link_of self.first }
    {
        ListLink { next: self.first }
    }

    /// The head once its first descriptor, which has this word for a link, is popped. Of the word
    /// the low 24 bits count, as of a head: no list is so long that a link has more.
    pub fn popped(self, link: u64) -> ListHead
        requires { self.pops + 1 < 2 ^ 40 }
        ensures first { link_of result.first ≡ head_first link }
        ensures pops { result.pops ≡ self.pops + 1 }
    {
        ListHead {
            first: ListHead::unpack(link).first,
            pops: self.pops + 1,
        }
    }

    /// The head once the descriptor is pushed.
    pub fn pushed(self, d: u64) -> ListHead
        ensures first { result.first ≡ Some d }
        ensures pops { result.pops ≡ self.pops }
    {
        ListHead {
            first: Some(d),
            pops: self.pops,
        }
    }
}
