//! What an anchor says, and how it changes when free blocks are taken or given back.

ghost use Rattle.std.specs.Prelude.{◌≡◌, ◌+◌, ◌<◌, ◌≤◌, ◌^◌, ◌↔◌};

/// How many blocks of a superblock are free.
#[derive(Clone, Copy, PartialEq, Eq, Debug)]
pub enum State {
    /// All of them.
    Empty,
    /// Some of them.
    Partial,
    /// None.
    Full,
}

/// The free blocks of a superblock, after the anchors of LRMalloc and Ralloc.
#[derive(Clone, Copy, PartialEq, Eq, Debug)]
pub struct Anchor {
    /// How many blocks are free.
    pub state: State,
    /// The index of the first free block; the others follow by the links in the blocks.
    pub first: u64,
    /// The count of free blocks.
    pub count: u64,
}

/// The anchor of a superblock with no free block.
pub const FULL: Anchor = Anchor {
    state: State::Full,
    first: 0,
    count: 0,
};

/// The anchor of a superblock that was never divided, or that recovery found free. One whose last
/// block was given back has a count, and so another anchor.
pub const EMPTY: Anchor = Anchor {
    state: State::Empty,
    first: 0,
    count: 0,
};

/// The anchor after all free blocks were taken.
pub fn take_all(anchor: &Anchor) -> Anchor
    requires { anchor.now.state ≡ State.Partial }
    ensures state { result.state ≡ State.Full }
    ensures first { result.first ≡ 0 }
    ensures count { result.count ≡ 0 }
{
    prove!(anchor.state == State::Partial);
    FULL
}

/// The anchor after `n` blocks were given back, of a superblock of `max` blocks: `head` is the
/// first of them, and the last links to the blocks that were free.
pub fn give(anchor: &Anchor, head: u64, n: u64, max: u64) -> Anchor
    requires fits { n + anchor.now.count ≤ max }
    requires head { head < 2 ^ 31 }
    requires max { max < 2 ^ 31 }
    ensures empty { (result.state ≡ State.Empty) ↔ (n + anchor.now.count ≡ max) }
    ensures partial { (result.state ≡ State.Partial) ↔ (n + anchor.now.count < max) }
    ensures first { result.first ≡ head }
    ensures count { result.count ≡ n + anchor.now.count }
{
    let count = n + anchor.count;
    let state = if count == max {
        State::Empty
    } else {
        State::Partial
    };
    Anchor {
        state,
        first: head,
        count,
    }
}
