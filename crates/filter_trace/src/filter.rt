//! How a program tells where its blocks hold pointers.
ghost use Rattle.std.specs.Prelude.{◌≡◌, ℕ, ◌<◌, ◌^◌, List, length, slice_get};
ghost use Rattle.heap_model.specs.Reach.{Links, AreInside};

/// Where the blocks of a program hold pointers (Ralloc's filter functions).
///
/// A block has a kind, a number below `KINDS`, which the program gives it by what leads to it. The
/// links of a block are those of its words that hold pointers. They depend on the block's kind and
/// words alone, and a word may be listed more than once.
pub trait Filter {
    /// How many kinds there are.
    const KINDS: u32;

    ghost KINDS: { ℕ };

    ghost links_of: { Self → Links };

    /// The link number `at` of a block of the kind with these words, as the position of a word in
    /// the block and the kind of the block that this word leads to; `None` from the number of
    /// links on.
    fn links(&self, kind: u32, block: &[u64], at: usize) -> Option<(usize, u32)>
        ensures { result ≡ slice_get (links_of self.now kind block.now) at };

    ghost inside: { (filter : Self) → AreInside KINDS (links_of filter) };

    ghost few: { (filter : Self) (kind : ℕ) (block : List ℕ)
        → length block < 2 ^ 32 → length (links_of filter kind block) < 2 ^ 64 };
}
