//! The chain of the blocks of a superblock that are not kept.
ghost use Rattle.std.specs.Prelude.{◌<◌, All, AllPairs, length, slice_index};
ghost use Rattle.heap_recover.specs.Rebuilt.{IsChained};

/// Stores in the first word of each block of the chain where the next one begins. The last block's
/// words stay, since an anchor tells how long the chain is.
pub fn link_chain(words: &mut [u64], chain: &[u64])
    requires inside { All (λ w. w < length words.old) chain.now }
    requires ascending { AllPairs (λ x y. x < y) chain.now }
    ensures chained { IsChained (slice_index words.old) (slice_index words.new) chain.now }
{
    for i in 1..chain.len() {
        words[chain[i - 1] as usize] = chain[i];
    }
}
