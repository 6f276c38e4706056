//! The size classes (after LRMalloc and Ralloc): each superblock is cut into blocks of one of them.

ghost use Rattle.std.specs.Prelude.{◌≡◌, ◌<◌, ◌↔◌, IsNone, IfSome};
ghost use Rattle.heap_model.specs.Sizes.{IsClass, IsLeastClassFor, largest_small, size_of, blocks_of};

use crate::span::SUPERBLOCK_BYTES;

/// The last class: the classes are 1 to `LAST_CLASS`.
pub const LAST_CLASS: u8 = 20;

/// The block size in bytes of each class, after a 0 for class 0, which is none.
const CLASS_SIZES: [u64; LAST_CLASS as usize + 1] = [
    0, 16, 32, 48, 64, 96, 128, 192, 256, 384, 512, 768, 1024, 1536, 2048, 3072, 4096, 6144, 8192,
    12288, 14336,
];

/// The class that serves a request of so many bytes, or `None` where it takes superblocks of its
/// own.
pub fn class_of(bytes: u64) -> Option<u8>
    ensures none { IsNone result ↔ (largest_small < bytes) }
    ensures some { IfSome result (IsLeastClassFor bytes) }
{
    for class in 1..=LAST_CLASS {
        if bytes <= size_of(class) {
            return Some(class);
        }
    }
    None
}

/// The size in bytes of a block of the class.
#[tactic(auto, unfolding(heap_model::specs::Sizes::size_of, heap_model::specs::Sizes::class_sizes))]
pub fn size_of(class: u8) -> u64
    requires { IsClass class }
    ensures { result ≡ size_of class }
{
    CLASS_SIZES[class as usize]
}

/// How many blocks of the class a superblock is cut into.
#[tactic(auto, unfolding(heap_model::specs::Sizes::size_of, heap_model::specs::Sizes::blocks_of))]
pub fn blocks_of(class: u8) -> u64
    requires { IsClass class }
    ensures { result ≡ blocks_of class }
{
    SUPERBLOCK_BYTES / size_of(class)
}
