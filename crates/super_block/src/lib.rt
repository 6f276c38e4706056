//! Where things stand in the image of a heap: the header, the roots, each superblock with its
//! descriptor, and the kinds of the roots.
#![tactic(auto, using(heap_model::specs::Geometry::largest_capacity_fits))]

mod directory;
mod division;
mod geometry;
mod info;
mod laws;
mod layout;
mod list_words;
mod naming;
mod ready;

pub use directory::Directory;
pub use division::{Division, block_words};
pub use geometry::Geometry;
pub use heap_model::Block;
pub use info::Info;
pub use laws::constants_agree;
pub use layout::{
    ANCHOR_OFFSET, CAPACITY_WORD, CLEAN, DESCRIPTOR_WORDS, DIRTY, FIXED_WORDS, FREE_LIST,
    HEAD_WORD, LARGE_INFO, LARGE_STEP, LARGEST_CAPACITY, LARGEST_OLD_CAPACITY, LAST_CLASS,
    LINE_WORDS, LINK_OFFSET, LISTS, LONGEST_IMAGE, MAGIC, MAGIC_WORD, OLD_VERSION, ROOT_WORD,
    ROOTS, ROOTS_OF_KIND_ONE, STATE_WORD, SUPERBLOCK_WORDS, USED_WORD, VERSION, VERSION_WORD,
    WORD_BYTES,
};
pub use list_words::{ListHead, ListLink};
pub use naming::{block_at, name};
pub use ready::{Ready, an_empty_heap_is_ready};
