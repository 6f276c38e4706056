//! The header of a heap image, the image of an empty heap, images of the version before as images
//! of this one, and images as words and as bytes.
#![tactic(auto)]

mod byte_list;
mod check;
mod conversions;
mod empty;
mod laws;
mod migration;

pub use byte_list::Bytes;
pub use check::{Header, check_bytes, read_header};
pub use conversions::{bytes_to_words, words_to_bytes};
pub use empty::{format, format_with_kinds};
pub use heap_model::BadHeader;
pub use laws::{
    a_good_image_has_a_current_form, a_migrated_image_reaches_the_same, conversions_are_inverse,
};
pub use migration::{current, migrate, migrate_owned};
