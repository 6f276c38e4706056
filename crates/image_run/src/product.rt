//! What a command over an image comes to.

use region_header::Bytes;

/// What a command has made: the bytes of the image that is to be put, if any, and the text to be
/// printed.
#[derive(Drop)]
pub struct Product {
    pub image: Option<Bytes>,
    pub text: Bytes,
}
