//! The image of a row, opened by its anchors and by recovery.

use crate::asserts::column;
use crate::told::image_told;
use dictionary::{DictFilter, root_kinds};
use heap_recover::{RecoverFault, Recovered, recover};
use quick_recover::{Quick, quick_open, quick_open_owned};
use std::alloc::Global;
use std::test::Fail;

/// The image of a row, which its first two columns tell.
pub fn row_image(alloc: Global, row: &str) -> Result<Vec<u64>, Fail> {
    image_told(alloc, column(row, 0), column(row, 1))
}

/// Opens an image, of a copy.
pub fn open(alloc: Global, image: &[u64]) -> Result<Quick, RecoverFault> {
    quick_open(alloc, image, &root_kinds(), &DictFilter)
}

/// Opens it in its room.
pub fn open_owned(alloc: Global, image: Vec<u64>) -> Result<Quick, RecoverFault> {
    quick_open_owned(alloc, image, &root_kinds(), &DictFilter)
}

/// Recovers it.
pub fn recovered(alloc: Global, image: &[u64]) -> Result<Recovered, RecoverFault> {
    recover(alloc, image, &root_kinds(), &DictFilter)
}

/// Opens the image of a row, of a copy.
pub fn row_opened(alloc: Global, row: &str) -> Result<Result<Quick, RecoverFault>, Fail> {
    let image = row_image(alloc, row)?;
    Ok(open(alloc, &image))
}

/// Opens it in its room.
pub fn row_opened_owned(alloc: Global, row: &str) -> Result<Result<Quick, RecoverFault>, Fail> {
    Ok(open_owned(alloc, row_image(alloc, row)?))
}

/// Recovers it.
pub fn row_recovered(alloc: Global, row: &str) -> Result<Result<Recovered, RecoverFault>, Fail> {
    let image = row_image(alloc, row)?;
    Ok(recovered(alloc, &image))
}

/// Whether two heaps hold the same, with the same superblocks free and the same words.
pub fn are_same(one: &Recovered, other: &Recovered) -> bool {
    one.heap.held() == other.heap.held()
        && one.free.as_slice() == other.free.as_slice()
        && one.heap.words() == other.heap.words()
}
