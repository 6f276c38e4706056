//! What is durable of the shared words.
ghost use Rattle.std.specs.Prelude.{◌≡◌, length, slice_index, IfOk};
ghost use Rattle.heap_model.specs.Geometry.{image_words};
ghost use Rattle.core_model.specs.Memory.{table_length};
ghost use Rattle.core_model.specs.Held.{durable_image};

use std::alloc::{AllocError, Global};
use super_block::Geometry;

/// The durable words of the shared table.
pub fn durable_words(
    alloc: Global,
    table: &[u64],
    geometry: Geometry,
) -> Result<Vec<u64>, AllocError>
    requires { length table.now ≡ table_length geometry.capacity }
    ensures length { IfOk result (λ words. length words.items ≡ image_words geometry.capacity) }
    ensures image { IfOk result (λ words.
        slice_index words.items ≡ durable_image geometry.capacity table.now) }
{
    let words = geometry.length() as usize;
    let mut durable = Vec::new(alloc);
    durable.extend_from_slice(&table[words..2 * words])?;
    Ok(durable)
}
