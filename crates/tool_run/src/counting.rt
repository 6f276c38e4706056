//! Opens a named image by its own anchors where these can be relied on, and tells of it.
ghost use Rattle.std.specs.Prelude.{◌≡◌, ◌≤◌, None, IfOk, IfErr, IsErrOf};
ghost use Rattle.tool_ports.specs.Calls.{with_get};
ghost use Rattle.tool_ports.specs.Causes.{RoseByOne};
ghost use Rattle.tool_run.specs.Calls.{get_limit};
ghost use Rattle.tool_command.specs.Command.{count_image};
ghost use Rattle.tool_run.specs.Inside.{Refuses};
ghost use Rattle.tool_run.specs.Making.{Counts};

use crate::fault::Fault;
use crate::getting::dictionary_image;
use image_run::{Product, count_text};
use std::alloc::Global;
use tool_ports::ImageStore;

/// By which way the image of this name was opened, the report without keys on it, and its map where
/// that is asked for. A word that points outside refuses it only where its anchors don't tell what
/// it holds.
pub fn count_command<I: ImageStore>(
    alloc: Global,
    name: &str,
    with_map: bool,
    images: &mut I,
) -> Result<Product, Fault>
    ensures ok { IfOk result (λ product. (product.image ≡ None)
        × Counts (I.contents images.old) name.now with_map product.text) }
    ensures err { IfErr result (λ fault. Refuses (count_image name.now with_map)
        (I.contents images.old) (RoseByOne (I.faults images.old) (I.faults images.new)) fault) }
    ensures unchanged { I.contents images.new ≡ I.contents images.old }
    ensures later { I.faults images.old ≤ I.faults images.new }
    ensures store_steady { ¬ (IsErrOf result Fault.ReadFault)
        → I.faults images.new ≡ I.faults images.old }
    ensures calls { I.calls images.new ≡ with_get get_limit (I.calls images.old) }
{
    let image = dictionary_image(alloc, name, images)?;
    let text = count_text(alloc, image.words, image.closed, with_map)?;
    Ok(Product { image: None, text })
}
