//! Recovers a named image with no filter, and tells of it.
ghost use Rattle.std.specs.Prelude.{◌≡◌, ◌≤◌, None, IfOk, IfErr, IsErrOf};
ghost use Rattle.tool_ports.specs.Calls.{with_get};
ghost use Rattle.tool_ports.specs.Causes.{RoseByOne};
ghost use Rattle.tool_run.specs.Calls.{get_limit};
ghost use Rattle.tool_command.specs.Command.{conservative_image};
ghost use Rattle.tool_run.specs.Inside.{Refuses};
ghost use Rattle.tool_run.specs.Making.{ShowsByWords};

use crate::fault::Fault;
use crate::getting::current_image;
use dictionary::OTHER;
use image_run::{Product, conservative_text};
use std::alloc::Global;
use super_block::ROOTS;
use tool_ports::ImageStore;

/// The report without keys on the image of this name, recovered with no filter, and its map where
/// that is asked for. No kinds of roots are checked, and no word is refused.
pub fn report_conservatively<I: ImageStore>(
    alloc: Global,
    name: &str,
    with_map: bool,
    images: &mut I,
) -> Result<Product, Fault>
    ensures ok { IfOk result (λ product. (product.image ≡ None)
        × ShowsByWords (I.contents images.old) name.now with_map product.text) }
    ensures err { IfErr result (λ fault. Refuses (conservative_image name.now with_map)
        (I.contents images.old) (RoseByOne (I.faults images.old) (I.faults images.new)) fault) }
    ensures unchanged { I.contents images.new ≡ I.contents images.old }
    ensures later { I.faults images.old ≤ I.faults images.new }
    ensures store_steady { ¬ (IsErrOf result Fault.ReadFault)
        → I.faults images.new ≡ I.faults images.old }
    ensures calls { I.calls images.new ≡ with_get get_limit (I.calls images.old) }
{
    let kinds = [OTHER; ROOTS as usize];
    let image = current_image(alloc, name, None, &kinds, images)?;
    let text = conservative_text(alloc, image.words, image.closed, with_map)?;
    Ok(Product { image: None, text })
}
