//! Puts and prints what a command has made.
ghost use Rattle.std.specs.Prelude.{◌≡◌, ◌≤◌, Option, List, ℕ, OnOk, IfErr, IsErrOf};
ghost use Rattle.tool_ports.specs.Causes.{RoseByOne};
ghost use Rattle.tool_run.specs.Calls.{with_putting};
ghost use Rattle.tool_run.specs.Inside.{IsDelivered, DeliveryFails, PutFails};
ghost use Rattle.tool_run.specs.Outcome.{Puts};

use crate::fault::Fault;
use image_run::Product;
use region_header::Bytes;
use std::alloc::Global;
use tool_ports::{ImageStore, Sink, write_all};

/// Puts the image, and prints the text after that: so a text that was printed tells of what is put.
pub fn deliver<I: ImageStore, O: Sink>(
    alloc: Global,
    name: &str,
    product: &Product,
    images: &mut I,
    out: &mut O,
) -> Result<(), Fault>
    ensures ok { OnOk result (IsDelivered name.now product.now.image product.now.text
        (I.contents images.old) (I.contents images.new) (O.taken out.old) (O.taken out.new)) }
    ensures err { IfErr result (DeliveryFails name.now product.now.image product.now.text
        (I.contents images.old) (I.contents images.new)
        (RoseByOne (I.faults images.old) (I.faults images.new))
        (O.faults out.old) (O.faults out.new) (O.taken out.old) (O.taken out.new)) }
    ensures put { ¬ (IsErrOf result Fault.Memory) →
        I.calls images.new ≡ with_putting product.now.image (I.calls images.old) }
    ensures not_put { IsErrOf result Fault.Memory → I.calls images.new ≡ I.calls images.old }
    ensures later_store { I.faults images.old ≤ I.faults images.new }
    ensures later_sink { O.faults out.old ≤ O.faults out.new }
    ensures store_steady { ¬ (IsErrOf result Fault.WriteFault)
        → I.faults images.new ≡ I.faults images.old }
    ensures sink_steady { ¬ (IsErrOf result Fault.WriteFault)
        → O.faults out.new ≡ O.faults out.old }
{
    put_image(alloc, name, &product.image, images)?;
    write_all(out, product.text.as_slice())?;
    Ok(())
}

// Puts the image, if there is one.
fn put_image<I: ImageStore>(
    alloc: Global,
    name: &str,
    image: &Option<Bytes>,
    images: &mut I,
) -> Result<(), Fault>
    ensures ok { OnOk result
        (Puts name.now image.now (I.contents images.old) (I.contents images.new)) }
    ensures err { IfErr result (PutFails name.now image.now
        (I.contents images.old) (I.contents images.new)
        (RoseByOne (I.faults images.old) (I.faults images.new))) }
    ensures put { ¬ (IsErrOf result Fault.Memory) →
        I.calls images.new ≡ with_putting image.now (I.calls images.old) }
    ensures not_put { IsErrOf result Fault.Memory → I.calls images.new ≡ I.calls images.old }
    ensures later { I.faults images.old ≤ I.faults images.new }
    ensures store_steady { ¬ (IsErrOf result Fault.WriteFault)
        → I.faults images.new ≡ I.faults images.old }
{
    if let Some(image) = image {
        images.put(alloc, name, image.as_slice())?;
    }
    Ok(())
}
