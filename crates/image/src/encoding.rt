//! An image as bytes.
ghost use Rattle.std.specs.Prelude.{◌≡◌, IfOk};
ghost use Rattle.image_plant.specs.Fields.{image_bytes};

use crate::bodies::put_image;
use crate::entries::{job_parts, message_parts};
use crate::value::Image;
use mars_base::Memory;
use std::alloc::Global;

/// The bytes of an image. They are read back as this image, and no other image has them.
pub fn encode(alloc: Global, image: &Image) -> Result<Vec<u8>, Memory>
    ensures { IfOk result (λ bytes. bytes.items ≡ image_bytes image.now) }
{
    let plant = image.plant();
    let jobs = job_parts(alloc, &plant.graph, plant.tables.jobs.as_slice())?;
    let messages = message_parts(alloc, plant.tables.messages.as_slice())?;
    let mut bytes = Vec::new(alloc);
    put_image(plant, jobs.as_slice(), messages.as_slice(), &mut bytes)?;
    Ok(bytes)
}
