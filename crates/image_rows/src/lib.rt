//! Images written and read back, and damaged images as rows.
#![tactic(auto)]

ghost use Rattle.std.specs.Prelude.{◌≡◌, ◌≤◌, ◌⊎◌, IfOk, IfErr, length};
ghost use Rattle.image.specs.Faults.{IsFirstFaultOf};
ghost use Rattle.image_plant.specs.Fields.{image_bytes};

use image::{Image, ImageFault, decode, encode};
use mars_base::Memory;
use std::alloc::Global;

#[cfg(test)]
mod tests;

/// Bytes read as an image and written again, which gives the same bytes; or their first fault.
pub fn rewrite(alloc: Global, bytes: &[u8]) -> Result<Vec<u8>, ImageFault>
    requires { length bytes.now ≤ 4194304 }
    ensures same { IfOk result (λ new. new.items ≡ bytes.now) }
    ensures fault { IfErr result (λ e. (e ≡ ImageFault.Memory) ⊎ IsFirstFaultOf bytes.now e) }
{
    let image = match decode(alloc, bytes) {
        Ok(image) => image,
        Err(fault) => return Err(fault),
    };
    match encode(alloc, &image) {
        Ok(new) => Ok(new),
        Err(_memory) => Err(ImageFault::Memory),
    }
}

/// An image written and read again, which gives the same image, unless memory runs out.
pub fn reread(alloc: Global, image: &Image) -> Result<Image, Memory>
    requires { length (image_bytes image.now) ≤ 4194304 }
    ensures { IfOk result (λ again. again ≡ image.now) }
{
    let plant = image.plant();
    let bytes = match encode(alloc, image) {
        Ok(bytes) => bytes,
        Err(memory) => return Err(memory),
    };
    match decode(alloc, &bytes) {
        Ok(again) => Ok(again),
        Err(_memory) => Err(Memory),
    }
}
