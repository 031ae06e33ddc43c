//! Bytes read as an image.
ghost use Rattle.std.specs.Prelude.{◌≡◌, ◌≤◌, ◌⊎◌, Ok, Err, IfOk, IfErr, length};
ghost use Rattle.word_code.specs.declared.code.Code.{Code};
ghost use Rattle.plant.specs.declared.system.Plant.{Plant};
ghost use Rattle.image_plant.specs.Fields.{image_bytes};
ghost use Rattle.image_plant.specs.Image.{IsImage};
ghost use Rattle.image.specs.declared.decoding.ImageFault.{ImageFault};
ghost use Rattle.image.specs.Faults.{IsFirstFaultOf};
ghost use Rattle.image.specs.Decoded.{IsDecoded, MayFault};

use crate::judging::judge;
use crate::value::Image;
use image_fields::{BytesFault, read_fields};
use mars_base::Memory;
use std::alloc::Global;

/// Why bytes aren't an image's. The first of these that comes is answered.
#[derive(Clone, Copy, Debug, PartialEq, Eq)]
pub enum ImageFault {
    /// The offset of the first field that isn't whole or whose value is refused by itself, or of the first
    /// byte after the last field.
    Bytes(u32),
    /// The net isn't sound.
    Net,
    /// The first task whose code isn't verified.
    Code(u16),
    /// The number of the first rule that the tables fail.
    Table(u8),
    /// There was no memory.
    Memory,
}

impl From<Memory> for ImageFault {
    ghost use Rattle.std.specs.Prelude.{◌≡◌};
    ghost use Rattle.image.specs.declared.decoding.ImageFault.TheVariants.{Memory};

    ghost from_gives = { λ _ fault. fault ≡ Memory };

    fn from(_error: Memory) -> ImageFault {
        ImageFault::Memory
    }
}

fn decode_once(alloc: Global, bytes: &[u8]) -> Result<Image, ImageFault>
    requires { length bytes.now ≤ 4194304 }
    ensures ok { IfOk result (IsDecoded bytes.now) }
    ensures fault { IfErr result (MayFault bytes.now) }
{
    match read_fields(alloc, bytes) {
        Ok(parts) => judge(alloc, parts),
        Err(BytesFault::Bytes(offset)) => Err(ImageFault::Bytes(offset)),
        Err(BytesFault::Memory) => Err(ImageFault::Memory),
    }
}

/// The image whose bytes these are, at most 4,194,304 of them. A fault is answered exactly where it is the
/// first, in the order of the variants.
pub fn decode(alloc: Global, bytes: &[u8]) -> Result<Image, ImageFault>
    requires { length bytes.now ≤ 4194304 }
    // What is answered is an image with these bytes.
    ensures ok { IfOk result (λ image. IsImage image × (bytes.now ≡ image_bytes image)) }
    // An image's bytes are read as that image, unless memory runs out.
    ensures only { (plant : Plant Code) → IsImage plant → bytes.now ≡ image_bytes plant
        → (result ≡ Ok plant) ⊎ (result ≡ Err ImageFault.Memory) }
    // A fault that is answered is the first.
    ensures fault { IfErr result (λ e. (e ≡ ImageFault.Memory) ⊎ IsFirstFaultOf bytes.now e) }
    // The first fault is answered, unless memory runs out.
    ensures only_fault { (e : ImageFault) → IsFirstFaultOf bytes.now e
        → (result ≡ Err e) ⊎ (result ≡ Err ImageFault.Memory) }
{
    decode_once(alloc, bytes)
}
