//! Reads the image of a file, or tells its first fault.
ghost use Rattle.std.specs.Prelude.{◌≡◌, ◌⊎◌, ◌≤◌, ℕ, List, Option, Err, IfOk, length};
ghost use Rattle.image_file.specs.Gives.{ImageGives, image_stage, refusal_of};
ghost use Rattle.image_plant.specs.Image.{IsImage};
ghost use Rattle.refusals.specs.Causes.{counts};
ghost use Rattle.stages.specs.Stage.{Does};
ghost use Rattle.stages.specs.World.{held};

use image::{Image, ImageFault, decode};
use mars_base::Shelf;
use refusals::{ImageBad, Refusal};
use stages::read_file;
use std::alloc::Global;

// How many bytes an image has at most.
const LONGEST: u64 = 4_194_304;

/// The image of a file of at most 4,194,304 bytes. Refused where the file can't be read, isn't there or is
/// longer, where its bytes aren't an image's, with the first fault, and where there is no memory.
pub fn read_image<H: Shelf>(alloc: Global, shelf: &mut H, file: &str) -> Result<Image, Refusal>
    ensures answer { (left out : Option (List ℕ)) (input output : ℕ) → Does (image_stage file.now)
        (held (H.holds shelf.old) left out) (held (H.holds shelf.new) left out)
        (counts (H.failed_reads shelf.old) (H.failed_writes shelf.old) input output)
        (counts (H.failed_reads shelf.new) (H.failed_writes shelf.new) input output)
        result }
    ensures image { IfOk result IsImage }
    ensures files { H.holds shelf.new ≡ H.holds shelf.old }
    ensures writes { H.failed_writes shelf.new ≡ H.failed_writes shelf.old }
{
    let bytes = match read_file(alloc, shelf, file, LONGEST) {
        Ok(bytes) => bytes,
        Err(refused) => return Err(refused),
    };
    judge_bytes(alloc, &bytes)
}

// The image of bytes, or their first fault.
fn judge_bytes(alloc: Global, bytes: &[u8]) -> Result<Image, Refusal>
    requires { length bytes.now ≤ 4194304 }
    ensures answer { ImageGives bytes.now result ⊎ (result ≡ Err Refusal.Memory) }
    ensures image { IfOk result IsImage }
{
    match decode(alloc, bytes) {
        Ok(image) => Ok(image),
        Err(fault) => Err(refusal_of(fault)),
    }
}

// The refusal for a fault of bytes.
fn refusal_of(fault: ImageFault) -> Refusal
    ensures { result ≡ refusal_of fault }
{
    match fault {
        ImageFault::Bytes(offset) => Refusal::BadImage(ImageBad::Byte(offset)),
        ImageFault::Net => Refusal::BadImage(ImageBad::Net),
        ImageFault::Code(task) => Refusal::BadImage(ImageBad::Code(task)),
        ImageFault::Table(rule) => Refusal::BadImage(ImageBad::Table(rule)),
        ImageFault::Memory => Refusal::Memory,
    }
}
