//! The bytes of an image within their limit.
ghost use Rattle.std.specs.Prelude.{◌≡◌, ◌⊎◌, Err};
ghost use Rattle.image_plant.specs.Image.{IsImage};
ghost use Rattle.project_image.specs.Gives.{ImageWithin, ImageGives};
ghost use Rattle.stages.specs.Stage.{given};

use image::{Image, encode};
use mars_base::Text;
use refusals::Refusal;
use std::alloc::Global;

// How many bytes an image has at most.
const LONGEST: usize = 4_194_304;

/// The bytes of an image. Refused as too long, with the name that is given, exactly where they are more than
/// 4,194,304, and where there is no memory.
pub fn image_bytes(alloc: Global, name: &str, image: &Image) -> Result<Vec<u8>, Refusal>
    ensures { ImageGives name.now image.now (given (λ bytes. bytes.items) result) ⊎ (given (λ bytes. bytes.items) result ≡ Err Refusal.Memory) }
{
    let Ok(blamed) = Text::from_slice(alloc, name.as_bytes()) else {
        return Err(Refusal::Memory);
    };
    bytes_within(alloc, Some(blamed), image)
}

/// The bytes of an image. Refused as too long, with the file that is blamed or with none, exactly where they are
/// more than 4,194,304, and where there is no memory.
pub fn bytes_within(alloc: Global, blamed: Option<Text>, image: &Image) -> Result<Vec<u8>, Refusal>
    ensures { ImageWithin blamed image.now (given (λ bytes. bytes.items) result) ⊎ (given (λ bytes. bytes.items) result ≡ Err Refusal.Memory) }
{
    told(image);
    let Ok(bytes) = encode(alloc, image) else {
        return Err(Refusal::Memory);
    };
    if bytes.len() > LONGEST {
        return Err(Refusal::TooLong(blamed));
    }
    Ok(bytes)
}

// An image, whose own facts are told.
fn told(image: &Image)
    ensures { IsImage image.now }
{
    image.plant();
}
