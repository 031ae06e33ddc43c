//! All of the bytes read as an image's fields.
ghost use Rattle.std.specs.Prelude.{◌≡◌, ◌≤◌, ◌<◌, ◌-◌, length, IfOk, Ok};
ghost use Rattle.formats.specs.Format.{whole};
ghost use Rattle.image_fields.specs.Image.{image};
ghost use Rattle.image_fields.specs.Answers.{Answers};
ghost use Rattle.image_fields.specs.declared.parts.Parts.{Parts};

use crate::fields::image_at;
use crate::parts::Parts;
use formats::Unread;
use std::alloc::Global;

/// Why bytes aren't the fields of an image.
#[derive(Clone, Copy, Debug, PartialEq, Eq)]
pub enum BytesFault {
    /// The offset of the first field that isn't whole or whose value is refused by itself, or of the first
    /// byte after the last field.
    Bytes(u32),
    /// There was no memory.
    Memory,
}

fn offset(size: usize, left: usize) -> BytesFault
    requires small { size ≤ 4194304 }
    requires within { left ≤ size }
    ensures { result ≡ BytesFault.Bytes (size - left) }
{
    BytesFault::Bytes((size - left) as u32)
}

fn read_whole(alloc: Global, bytes: &[u8]) -> Result<Parts, BytesFault>
    requires { length bytes.now ≤ 4194304 }
    ensures { Answers result (whole image bytes.now) }
{
    match image_at(alloc, bytes) {
        Ok((parts, rest)) => match rest {
            [] => Ok(parts),
            [..] => Err(offset(bytes.len(), rest.len())),
        },
        Err(Unread::Memory) => Err(BytesFault::Memory),
        Err(Unread::Left(left)) => Err(offset(bytes.len(), left)),
    }
}

/// What the fields say that are exactly these bytes, at most 4,194,304. `Bytes` comes exactly where the bytes
/// aren't the fields of an image.
pub fn read_fields(alloc: Global, bytes: &[u8]) -> Result<Parts, BytesFault>
    requires { length bytes.now ≤ 4194304 }
    // What is read is what would be written.
    ensures found { IfOk result (λ parts. image.fits parts × (bytes.now ≡ image.writes parts)) }
    // What was written is read, unless memory runs out.
    ensures only { (parts : Parts) → image.fits parts → bytes.now ≡ image.writes parts → Answers result (Ok parts) }
    // Which fault it is.
    ensures exact { Answers result (whole image bytes.now) }
{
    read_whole(alloc, bytes)
}
