//! Names as fields.
ghost use Rattle.std.specs.Prelude.{◌≡◌, ◌++◌, ◌<◌, length, OnOk};
ghost use Rattle.formats.specs.Gives.{Gives};
ghost use Rattle.image_parts.specs.Name.{name};

use formats::Unread;
use mars_base::{Memory, Text, is_name};
use std::alloc::Global;

/// Reads a name with its length.
#[tactic(auto, unfolding(formats::specs::Format::read_short_text))]
pub fn name_at(alloc: Global, bytes: &[u8]) -> Result<(Text, &[u8]), Unread>
    ensures { Gives (λ x. (x.0, x.1.now)) result (name.reads bytes.now) }
{
    match bytes {
        [] => Err(Unread::Left(0)),
        [size, rest @ ..] => {
            let size = usize::from(*size);
            if rest.len() < size {
                return Err(Unread::Left(bytes.len()));
            }
            let (text, rest) = rest.split_at(size);
            if !is_name(text) {
                return Err(Unread::Left(bytes.len()));
            }
            Ok((Text::from_slice(alloc, text)?, rest))
        }
    }
}

/// Writes a name with its length.
pub fn put_name(text: &Text, into: &mut Vec<u8>) -> Result<(), Memory>
    requires { length text.now < 256 }
    ensures { OnOk result (into.new.items ≡ into.old.items ++ name.writes text.now) }
{
    into.push(text.len() as u8)?;
    into.extend_from_slice(text.as_slice())?;
    Ok(())
}
