//! Values read from bytes, and lists of them.
ghost use Rattle.std.specs.Prelude.{◌≡◌, ℕ, List};
ghost use Rattle.std.specs.Int.{w8, w16};
ghost use Rattle.formats.specs.Format.{Format, number, times, counted};
ghost use Rattle.formats.specs.Gives.{Gives};

use formats::{Unread, u8_in, u16_in};
use sqlite_items::Items;
use std::alloc::Global;

/// A value that is read from bytes.
pub trait Readable: Drop + Sized {
    /// Its format.
    ghost format: { Format Self };

    /// Reads one at the front of the bytes; the rest comes after it.
    fn read(alloc: Global, bytes: &[u8]) -> Result<(Self, &[u8]), Unread>
        ensures { Gives (λ x. (x.0, x.1.now)) result (format.reads bytes.now) };
}

/// Reads so many values.
pub fn read_times<T: Readable>(
    alloc: Global,
    count: usize,
    bytes: &[u8],
) -> Result<(Vec<T>, &[u8]), Unread>
    ensures { Gives (λ x. (x.0.items, x.1.now)) result ((times T.format count).reads bytes.now) }
{
    let mut entries = Vec::new(alloc);
    let mut rest = bytes;
    for _ in 0..count {
        let (entry, after) = T::read(alloc, rest)?;
        entries.push(entry)?;
        rest = after;
    }
    Ok((entries, rest))
}

/// Reads a byte that is a count from low to high, and so many values.
pub fn list8_at<T: Readable>(
    alloc: Global,
    bytes: &[u8],
    low: u8,
    high: u8,
) -> Result<(Items<T>, &[u8]), Unread>
    ensures { Gives (λ x. (x.0, x.1.now)) result ((counted (number w8 low high) T.format).reads bytes.now) }
{
    let (count, rest) = u8_in(bytes, low, high)?;
    let (entries, rest) = read_times(alloc, usize::from(count), rest)?;
    Ok((Items::from_vec(entries), rest))
}

/// Reads two bytes that are a count from low to high, and so many values.
pub fn list16_at<T: Readable>(
    alloc: Global,
    bytes: &[u8],
    low: u16,
    high: u16,
) -> Result<(Items<T>, &[u8]), Unread>
    ensures { Gives (λ x. (x.0, x.1.now)) result ((counted (number w16 low high) T.format).reads bytes.now) }
{
    let (count, rest) = u16_in(bytes, low, high)?;
    let (entries, rest) = read_times(alloc, usize::from(count), rest)?;
    Ok((Items::from_vec(entries), rest))
}
