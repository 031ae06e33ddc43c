//! Values written as bytes, and lists of them.
ghost use Rattle.std.specs.Prelude.{◌≡◌, ◌++◌, ◌<◌, ◌^◌, length, All, OnOk, List, ℕ};
ghost use Rattle.std.specs.Int.{w8, w16, to_be_bytes};
ghost use Rattle.std.specs.List.{flat_map};
ghost use Rattle.formats.specs.Format.{Format};

use formats::{put_u8, put_u16};
use mars_base::Memory;

/// A value that is written as bytes.
pub trait Writable {
    /// Its format.
    ghost format: { Format Self };

    /// Writes it to the end.
    fn write(&self, into: &mut Vec<u8>) -> Result<(), Memory>
        requires { format.fits self.now }
        ensures { OnOk result (into.new.items ≡ into.old.items ++ format.writes self.now) };
}

/// Writes values one after another.
pub fn write_times<T: Writable>(entries: &[T], into: &mut Vec<u8>) -> Result<(), Memory>
    requires { All T.format.fits entries.now }
    ensures { OnOk result (into.new.items ≡ into.old.items ++ flat_map T.format.writes entries.now) }
{
    for entry in entries {
        entry.write(into)?;
    }
    Ok(())
}

/// Writes a byte that is the count, and the values.
pub fn put_list8<T: Writable>(entries: &[T], into: &mut Vec<u8>) -> Result<(), Memory>
    requires count { length entries.now < 2 ^ 8 }
    requires each { All T.format.fits entries.now }
    ensures { OnOk result (into.new.items ≡ into.old.items ++ (to_be_bytes w8 (length entries.now) ++ flat_map T.format.writes entries.now)) }
{
    put_u8(entries.len() as u8, into)?;
    write_times(entries, into)
}

/// Writes two bytes that are the count, and the values.
pub fn put_list16<T: Writable>(entries: &[T], into: &mut Vec<u8>) -> Result<(), Memory>
    requires count { length entries.now < 2 ^ 16 }
    requires each { All T.format.fits entries.now }
    ensures { OnOk result (into.new.items ≡ into.old.items ++ (to_be_bytes w16 (length entries.now) ++ flat_map T.format.writes entries.now)) }
{
    put_u16(entries.len() as u16, into)?;
    write_times(entries, into)
}
