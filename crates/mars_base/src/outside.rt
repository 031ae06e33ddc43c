//! What stands outside the program: files by name, an input and outputs. Each object may tell what it
//! holds, and counts its faults; no call changes whether it tells.
ghost use Rattle.std.specs.Prelude.{◌≡◌, ◌≤◌, ℕ, List, Option, IfOk, OnOk, OnErr, IsErrOf, vec_len};
ghost use Rattle.std.specs.Io.{ReadsAtMost};
ghost use Rattle.mars_base.specs.declared.file.File.{File};
ghost use Rattle.mars_base.specs.Causes.{Rose, HasCause};
ghost use Rattle.mars_base.specs.Outside.{Reads, Wrote, Refused, WritesOnly, Takes, Puts};

use std::alloc::Global;

/// Why a shelf refused.
#[derive(Clone, Copy, Debug, PartialEq, Eq)]
pub enum ShelfFault {
    /// The read or write failed, and its count of faults rose.
    Failed,
    /// No file has the name.
    Missing,
    /// The file has more bytes than the limit.
    TooLong,
    /// There was no memory.
    Memory,
}

/// A read of a source failed, and its count of faults rose.
#[derive(Clone, Copy, Debug, PartialEq, Eq)]
pub struct SourceFault;

/// A put failed, and the sink's count of faults rose.
#[derive(Clone, Copy, Debug, PartialEq, Eq)]
pub struct SinkFault;

/// Files by name.
pub trait Shelf {
    /// The files, where the shelf tells them.
    ghost holds: { Self → Option (List File) };

    /// How many reads have failed; it never falls.
    ghost failed_reads: { Self → ℕ };

    /// How many writes have failed; it never falls.
    ghost failed_writes: { Self → ℕ };

    /// The whole file under a name, of at most `limit` bytes. It changes no file.
    fn read(&mut self, alloc: Global, name: &str, limit: u64) -> Result<Vec<u8>, ShelfFault>
        ensures kept { holds self.new ≡ holds self.old }
        ensures short { IfOk result (λ bytes. vec_len bytes ≤ limit) }
        ensures answer { Reads (λ bytes. bytes.items) (holds self.old) name.now limit result (failed_reads self.old) (failed_reads self.new) }
        ensures cause { IsErrOf result ShelfFault.Failed → Rose (failed_reads self.old) (failed_reads self.new) }
        ensures later { failed_reads self.old ≤ failed_reads self.new }
        ensures writes { failed_writes self.new ≡ failed_writes self.old };

    /// Puts the bytes under a name, in place of what was there. After a refusal what stands under that
    /// name is open, and all other files stay.
    fn write(&mut self, name: &str, bytes: &[u8]) -> Result<(), ShelfFault>
        ensures written { OnOk result (Wrote (holds self.old) (holds self.new) name.now bytes.now) }
        ensures refused { OnErr result (Refused (holds self.old) (holds self.new) name.now) }
        ensures kinds { WritesOnly result }
        ensures cause { IsErrOf result ShelfFault.Failed → Rose (failed_writes self.old) (failed_writes self.new) }
        ensures later { failed_writes self.old ≤ failed_writes self.new }
        ensures reads { failed_reads self.new ≡ failed_reads self.old };
}

/// The bytes of the input.
pub trait Source {
    /// The bytes that are left, where the source tells them.
    ghost left: { Self → Option (List ℕ) };

    /// How many reads have failed; it never falls.
    ghost faults: { Self → ℕ };

    /// Moves bytes from the front of what is left into the buffer, and answers how many: 0 for a
    /// buffer that isn't empty exactly where nothing is left. A failed read takes nothing.
    fn read(&mut self, buf: &mut [u8]) -> Result<usize, SourceFault>
        ensures bound { ReadsAtMost result buf.new }
        ensures bytes { Takes (left self.old) (left self.new) result buf.new }
        ensures cause { HasCause (faults self.old) (faults self.new) result };
}

/// Where text is put.
pub trait Sink {
    /// The bytes put, where the sink tells them.
    ghost holds: { Self → Option (List ℕ) };

    /// How many puts have failed; it never falls.
    ghost faults: { Self → ℕ };

    /// Appends the bytes. After an `Err` a front of them was appended.
    fn put(&mut self, bytes: &[u8]) -> Result<(), SinkFault>
        ensures bytes { Puts (holds self.old) (holds self.new) result bytes.now }
        ensures cause { HasCause (faults self.old) (faults self.new) result };
}
