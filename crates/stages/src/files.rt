//! Reads and writes of files, with their refusals.
ghost use Rattle.std.specs.Prelude.{◌≡◌, ◌⊎◌, ◌≤◌, Some, ℕ, List, Option, IfOk, vec_len};
ghost use Rattle.stages.specs.Files.{reading, writing};
ghost use Rattle.stages.specs.Helpers.{refused_read};
ghost use Rattle.stages.specs.Stage.{Does, given};
ghost use Rattle.refusals.specs.Causes.{counts};
ghost use Rattle.stages.specs.World.{held};

use mars_base::{Shelf, ShelfFault, Text};
use refusals::Refusal;
use std::alloc::Global;

/// The bytes of a file, of at most `limit`.
pub fn read_file<H: Shelf>(
    alloc: Global,
    shelf: &mut H,
    file: &str,
    limit: u64,
) -> Result<Vec<u8>, Refusal>
    ensures short { IfOk result (λ bytes. vec_len bytes ≤ limit) }
    ensures answer { (left out : Option (List ℕ)) (input output : ℕ) → Does (reading file.now limit)
        (held (H.holds shelf.old) left out) (held (H.holds shelf.new) left out)
        (counts (H.failed_reads shelf.old) (H.failed_writes shelf.old) input output)
        (counts (H.failed_reads shelf.new) (H.failed_writes shelf.new) input output)
        (given (λ bytes. bytes.items) result) }
    ensures files { H.holds shelf.new ≡ H.holds shelf.old }
    ensures writes { H.failed_writes shelf.new ≡ H.failed_writes shelf.old }
{
    match shelf.read(alloc, file, limit) {
        Ok(bytes) => Ok(bytes),
        Err(fault) => Err(read_refusal(alloc, file, fault)),
    }
}

// The refusal of a read.
fn read_refusal(alloc: Global, file: &str, fault: ShelfFault) -> Refusal
    ensures { (result ≡ Refusal.Memory) ⊎ (result ≡ refused_read file.now fault) }
{
    let Ok(name) = Text::from_slice(alloc, file.as_bytes()) else {
        return Refusal::Memory;
    };
    match fault {
        ShelfFault::Memory => Refusal::Memory,
        ShelfFault::TooLong => Refusal::TooLong(Some(name)),
        ShelfFault::Missing => Refusal::ReadFault(Some(name)),
        ShelfFault::Failed => Refusal::ReadFault(Some(name)),
    }
}

/// Puts the bytes under a name.
pub fn write_file<H: Shelf>(
    alloc: Global,
    shelf: &mut H,
    file: &str,
    bytes: &[u8],
) -> Result<(), Refusal>
    ensures answer { (left out : Option (List ℕ)) (input output : ℕ) → Does (writing file.now bytes.now)
        (held (H.holds shelf.old) left out) (held (H.holds shelf.new) left out)
        (counts (H.failed_reads shelf.old) (H.failed_writes shelf.old) input output)
        (counts (H.failed_reads shelf.new) (H.failed_writes shelf.new) input output)
        result }
    ensures reads { H.failed_reads shelf.new ≡ H.failed_reads shelf.old }
{
    match shelf.write(file, bytes) {
        Ok(()) => Ok(()),
        Err(fault) => Err(write_refusal(alloc, file, fault)),
    }
}

// The refusal of a write.
fn write_refusal(alloc: Global, file: &str, fault: ShelfFault) -> Refusal
    ensures { (result ≡ Refusal.Memory) ⊎ ((fault ≡ ShelfFault.Failed) × (result ≡ Refusal.WriteFault (Some file.now))) }
{
    match fault {
        ShelfFault::Failed => match Text::from_slice(alloc, file.as_bytes()) {
            Ok(name) => Refusal::WriteFault(Some(name)),
            Err(_memory) => Refusal::Memory,
        },
        _ => Refusal::Memory,
    }
}
