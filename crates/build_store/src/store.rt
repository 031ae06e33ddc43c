//! The image's bytes, and then the report.
ghost use Rattle.std.specs.Prelude.{◌≡◌, ℕ, List, Option};
ghost use Rattle.build_store.specs.Store.{storing};
ghost use Rattle.refusals.specs.Causes.{counts};
ghost use Rattle.stages.specs.Stage.{Does};
ghost use Rattle.stages.specs.World.{held};

use mars_base::{Shelf, Sink};
use refusals::Refusal;
use stages::{print_text, write_file};
use std::alloc::Global;

/// Puts an image's bytes under its name, in place of what was there, and then a text on the output. Every
/// other file stays. After a write that was refused what the name holds is open, and nothing is put; after one
/// that wasn't it holds the bytes, whatever becomes of the text.
pub fn store_image<H: Shelf, O: Sink>(
    alloc: Global,
    image: &str,
    bytes: &[u8],
    text: &[u8],
    shelf: &mut H,
    out: &mut O,
) -> Result<(), Refusal>
    ensures answer { (left : Option (List ℕ)) (input : ℕ) → Does (storing image.now bytes.now text.now)
        (held (H.holds shelf.old) left (O.holds out.old)) (held (H.holds shelf.new) left (O.holds out.new))
        (counts (H.failed_reads shelf.old) (H.failed_writes shelf.old) input (O.faults out.old))
        (counts (H.failed_reads shelf.new) (H.failed_writes shelf.new) input (O.faults out.new))
        result }
    ensures reads { H.failed_reads shelf.new ≡ H.failed_reads shelf.old }
{
    match write_file(alloc, shelf, image, bytes) {
        Ok(()) => print_text(out, text),
        Err(refused) => Err(refused),
    }
}
