//! An image stored under a name, and its report.
ghost use Rattle.std.specs.Prelude.{◌≡◌, ℕ, List, Option, IfOk};
ghost use Rattle.build_command.specs.Build.{stored};
ghost use Rattle.refusals.specs.Causes.{counts};
ghost use Rattle.report_text.specs.Report.{report_of};
ghost use Rattle.stages.specs.Stage.{Does};
ghost use Rattle.stages.specs.World.{held};

use build_store::store_image;
use image::Image;
use mars_base::{Memory, Shelf, Sink};
use project_image::image_bytes;
use refusals::Refusal;
use report_text::report;
use std::alloc::Global;

/// Writes the bytes of an image under a name and puts its report to the output. Nothing is written where the bytes
/// are more than 4,194,304, or where there is no memory for them or for the report.
pub fn store_made<H: Shelf, O: Sink>(
    alloc: Global,
    name: &str,
    made: &Image,
    shelf: &mut H,
    out: &mut O,
) -> Result<(), Refusal>
    ensures answer { (left : Option (List ℕ)) (input : ℕ) → Does (stored name.now made.now)
        (held (H.holds shelf.old) left (O.holds out.old)) (held (H.holds shelf.new) left (O.holds out.new))
        (counts (H.failed_reads shelf.old) (H.failed_writes shelf.old) input (O.faults out.old))
        (counts (H.failed_reads shelf.new) (H.failed_writes shelf.new) input (O.faults out.new))
        result }
    ensures reads { H.failed_reads shelf.new ≡ H.failed_reads shelf.old }
{
    let bytes = match image_bytes(alloc, name, made) {
        Ok(bytes) => bytes,
        Err(refused) => return Err(refused),
    };
    let Ok(text) = report_of(alloc, made, bytes.len() as u64) else {
        return Err(Refusal::Memory);
    };
    store_image(alloc, name, bytes.as_slice(), text.as_slice(), shelf, out)
}

// The report of an image of so many bytes.
fn report_of(alloc: Global, made: &Image, size: u64) -> Result<Vec<u8>, Memory>
    ensures { IfOk result (λ text. text.items ≡ report_of made.now.net.tasks made.now.maxts size) }
{
    let plant = made.plant();
    report(
        alloc,
        plant.net.tasks.as_slice(),
        plant.maxts.as_slice(),
        size,
    )
}
