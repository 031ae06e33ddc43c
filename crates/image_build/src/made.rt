//! The image of a project as bytes.
ghost use Rattle.std.specs.Prelude.{◌≡◌, ◌⊎◌, [], ℕ, List, Option, Some, Err, IfOk};
ghost use Rattle.image_build.specs.Made.{imaging, HasMade};
ghost use Rattle.refusals.specs.Causes.{counts};
ghost use Rattle.stages.specs.Exact.{Exact};
ghost use Rattle.stages.specs.Files.{IsMissing};
ghost use Rattle.stages.specs.Stage.{Does, given};
ghost use Rattle.stages.specs.World.{held};

use mars_base::Shelf;
use project_image::{bytes_within, image_of};
use project_tables::plan_project;
use refusals::Refusal;
use std::alloc::Global;

/// The bytes of a project's image, whose tables are found within a budget of steps. It writes no file. Refused as the
/// command `build` is before its write; an image of more than 4,194,304 bytes is too long without a name.
pub fn build<H: Shelf>(
    alloc: Global,
    shelf: &mut H,
    project: &str,
    budget: u32,
) -> Result<Vec<u8>, Refusal>
    // The bytes carry the source project that the files are under this name.
    ensures made { IfOk result (λ bytes. HasMade project.now (H.holds shelf.old) bytes.items) }
    ensures answer { (left out : Option (List ℕ)) (input output : ℕ) → Does (imaging project.now budget)
        (held (H.holds shelf.old) left out) (held (H.holds shelf.new) left out)
        (counts (H.failed_reads shelf.old) (H.failed_writes shelf.old) input output)
        (counts (H.failed_reads shelf.new) (H.failed_writes shelf.new) input output)
        (given (λ bytes. bytes.items) result) }
    // Where files are told it is exactly what the stages mean, unless it was cut off.
    ensures exact { Exact (imaging project.now budget)
        (held (H.holds shelf.old) (Some []) (Some [])) (held (H.holds shelf.new) (Some []) (Some []))
        (counts (H.failed_reads shelf.old) (H.failed_writes shelf.old) 0 0)
        (counts (H.failed_reads shelf.new) (H.failed_writes shelf.new) 0 0)
        (given (λ bytes. bytes.items) result) }
    ensures missing { IsMissing (H.holds shelf.old) project.now
        → (given (λ bytes. bytes.items) result ≡ Err (Refusal.ReadFault (Some project.now)))
        ⊎ (given (λ bytes. bytes.items) result ≡ Err Refusal.Memory) }
    ensures files { H.holds shelf.new ≡ H.holds shelf.old }
    ensures writes { H.failed_writes shelf.new ≡ H.failed_writes shelf.old }
{
    let plan = match plan_project(alloc, shelf, project, budget) {
        Ok(plan) => plan,
        Err(refused) => return Err(refused),
    };
    let Ok(made) = image_of(alloc, plan) else {
        return Err(Refusal::Memory);
    };
    bytes_within(alloc, None, &made)
}
