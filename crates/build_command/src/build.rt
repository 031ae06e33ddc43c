//! The command `build PROJECT BUDGET IMAGE`.
ghost use Rattle.std.specs.Prelude.{ℕ, List, Option};
ghost use Rattle.build_command.specs.Build.{building, BuildPromises};
ghost use Rattle.refusals.specs.Causes.{counts};
ghost use Rattle.stages.specs.Stage.{Does};
ghost use Rattle.stages.specs.World.{held};

use crate::stored::store_made;
use mars_base::{Shelf, Sink};
use project_image::image_of;
use project_tables::plan_project;
use refusals::Refusal;
use std::alloc::Global;

/// Writes the image of a project, whose tables were found within a budget of steps, under a name, and puts its
/// report to the output: the bound of each task and the number of the image's bytes. The write comes after the last
/// refusal.
pub fn run_build<H: Shelf, O: Sink>(
    alloc: Global,
    project: &str,
    budget: u32,
    image: &str,
    shelf: &mut H,
    out: &mut O,
) -> Result<(), Refusal>
    ensures answer { (left : Option (List ℕ)) (input : ℕ) → Does (building project.now budget image.now)
        (held (H.holds shelf.old) left (O.holds out.old)) (held (H.holds shelf.new) left (O.holds out.new))
        (counts (H.failed_reads shelf.old) (H.failed_writes shelf.old) input (O.faults out.old))
        (counts (H.failed_reads shelf.new) (H.failed_writes shelf.new) input (O.faults out.new))
        result }
    ensures promises { (left : Option (List ℕ)) (input : ℕ) → BuildPromises project.now budget image.now
        (held (H.holds shelf.old) left (O.holds out.old)) (held (H.holds shelf.new) left (O.holds out.new))
        (counts (H.failed_reads shelf.old) (H.failed_writes shelf.old) input (O.faults out.old))
        (counts (H.failed_reads shelf.new) (H.failed_writes shelf.new) input (O.faults out.new))
        result }
{
    let plan = match plan_project(alloc, shelf, project, budget) {
        Ok(plan) => plan,
        Err(refused) => return Err(refused),
    };
    let Ok(made) = image_of(alloc, plan) else {
        return Err(Refusal::Memory);
    };
    store_made(alloc, image, &made, shelf, out)
}
