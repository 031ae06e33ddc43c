//! The command `plan PROJECT BUDGET`.
ghost use Rattle.std.specs.Prelude.{ℕ, List, Option};
ghost use Rattle.plan_command.specs.Plan.{planning, PlanPromises};
ghost use Rattle.refusals.specs.Causes.{counts};
ghost use Rattle.stages.specs.Stage.{Does};
ghost use Rattle.stages.specs.World.{held};

use crate::show::show_made;
use mars_base::{Shelf, Sink};
use project_image::image_of;
use project_tables::plan_project;
use refusals::Refusal;
use std::alloc::Global;

/// Writes the tables of a project, found within a budget of steps, to the output. It writes no file. Refused as too
/// long, with the project's name, exactly where the image that a build would write has more than 4,194,304 bytes.
pub fn run_plan<H: Shelf, O: Sink>(
    alloc: Global,
    project: &str,
    budget: u32,
    shelf: &mut H,
    out: &mut O,
) -> Result<(), Refusal>
    ensures answer { (left : Option (List ℕ)) (input : ℕ) → Does (planning project.now budget)
        (held (H.holds shelf.old) left (O.holds out.old)) (held (H.holds shelf.new) left (O.holds out.new))
        (counts (H.failed_reads shelf.old) (H.failed_writes shelf.old) input (O.faults out.old))
        (counts (H.failed_reads shelf.new) (H.failed_writes shelf.new) input (O.faults out.new))
        result }
    ensures promises { (left : Option (List ℕ)) (input : ℕ) → PlanPromises project.now budget
        (held (H.holds shelf.old) left (O.holds out.old)) (held (H.holds shelf.new) left (O.holds out.new))
        (counts (H.failed_reads shelf.old) (H.failed_writes shelf.old) input (O.faults out.old))
        (counts (H.failed_reads shelf.new) (H.failed_writes shelf.new) input (O.faults out.new))
        result }
{
    let plan = match plan_project(alloc, shelf, project, budget) {
        Ok(plan) => plan,
        Err(refused) => return Err(refused),
    };
    let Ok(made) = image_of(alloc, plan) else {
        return Err(Refusal::Memory);
    };
    show_made(alloc, project, &made, out)
}
