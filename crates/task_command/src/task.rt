//! The command `task FILE`.
ghost use Rattle.refusals.specs.Causes.{counts};
ghost use Rattle.stages.specs.Stage.{Does};
ghost use Rattle.stages.specs.World.{held};
ghost use Rattle.task_command.specs.Task.{tasking, TaskPromises};

use crate::execute::run_built;
use mars_base::{Shelf, Sink, Source};
use refusals::Refusal;
use std::alloc::Global;
use task_source::read_task;

/// Runs the task of a file over the lines of the input, and writes its text to the output.
pub fn run_task<H: Shelf, I: Source, O: Sink>(
    alloc: Global,
    file: &str,
    shelf: &mut H,
    input: &mut I,
    out: &mut O,
) -> Result<(), Refusal>
    ensures answer { Does (tasking file.now)
        (held (H.holds shelf.old) (I.left input.old) (O.holds out.old)) (held (H.holds shelf.new) (I.left input.new) (O.holds out.new))
        (counts (H.failed_reads shelf.old) (H.failed_writes shelf.old) (I.faults input.old) (O.faults out.old))
        (counts (H.failed_reads shelf.new) (H.failed_writes shelf.new) (I.faults input.new) (O.faults out.new))
        result }
    ensures promises { TaskPromises file.now
        (held (H.holds shelf.old) (I.left input.old) (O.holds out.old)) (held (H.holds shelf.new) (I.left input.new) (O.holds out.new))
        (counts (H.failed_reads shelf.old) (H.failed_writes shelf.old) (I.faults input.old) (O.faults out.old))
        (counts (H.failed_reads shelf.new) (H.failed_writes shelf.new) (I.faults input.new) (O.faults out.new))
        result }
{
    let built = match read_task(alloc, shelf, file) {
        Ok(built) => built,
        Err(refused) => return Err(refused),
    };
    run_built(alloc, &built, input, out)
}
