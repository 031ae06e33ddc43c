//! The run of a task over the lines of the input.
ghost use Rattle.std.specs.Prelude.{◌≡◌, ℕ, List, Option};
ghost use Rattle.mars_base.specs.declared.file.File.{File};
ghost use Rattle.mc_tree.specs.Plain.{plain_task};
ghost use Rattle.refusals.specs.Causes.{counts};
ghost use Rattle.stages.specs.Stage.{Does};
ghost use Rattle.stages.specs.World.{held};
ghost use Rattle.task_command.specs.Helpers.{refusal_of};
ghost use Rattle.task_command.specs.Running.{running};
ghost use Rattle.task_source.specs.Bound.{code_of};
ghost use Rattle.task_source.specs.Built.{IsBuilt};

use mars_base::{Sink, Source};
use refusals::Refusal;
use std::alloc::Global;
use task_run::{RunFault, run_lines};
use task_source::BuiltTask;
use word_machine::Machine;

/// Runs a task over the lines of the input.
pub fn run_built<I: Source, O: Sink>(
    alloc: Global,
    built: &BuiltTask,
    input: &mut I,
    out: &mut O,
) -> Result<(), Refusal>
    requires { IsBuilt built.now }
    ensures answer { (files : Option (List File)) (reads writes : ℕ) → Does (running (plain_task built.now.task) (code_of built.now.task) built.now.maxt)
        (held files (I.left input.old) (O.holds out.old)) (held files (I.left input.new) (O.holds out.new))
        (counts reads writes (I.faults input.old) (O.faults out.old))
        (counts reads writes (I.faults input.new) (O.faults out.new))
        result }
{
    let Ok(mut machine) = Machine::new(alloc) else {
        return Err(Refusal::Memory);
    };
    match run_lines(
        alloc,
        &mut machine,
        &built.task,
        &built.code,
        built.maxt,
        input,
        out,
    ) {
        Ok(()) => Ok(()),
        Err(fault) => Err(refused_run(fault)),
    }
}

// The refusal of a run that ended early.
fn refused_run(fault: RunFault) -> Refusal
    ensures { result ≡ refusal_of fault }
{
    match fault {
        RunFault::Memory => Refusal::Memory,
        RunFault::Read => Refusal::ReadFault(None),
        RunFault::Write => Refusal::WriteFault(None),
        RunFault::BadLine(number) => Refusal::BadInput(number),
        RunFault::Broken => Refusal::Broken,
    }
}
