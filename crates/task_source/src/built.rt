//! A task with its code and its bound.
ghost use Rattle.std.specs.Prelude.{◌≡◌, ◌⊎◌, ℕ, List, Option, Err, IfOk};
ghost use Rattle.mc_tree.specs.CheckedTask.{IsCheckedTask};
ghost use Rattle.refusals.specs.Causes.{counts};
ghost use Rattle.stages.specs.Stage.{Does, given};
ghost use Rattle.stages.specs.World.{held};
ghost use Rattle.task_source.specs.Bound.{BoundGives};
ghost use Rattle.task_source.specs.Built.{IsBuilt, built, plain_built};

use crate::source::read_source;
use mars_base::{Shelf, Text};
use maxt::{MaxtFault, maxt};
use mc_compile::{CompileFault, compile};
use mc_fold::fold;
use mc_tree::Task;
use refusals::{Fault, Refusal};
use std::alloc::Global;
use word_code::Verified;

/// A task, its code, and the bound of its code.
#[derive(Drop)]
pub struct BuiltTask {
    /// The tree.
    pub task: Task,
    /// The code of the task with its constants folded.
    pub code: Verified,
    /// The bound that each execution of the code keeps, in cycles.
    pub maxt: u32,
}

/// The task of a file of at most 65,536 bytes, with its code and its bound. Refused where the file can't be
/// read, isn't there or is longer, where its text has a fault or its code can't be bounded, and where there
/// is no memory.
pub fn read_task<H: Shelf>(alloc: Global, shelf: &mut H, file: &str) -> Result<BuiltTask, Refusal>
    ensures answer { (left out : Option (List ℕ)) (input output : ℕ) → Does (built file.now)
        (held (H.holds shelf.old) left out) (held (H.holds shelf.new) left out)
        (counts (H.failed_reads shelf.old) (H.failed_writes shelf.old) input output)
        (counts (H.failed_reads shelf.new) (H.failed_writes shelf.new) input output)
        (given plain_built result) }
    ensures built { IfOk result IsBuilt }
    ensures files { H.holds shelf.new ≡ H.holds shelf.old }
    ensures writes { H.failed_writes shelf.new ≡ H.failed_writes shelf.old }
{
    let task = match read_source(alloc, shelf, file) {
        Ok(task) => task,
        Err(refused) => return Err(refused),
    };
    bound_task(alloc, file, task)
}

// A checked task with its code and its bound, or the fault of its file.
fn bound_task(alloc: Global, file: &str, task: Task) -> Result<BuiltTask, Refusal>
    requires { IsCheckedTask task }
    ensures answer { BoundGives file.now task (given (λ b. b.maxt) result) ⊎ (given (λ b. b.maxt) result ≡ Err Refusal.Memory) }
    ensures task { IfOk result (λ b. b.task ≡ task) }
    ensures built { IfOk result IsBuilt }
{
    let Ok(name) = Text::from_slice(alloc, file.as_bytes()) else {
        return Err(Refusal::Memory);
    };
    let Ok(folded) = fold(alloc, &task) else {
        return Err(Refusal::Memory);
    };
    let code = match compile(alloc, &folded) {
        Ok(code) => code,
        Err(CompileFault::Memory) => return Err(Refusal::Memory),
        Err(CompileFault::CodeTooLong(length)) => {
            return Err(Refusal::Fault(Fault::CodeTooLong { file: name, length }));
        }
    };
    match maxt(alloc, &folded) {
        Ok(maxt) => Ok(BuiltTask { task, code, maxt }),
        Err(MaxtFault::Memory) => Err(Refusal::Memory),
        Err(MaxtFault::NoPath) => Err(Refusal::Fault(Fault::NoPath { file: name })),
        Err(MaxtFault::TooLong) => Err(Refusal::Fault(Fault::MaxtTooLong { file: name })),
    }
}
