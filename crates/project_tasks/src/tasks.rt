//! The tasks of a project, each with its code and its bound.
ghost use Rattle.std.specs.Prelude.{◌≡◌, ◌+◌, ℕ, List, Option, All, IfOk, OnOk, length, map};
ghost use Rattle.project_reader.specs.ProjectOf.{IsNamedInUtf8};
ghost use Rattle.project_tasks.specs.Entries.{IsRead, entry, entries};
ghost use Rattle.refusals.specs.Causes.{counts};
ghost use Rattle.stages.specs.Stage.{Does, given};
ghost use Rattle.stages.specs.World.{held};
ghost use Rattle.task_source.specs.Built.{plain_built};

use mars_base::Shelf;
use project_reader::TaskEntry;
use refusals::Refusal;
use sqlite_items::Items;
use std::alloc::Global;
use task_source::{BuiltTask, read_task};

/// The tasks of a project in their order, each read from its file. The first refusal is the answer: where a
/// file can't be read, isn't there or has more than 65,536 bytes, where its text has a fault or its code can't
/// be bounded, and where there is no memory. A file that two tasks name is read for each.
pub fn read_tasks<H: Shelf>(
    alloc: Global,
    shelf: &mut H,
    tasks: &[TaskEntry],
) -> Result<Items<BuiltTask>, Refusal>
    requires { All IsNamedInUtf8 tasks.now }
    ensures answer { (left out : Option (List ℕ)) (input output : ℕ) → Does (entries tasks.now)
        (held (H.holds shelf.old) left out) (held (H.holds shelf.new) left out)
        (counts (H.failed_reads shelf.old) (H.failed_writes shelf.old) input output)
        (counts (H.failed_reads shelf.new) (H.failed_writes shelf.new) input output)
        (given (map plain_built) result) }
    ensures count { IfOk result (λ them. length them ≡ length tasks.now) }
    ensures read { IfOk result (All IsRead) }
    ensures files { H.holds shelf.new ≡ H.holds shelf.old }
    ensures writes { H.failed_writes shelf.new ≡ H.failed_writes shelf.old }
{
    let mut built = Items::new(alloc);
    for task in tasks {
        if let Err(refused) = read_entry(alloc, shelf, task, &mut built) {
            return Err(refused);
        }
    }
    Ok(built)
}

// Puts one more task behind those that were read.
fn read_entry<H: Shelf>(
    alloc: Global,
    shelf: &mut H,
    task: &TaskEntry,
    built: &mut Items<BuiltTask>,
) -> Result<(), Refusal>
    requires { IsNamedInUtf8 task.now }
    ensures answer { (left out : Option (List ℕ)) (input output : ℕ) → Does (entry (map plain_built built.old) task.now)
        (held (H.holds shelf.old) left out) (held (H.holds shelf.new) left out)
        (counts (H.failed_reads shelf.old) (H.failed_writes shelf.old) input output)
        (counts (H.failed_reads shelf.new) (H.failed_writes shelf.new) input output)
        (given (λ u. map plain_built built.new) result) }
    ensures count { OnOk result (length built.new ≡ length built.old + 1) }
    ensures read { All IsRead built.old → OnOk result (All IsRead built.new) }
    ensures files { H.holds shelf.new ≡ H.holds shelf.old }
    ensures writes { H.failed_writes shelf.new ≡ H.failed_writes shelf.old }
{
    let it = match read_task(alloc, shelf, file_of(task)) {
        Ok(it) => it,
        Err(refused) => return Err(refused),
    };
    match built.push(it) {
        Ok(()) => Ok(()),
        Err(_memory) => Err(Refusal::Memory),
    }
}

// The name of a task's file.
fn file_of(task: &TaskEntry) -> &str
    requires { IsNamedInUtf8 task.now }
    ensures { result.now ≡ task.now.file }
{
    match str::from_utf8(task.file.as_slice()) {
        Ok(file) => file,
        Err(_never) => "",
    }
}
