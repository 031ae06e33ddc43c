//! The text of a source.
ghost use Rattle.std.specs.Prelude.{◌≡◌, ◌⊎◌, ◌≤◌, ℕ, List, Option, Err, length, IfOk};
ghost use Rattle.mc_tree.specs.CheckedTask.{IsCheckedTask};
ghost use Rattle.refusals.specs.Causes.{counts};
ghost use Rattle.stages.specs.Stage.{Does};
ghost use Rattle.stages.specs.World.{held};
ghost use Rattle.task_source.specs.Source.{SourceGives, source};

use mars_base::{Shelf, Text};
use mc_check::{CheckFault, check};
use mc_lex::{LexFault, lex};
use mc_reader::{ReadFault, read};
use mc_tree::Task;
use refusals::{Fault, Refusal};
use stages::read_file;
use std::alloc::Global;

// How many bytes a source has at most.
const LONGEST: u64 = 65_536;

/// The checked task of a file.
pub fn read_source<H: Shelf>(alloc: Global, shelf: &mut H, file: &str) -> Result<Task, Refusal>
    ensures answer { (left out : Option (List ℕ)) (input output : ℕ) → Does (source file.now)
        (held (H.holds shelf.old) left out) (held (H.holds shelf.new) left out)
        (counts (H.failed_reads shelf.old) (H.failed_writes shelf.old) input output)
        (counts (H.failed_reads shelf.new) (H.failed_writes shelf.new) input output)
        result }
    ensures checked { IfOk result IsCheckedTask }
    ensures files { H.holds shelf.new ≡ H.holds shelf.old }
    ensures writes { H.failed_writes shelf.new ≡ H.failed_writes shelf.old }
{
    let bytes = match read_file(alloc, shelf, file, LONGEST) {
        Ok(bytes) => bytes,
        Err(refused) => return Err(refused),
    };
    read_text(alloc, file, &bytes)
}

// The checked task of a text, or the fault of its file.
fn read_text(alloc: Global, file: &str, bytes: &[u8]) -> Result<Task, Refusal>
    requires { length bytes.now ≤ 65536 }
    ensures answer { SourceGives file.now bytes.now result ⊎ (result ≡ Err Refusal.Memory) }
    ensures checked { IfOk result IsCheckedTask }
{
    let Ok(name) = Text::from_slice(alloc, file.as_bytes()) else {
        return Err(Refusal::Memory);
    };
    let tokens = match lex(alloc, bytes) {
        Ok(tokens) => tokens,
        Err(LexFault::Memory) => return Err(Refusal::Memory),
        Err(LexFault::Bad(at)) => return Err(Refusal::Fault(Fault::BadByte { file: name, at })),
    };
    let tree = match read(alloc, bytes, &tokens) {
        Ok(tree) => tree,
        Err(ReadFault::Memory) => return Err(Refusal::Memory),
        Err(ReadFault::Syntax(token)) => {
            return Err(Refusal::Fault(Fault::Syntax { file: name, token }));
        }
    };
    match check(alloc, &tree) {
        Ok(task) => Ok(task),
        Err(CheckFault::Memory) => Err(Refusal::Memory),
        Err(CheckFault::Bad { kind, span }) => Err(Refusal::Fault(Fault::Rule {
            file: name,
            span,
            kind,
        })),
    }
}
