//! Reads the project of a file, or tells its first fault.
ghost use Rattle.std.specs.Prelude.{◌≡◌, ◌⊎◌, ℕ, List, Option, Err, All, IfOk};
ghost use Rattle.project_file.specs.Gives.{ProjectGives, project_stage};
ghost use Rattle.project_file.specs.Helpers.{IsToldAs};
ghost use Rattle.project_reader.specs.ProjectOf.{IsNamedInUtf8};
ghost use Rattle.project_rules.specs.Kept.{KeepsProject};
ghost use Rattle.refusals.specs.Causes.{counts};
ghost use Rattle.stages.specs.Stage.{Does};
ghost use Rattle.stages.specs.World.{held};

use mars_base::{Shelf, Text};
use project_faults::{fault_of, kind_numbered};
use project_reader::{Project, ProjectFault, read_project};
use project_sheet::Fault;
use refusals::Refusal;
use stages::read_file;
use std::alloc::Global;

// How many bytes a project file has at most.
const LONGEST: u64 = 1_048_576;

/// The project of a file of at most 1,048,576 bytes. Refused where the file can't be read, isn't there or is
/// longer, where it breaks a rule of projects that speaks of the file alone, and where there is no memory.
pub fn read_project_file<H: Shelf>(
    alloc: Global,
    shelf: &mut H,
    file: &str,
) -> Result<Project, Refusal>
    ensures answer { (left out : Option (List ℕ)) (input output : ℕ) → Does (project_stage file.now)
        (held (H.holds shelf.old) left out) (held (H.holds shelf.new) left out)
        (counts (H.failed_reads shelf.old) (H.failed_writes shelf.old) input output)
        (counts (H.failed_reads shelf.new) (H.failed_writes shelf.new) input output)
        result }
    ensures kept { IfOk result KeepsProject }
    ensures named { IfOk result (λ p. All IsNamedInUtf8 p.tasks) }
    ensures files { H.holds shelf.new ≡ H.holds shelf.old }
    ensures writes { H.failed_writes shelf.new ≡ H.failed_writes shelf.old }
{
    let bytes = match read_file(alloc, shelf, file, LONGEST) {
        Ok(bytes) => bytes,
        Err(refused) => return Err(refused),
    };
    read_text(alloc, file, &bytes)
}

// The project of a text, or the first fault of its file.
fn read_text(alloc: Global, file: &str, bytes: &[u8]) -> Result<Project, Refusal>
    ensures answer { ProjectGives file.now bytes.now result ⊎ (result ≡ Err Refusal.Memory) }
    ensures kept { IfOk result KeepsProject }
    ensures named { IfOk result (λ p. All IsNamedInUtf8 p.tasks) }
{
    let Ok(name) = Text::from_slice(alloc, file.as_bytes()) else {
        return Err(Refusal::Memory);
    };
    match read_project(alloc, bytes) {
        Ok(project) => Ok(project),
        Err(fault) => Err(refusal_of(name, fault)),
    }
}

// The refusal for a fault of a text.
fn refusal_of(name: Text, fault: ProjectFault) -> Refusal
    ensures { IsToldAs name fault result }
{
    match fault {
        ProjectFault::Memory => Refusal::Memory,
        ProjectFault::Bad { place: None, .. } => {
            Refusal::Fault(refusals::Fault::NotToml { project: name })
        }
        ProjectFault::Bad {
            kind,
            place: Some(place),
        } => fault_of(
            name,
            Fault {
                kind: kind_numbered(kind),
                place,
            },
        ),
    }
}
