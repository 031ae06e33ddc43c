//! Reads a project, or answers its first fault.
ghost use Rattle.std.specs.Prelude.{All, ◌≡◌, ◌≤◌, IfOk, IfErr, length};
ghost use Rattle.toml.specs.View.{table_view};
ghost use Rattle.project_reader.specs.ProjectOf.{IsNamedInUtf8};
ghost use Rattle.project_reader.specs.Faults.{IsFaultOf, IsProjectOf, IsChecked, IsUnread};

use crate::entries::project_of;
use crate::project::Project;
use mars_base::Memory;
use project_relations::relation_fault::relation_fault;
use project_rows::row_fault::row_fault;
use project_sheet::form_fault::form_fault;
use project_sheet::{Fault, Place, read_sheet};
use std::alloc::Global;
use toml::Table;

/// Why a text is no project.
#[derive(Clone, Copy, Debug, PartialEq, Eq)]
pub enum ProjectFault {
    /// The first fault. Kind 1, a text that is no document, has no place, and each other kind has one.
    Bad { kind: u8, place: Option<Place> },
    /// There was no memory.
    Memory,
}

impl From<Memory> for ProjectFault {
    ghost use Rattle.std.specs.Prelude.{◌≡◌};
    ghost use Rattle.project_reader.specs.declared.read.ProjectFault.{ProjectFault};
    ghost use Rattle.project_reader.specs.declared.read.ProjectFault.TheVariants.{Memory as NoMemory};

    ghost from_gives = { λ _ fault. fault ≡ NoMemory };

    fn from(_error: Memory) -> ProjectFault {
        ProjectFault::Memory
    }
}

/// The project of a document without a fault, or its first fault.
#[derive(Drop)]
enum Checked {
    Good(Project),
    Faulty(Fault),
}

/// The project of a document without a fault, or its first fault.
fn check(alloc: Global, doc: &Table) -> Result<Checked, Memory>
    ensures { IfOk result (IsChecked (table_view doc.now)) }
{
    match form_fault(doc)? {
        Some(fault) => return Ok(Checked::Faulty(fault)),
        None => {}
    }
    let sheet = read_sheet(alloc, doc)?;
    match row_fault(alloc, &sheet)? {
        Some(fault) => return Ok(Checked::Faulty(fault)),
        None => {}
    }
    match relation_fault(alloc, &sheet)? {
        Some(fault) => return Ok(Checked::Faulty(fault)),
        None => {}
    }
    Ok(Checked::Good(project_of(alloc, &sheet)?))
}

/// The answer for a text that toml doesn't read.
fn unread(error: toml::de::Error) -> ProjectFault
    ensures { IsUnread error result }
{
    if error.is_memory() {
        ProjectFault::Memory
    } else {
        ProjectFault::Bad {
            kind: 1,
            place: None,
        }
    }
}

/// The project of a file's text, where none of the rules 1 to 16 fails, or else the first fault: of the
/// least kind, then in the first section in the order top, cluster, task, transaction, edge, sensor,
/// actuator, then of the least entry. The text is a document exactly where it is UTF-8 and toml's own
/// definition gives it one. Each file that is answered is UTF-8.
pub fn read_project(alloc: Global, bytes: &[u8]) -> Result<Project, ProjectFault>
    ensures ok { IfOk result (IsProjectOf bytes.now) }
    ensures files { IfOk result (λ project. All IsNamedInUtf8 project.tasks) }
    ensures fault { IfErr result (IsFaultOf bytes.now) }
{
    let doc = match toml::table_from_slice(alloc, bytes) {
        Ok(doc) => doc,
        Err(error) => return Err(unread(error)),
    };
    match check(alloc, &doc)? {
        Checked::Good(project) => Ok(project),
        Checked::Faulty(fault) => Err(ProjectFault::Bad {
            kind: fault.kind.number(),
            place: Some(fault.place),
        }),
    }
}
