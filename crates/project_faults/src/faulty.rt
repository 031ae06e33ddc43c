//! A fault of a project as a refusal.
ghost use Rattle.std.specs.Prelude.{◌≡◌};
ghost use Rattle.project_faults.specs.Faulty.{kind_of, section_of, place_of, faulty};

use mars_base::Text;
use project_sheet::{Fault, Kind, Place, Section};
use refusals::Refusal;

/// The refusal for a fault of the project in the file of this name.
pub fn fault_of(project: Text, fault: Fault) -> Refusal
    ensures { result ≡ faulty project fault }
{
    Refusal::Fault(refusals::Fault::Project {
        project,
        place: place_of(fault.place),
        kind: kind_of(fault.kind),
    })
}

// A place as it is printed.
fn place_of(place: Place) -> refusals::Place
    ensures { result ≡ place_of place }
{
    refusals::Place {
        section: section_of(place.section),
        entry: place.entry,
    }
}

// A section as it is printed.
fn section_of(section: Section) -> refusals::Section
    ensures { result ≡ section_of section }
{
    match section {
        Section::Top => refusals::Section::Top,
        Section::Cluster => refusals::Section::Cluster,
        Section::Task => refusals::Section::Task,
        Section::Transaction => refusals::Section::Transaction,
        Section::Edge => refusals::Section::Edge,
        Section::Sensor => refusals::Section::Sensor,
        Section::Actuator => refusals::Section::Actuator,
    }
}

// A kind as it is printed.
fn kind_of(kind: Kind) -> refusals::ProjectKind
    ensures { result ≡ kind_of kind }
{
    match kind {
        Kind::UnknownKey => refusals::ProjectKind::UnknownKey,
        Kind::MissingKey => refusals::ProjectKind::MissingKey,
        Kind::WrongType => refusals::ProjectKind::WrongType,
        Kind::OutOfRange => refusals::ProjectKind::OutOfRange,
        Kind::BadName => refusals::ProjectKind::BadName,
        Kind::TwiceNamed => refusals::ProjectKind::TwiceNamed,
        Kind::TooMany => refusals::ProjectKind::TooMany,
        Kind::RoundTooShort => refusals::ProjectKind::RoundTooShort,
        Kind::DeadlineAbovePeriod => refusals::ProjectKind::DeadlineAbovePeriod,
        Kind::UnknownUnit => refusals::ProjectKind::UnknownUnit,
        Kind::UnknownTask => refusals::ProjectKind::UnknownTask,
        Kind::TaskNotInTransaction => refusals::ProjectKind::TaskNotInTransaction,
        Kind::TaskInTwoTransactions => refusals::ProjectKind::TaskInTwoTransactions,
        Kind::EdgeBetweenTransactions => refusals::ProjectKind::EdgeBetweenTransactions,
        Kind::EdgesInCircle => refusals::ProjectKind::EdgesInCircle,
        Kind::UnknownPort => refusals::ProjectKind::UnknownPort,
        Kind::PortNeverFed => refusals::ProjectKind::PortNeverFed,
        Kind::PortFedTwice => refusals::ProjectKind::PortFedTwice,
        Kind::WidthDiffers => refusals::ProjectKind::WidthDiffers,
    }
}
