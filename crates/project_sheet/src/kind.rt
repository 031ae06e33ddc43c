//! The kinds of faults, and the fault that comes first.
ghost use Rattle.std.specs.Prelude.{◌≡◌, Option, option_map};
ghost use Rattle.project_sheet.specs.Kind.{number_of_kind};

use crate::place::Place;

/// A kind of fault of a project, by rising number from 2 on. Kind 1 is a text that is no document.
#[derive(Clone, Copy, Debug, PartialEq, Eq)]
pub enum Kind {
    /// A key that its section hasn't.
    UnknownKey,
    /// A key that must be there and isn't.
    MissingKey,
    /// A value of another type than its key's, or an entry that is no table.
    WrongType,
    /// A number or a length out of its limits, or an empty list of units.
    OutOfRange,
    /// A name without its form, or a reference that isn't two names with one dot between them.
    BadName,
    /// A name that stands before in its section, or a unit twice in one list.
    TwiceNamed,
    /// More or fewer entries than a section may have, or a transaction without a task.
    TooMany,
    /// A round that is shorter than the least round.
    RoundTooShort,
    /// A deadline above its period.
    DeadlineAbovePeriod,
    /// A unit that the cluster hasn't.
    UnknownUnit,
    /// A name of a task that there isn't.
    UnknownTask,
    /// A task that no transaction names.
    TaskNotInTransaction,
    /// A task that two transactions name, or one twice.
    TaskInTwoTransactions,
    /// An edge between tasks of two transactions.
    EdgeBetweenTransactions,
    /// A transaction whose edges go in a circle.
    EdgesInCircle,
    /// A port that its task hasn't.
    UnknownPort,
    /// A task with an in port that nothing feeds.
    PortNeverFed,
    /// A task with an in port that is fed twice.
    PortFedTwice,
    /// An edge between ports of two widths.
    WidthDiffers,
}

impl Kind {
    /// Its number, 2 to 20.
    pub fn number(self) -> u8
        ensures { result ≡ number_of_kind self }
    {
        match self {
            Kind::UnknownKey => 2,
            Kind::MissingKey => 3,
            Kind::WrongType => 4,
            Kind::OutOfRange => 5,
            Kind::BadName => 6,
            Kind::TwiceNamed => 7,
            Kind::TooMany => 8,
            Kind::RoundTooShort => 9,
            Kind::DeadlineAbovePeriod => 10,
            Kind::UnknownUnit => 11,
            Kind::UnknownTask => 12,
            Kind::TaskNotInTransaction => 13,
            Kind::TaskInTwoTransactions => 14,
            Kind::EdgeBetweenTransactions => 15,
            Kind::EdgesInCircle => 16,
            Kind::UnknownPort => 17,
            Kind::PortNeverFed => 18,
            Kind::PortFedTwice => 19,
            Kind::WidthDiffers => 20,
        }
    }
}

/// A fault of a project: what is wrong, and where.
#[derive(Clone, Copy, Debug, PartialEq, Eq)]
pub struct Fault {
    pub kind: Kind,
    pub place: Place,
}
