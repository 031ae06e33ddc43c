//! Where a project file has a fault, and of which kind.
ghost use Rattle.std.specs.Prelude.{◌≡◌};
ghost use Rattle.refusals.specs.Words.{project_kind_text, section_text};

/// A section of a project file.
#[derive(Clone, Copy, Debug, PartialEq, Eq)]
pub enum Section {
    /// The top of the file.
    Top,
    /// The table `cluster`.
    Cluster,
    /// The tables `task`.
    Task,
    /// The tables `transaction`.
    Transaction,
    /// The tables `edge`.
    Edge,
    /// The tables `sensor`.
    Sensor,
    /// The tables `actuator`.
    Actuator,
}

impl Section {
    /// Its name, as it is printed.
    pub fn text(self) -> &'static [u8]
        ensures { result.now ≡ section_text self }
    {
        match self {
            Section::Top => b"top",
            Section::Cluster => b"cluster",
            Section::Task => b"task",
            Section::Transaction => b"transaction",
            Section::Edge => b"edge",
            Section::Sensor => b"sensor",
            Section::Actuator => b"actuator",
        }
    }
}

/// An entry of a section.
#[derive(Clone, Copy, Debug, PartialEq, Eq)]
pub struct Place {
    /// The section.
    pub section: Section,
    /// The number of the entry in it, from 0.
    pub entry: u32,
}

/// What a project file that is a document breaks.
#[derive(Clone, Copy, Debug, PartialEq, Eq)]
pub enum ProjectKind {
    /// A key that the section doesn't have.
    UnknownKey,
    /// A key that the section must have isn't there.
    MissingKey,
    /// A value of another type than its key's.
    WrongType,
    /// A number outside its limits, a file name's length, or an empty list of units.
    OutOfRange,
    /// A name, or half of a reference, without a name's form.
    BadName,
    /// A name that stood before, or a unit twice in a list.
    TwiceNamed,
    /// More entries than there may be, or none where there must be one.
    TooMany,
    /// The round is shorter than the least one.
    RoundTooShort,
    /// A transaction's deadline is above its period.
    DeadlineAbovePeriod,
    /// A unit number at or above the number of units.
    UnknownUnit,
    /// A name that no task has.
    UnknownTask,
    /// A task in no transaction.
    TaskNotInTransaction,
    /// A task in two transactions, or twice in one.
    TaskInTwoTransactions,
    /// An edge between tasks of two transactions.
    EdgeBetweenTransactions,
    /// The edges of a transaction go in a circle.
    EdgesInCircle,
    /// A port that the task doesn't have.
    UnknownPort,
    /// An in port that nothing feeds.
    PortNeverFed,
    /// An in port that two feed.
    PortFedTwice,
    /// The two ports of an edge have different widths.
    WidthDiffers,
}

impl ProjectKind {
    /// Its words, as they are printed.
    pub fn text(self) -> &'static [u8]
        ensures { result.now ≡ project_kind_text self }
    {
        match self {
            ProjectKind::UnknownKey => b"unknown key",
            ProjectKind::MissingKey => b"missing key",
            ProjectKind::WrongType => b"wrong type",
            ProjectKind::OutOfRange => b"out of range",
            ProjectKind::BadName => b"bad name",
            ProjectKind::TwiceNamed => b"twice named",
            ProjectKind::TooMany => b"too many",
            ProjectKind::RoundTooShort => b"round too short",
            ProjectKind::DeadlineAbovePeriod => b"deadline above period",
            ProjectKind::UnknownUnit => b"unknown unit",
            ProjectKind::UnknownTask => b"unknown task",
            ProjectKind::TaskNotInTransaction => b"task not in a transaction",
            ProjectKind::TaskInTwoTransactions => b"task in two transactions",
            ProjectKind::EdgeBetweenTransactions => b"edge between transactions",
            ProjectKind::EdgesInCircle => b"edges in a circle",
            ProjectKind::UnknownPort => b"unknown port",
            ProjectKind::PortNeverFed => b"port never fed",
            ProjectKind::PortFedTwice => b"port fed twice",
            ProjectKind::WidthDiffers => b"width differs",
        }
    }
}
