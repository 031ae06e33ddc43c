//! Kinds of faults by their numbers.
ghost use Rattle.std.specs.Prelude.{◌≡◌};
ghost use Rattle.project_sheet.specs.declared.kind.Kind.{Kind as KindData};
ghost use Rattle.project_sheet.specs.Kind.{number_of_kind};

use project_sheet::Kind;

/// The kind with a number from 2 to 20.
pub fn kind_numbered(number: u8) -> Kind
    ensures { (kind : KindData) → number_of_kind kind ≡ number → result ≡ kind }
{
    match number {
        2 => Kind::UnknownKey,
        3 => Kind::MissingKey,
        4 => Kind::WrongType,
        5 => Kind::OutOfRange,
        6 => Kind::BadName,
        7 => Kind::TwiceNamed,
        8 => Kind::TooMany,
        9 => Kind::RoundTooShort,
        10 => Kind::DeadlineAbovePeriod,
        11 => Kind::UnknownUnit,
        12 => Kind::UnknownTask,
        13 => Kind::TaskNotInTransaction,
        14 => Kind::TaskInTwoTransactions,
        15 => Kind::EdgeBetweenTransactions,
        16 => Kind::EdgesInCircle,
        17 => Kind::UnknownPort,
        18 => Kind::PortNeverFed,
        19 => Kind::PortFedTwice,
        _ => Kind::WidthDiffers,
    }
}
