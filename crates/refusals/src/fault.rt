//! Faults of sources and projects, each with the name of its file.
ghost use Rattle.std.specs.Prelude.{◌≡◌};
ghost use Rattle.refusals.specs.Words.{kind_text};

use crate::project::{Place, ProjectKind};
use mars_base::{Span, Text};
use mc_tree::Kind;

/// A fault of a source or of a project, with the name of the file.
#[derive(Debug, Drop)]
pub enum Fault {
    /// The byte at this offset begins no token.
    BadByte {
        file: Text,
        at: u32,
    },
    /// The token of this number, from 0, is the first with which the tokens begin no task.
    Syntax {
        file: Text,
        token: u32,
    },
    /// A rule of the language is broken at these bytes.
    Rule {
        file: Text,
        span: Span,
        kind: Kind,
    },
    /// The source is no text that is built yet.
    NotBuilt {
        file: Text,
    },
    /// The code has more instructions than its addresses can count: this many.
    CodeTooLong {
        file: Text,
        length: u64,
    },
    /// No execution of the task ends.
    NoPath {
        file: Text,
    },
    /// An execution may take more cycles than the bound can count.
    MaxtTooLong {
        file: Text,
    },
    /// The project is no document.
    NotToml {
        project: Text,
    },
    /// A rule of projects is broken at this entry.
    Project {
        project: Text,
        place: Place,
        kind: ProjectKind,
    },
    /// The cycle of the project would have this many ticks.
    Cycle {
        project: Text,
        ticks: u64,
    },
    /// The project has this many jobs.
    Jobs {
        project: Text,
        count: u64,
    },
    /// A cycle of the project has this many sensor words.
    SensorWords {
        project: Text,
        count: u64,
    },
}

/// The words of a rule's kind, as they are printed.
pub fn kind_words(kind: Kind) -> &'static [u8]
    ensures { result.now ≡ kind_text kind }
{
    match kind {
        Kind::TwiceNamed => b"twice named",
        Kind::UnknownName => b"unknown name",
        Kind::NotAnArray => b"not an array",
        Kind::IsAnArray => b"is an array",
        Kind::WrongWidth => b"wrong width",
        Kind::ConstantOutOfRange => b"constant out of range",
        Kind::Recursion => b"recursion",
        Kind::WrongArgumentCount => b"wrong argument count",
        Kind::MarkOutsideItsScope => b"mark outside its scope",
        Kind::MarkOfAnOuterScope => b"mark of an outer scope",
        Kind::NotALoop => b"not a loop",
        Kind::ZeroBound => b"zero bound",
        Kind::BoundTooLarge => b"bound too large",
        Kind::TooMany => b"too many",
        Kind::TooManyCounters => b"too many counters",
        Kind::ExpressionTooDeep => b"expression too deep",
        Kind::NoBody => b"no body",
    }
}
