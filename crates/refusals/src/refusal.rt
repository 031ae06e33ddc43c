//! Why the program refuses.
ghost use Rattle.std.specs.Prelude.{◌≡◌};
ghost use Rattle.refusals.specs.Status.{status_of_result};

use crate::fault::Fault;
use mars_base::Text;
use thiserror::Error;

/// Why the program refuses. Each has one exit status and one line on the error output.
#[derive(Debug, Drop, Error)]
pub enum Refusal {
    /// Status 1: there was no memory.
    #[error("no memory")]
    Memory,
    /// Status 2: the words are no command.
    #[error("usage")]
    Usage,
    /// Status 3: a source or a project has a fault.
    #[error("source or project fault")]
    Fault(Fault),
    /// Status 4: the search spent this budget.
    #[error("budget {0} spent")]
    Spent(u32),
    /// Status 5: there is no table.
    #[error("no table")]
    NoTable,
    /// Status 6: the file of this name could not be read, or without a name the input.
    #[error("read fault")]
    ReadFault(Option<Text>),
    /// Status 7: the file of this name could not be written, or without a name the output.
    #[error("write fault")]
    WriteFault(Option<Text>),
    /// Status 8: the input line of this number, from 1, isn't in the grammar, or is one too many.
    #[error("bad input line {0}")]
    BadInput(u64),
    /// Status 9: the script's line of this number, from 1, isn't in the grammar.
    #[error("bad script line {0}")]
    BadScript(u32),
    /// Status 10: the image isn't one that a build answers.
    #[error("bad image")]
    BadImage(ImageBad),
    /// Status 11: an instance broke.
    #[error("broken")]
    Broken,
    /// Status 12: both replicas of a unit are silent.
    #[error("lost")]
    Lost,
    /// Status 13: the file of this name is too long, or without a name the image to be written.
    #[error("too long")]
    TooLong(Option<Text>),
}

/// What is bad in an image, first what comes first.
#[derive(Clone, Copy, Debug, PartialEq, Eq)]
pub enum ImageBad {
    /// The field at this offset isn't whole or is refused by itself, or bytes follow the last field.
    Byte(u32),
    /// The net isn't sound.
    Net,
    /// The code of the task of this number, from 0, isn't verified.
    Code(u16),
    /// The table breaks the rule of this number, from 1.
    Table(u8),
}

/// The exit status of an answer.
pub fn status(answer: &Result<(), Refusal>) -> u8
    ensures { result ≡ status_of_result answer.now }
{
    match answer {
        Ok(()) => 0,
        Err(Refusal::Memory) => 1,
        Err(Refusal::Usage) => 2,
        Err(Refusal::Fault(_)) => 3,
        Err(Refusal::Spent(_)) => 4,
        Err(Refusal::NoTable) => 5,
        Err(Refusal::ReadFault(_)) => 6,
        Err(Refusal::WriteFault(_)) => 7,
        Err(Refusal::BadInput(_)) => 8,
        Err(Refusal::BadScript(_)) => 9,
        Err(Refusal::BadImage(_)) => 10,
        Err(Refusal::Broken) => 11,
        Err(Refusal::Lost) => 12,
        Err(Refusal::TooLong(_)) => 13,
    }
}
