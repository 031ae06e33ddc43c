//! The run text of a cycle, and the closing lines of a run, written through a buffer from what a cluster has come to.
#![tactic(auto)]

ghost use Rattle.cycle_text.specs.Laws.{LinesAreText};

pub mod outcome;
pub mod text;

pub use outcome::Outcome;
pub use text::{write_broken_jobs, write_closing, write_outs};

/// The lines that are written of a cycle's outputs, of its broken jobs and of a run's end are those of the run text,
/// where each actuator gets the words of what each job came to, the broken jobs are those that broke, and each task's
/// most cycles are known.
pub fn lines_are_text()
    ensures { LinesAreText }
{}

#[cfg(test)]
mod tests;
