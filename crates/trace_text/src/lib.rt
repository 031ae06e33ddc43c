//! The lines of a trace, written through a buffer from the effects of an event and from what a cluster has come to.
#![tactic(auto)]

ghost use Rattle.trace_text.specs.Laws.{LinesAreTrace};

pub mod job_line;
pub mod line;
pub mod place;
pub mod text;

pub use place::Place;
pub use text::write_effects;

/// The lines that are written of an event's effects are those of the trace, where the tables end each job when it has
/// ended and each actuator gets the words of what its job has given.
pub fn lines_are_trace()
    ensures { LinesAreTrace }
{}
