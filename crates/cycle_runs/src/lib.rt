//! A run over the lines of an input, cycle by cycle, for whatever runs cycles: its text and how it ends.
#![tactic(auto)]

pub mod closing;
pub mod cycles;
pub mod ended;
pub mod fault;
pub mod run;

pub use cycles::Cycles;
pub use ended::CycleEnd;
pub use fault::RunFault;
pub use run::run_cycles;
