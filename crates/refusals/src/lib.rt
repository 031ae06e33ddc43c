//! Why the program refuses: the status and the line of each refusal.
#![tactic(auto)]

pub mod fault;
pub mod line;
pub mod project;
pub mod refusal;

pub use fault::Fault;
pub use line::{complain, say};
pub use project::{Place, ProjectKind, Section};
pub use refusal::{ImageBad, Refusal, status};
