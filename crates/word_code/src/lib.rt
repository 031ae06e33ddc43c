//! The code of the word machine: its instructions, the typing rules, what an execution of code comes to, and
//! free runs.
#![tactic(auto)]

pub mod code;
mod ranges;
pub mod verified;

pub use code::{CellShape, Code, Instr, Slot, cost};
pub use verified::Verified;
