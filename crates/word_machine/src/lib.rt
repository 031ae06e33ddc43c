//! The word machine: a processor of verified code.
#![tactic(auto)]

mod load;
pub mod machine;
mod operands;
mod places;
mod registers;
#[cfg(test)]
mod tests;

pub use machine::Machine;
pub use processor::{Cpu, Turn};
pub use word_code::{CellShape, Code, Instr, Slot, Verified, cost};
