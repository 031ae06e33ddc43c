//! Tables as text on the output, as a stage.
#![tactic(auto)]

pub mod print;

pub use print::print_tables;
