//! The ports of a checked task, as a project names them.
#![tactic(auto)]

pub mod ports;

pub use ports::{TaskPorts, ports_of};

#[cfg(test)]
mod tests;
