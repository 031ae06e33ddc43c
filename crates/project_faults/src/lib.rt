//! Faults of projects as refusals, with the name of the project's file.
#![tactic(auto)]

pub mod faulty;
pub mod numbered;

pub use faulty::fault_of;
pub use numbered::kind_numbered;

#[cfg(test)]
mod tests;
