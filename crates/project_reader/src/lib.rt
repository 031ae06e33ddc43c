//! Reads the text of a project file, or answers its first fault.
#![tactic(auto)]

mod entries;
mod mask;
pub mod project;
pub mod read;

pub use project::{Outlet, PortRef, Project, TaskEntry, Wire};
pub use read::{ProjectFault, read_project};

#[cfg(test)]
mod tests;
