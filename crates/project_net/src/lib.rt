//! The net of a project, or the first fault that its ports have.
#![tactic(auto)]

pub mod bound;

pub use bound::bind_project;
