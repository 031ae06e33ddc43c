//! From the file of a project to the bytes of its image.
#![tactic(auto)]

pub mod made;

pub use made::build;
