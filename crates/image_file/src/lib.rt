//! The image of a file.
#![tactic(auto)]

pub mod read;

pub use read::read_image;
