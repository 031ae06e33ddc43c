//! The end of a build: the image's bytes under its name, and then the report.
#![tactic(auto)]

pub mod store;

pub use store::store_image;

#[cfg(test)]
mod tests;
