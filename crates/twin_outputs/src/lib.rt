//! What is shown of a replica's tick beside its twin, the other replica of its unit: the outputs of a job are shown with
//! its first end alone.
#![tactic(auto)]

pub mod show;

pub use show::{other, show_beside};
