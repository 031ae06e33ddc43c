//! A task and its code as fields.
#![tactic(auto)]

pub mod parts;
pub mod programs;

pub use parts::{TaskPart, TaskParts};
pub use programs::{code_at, put_code};
