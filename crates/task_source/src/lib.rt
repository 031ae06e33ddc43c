//! The source of a task: from the bytes of its file to the task, its code and its bound, or its fault.
//! It alone names the reader, the translation and what bounds the code.
#![tactic(auto)]

pub mod built;
pub mod source;

pub use built::{BuiltTask, read_task};
