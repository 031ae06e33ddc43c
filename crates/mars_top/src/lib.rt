//! The program `mars` as one call over the traits of the outside.
#![tactic(auto)]

pub mod asked;
pub mod top;

pub use build_command::run_build;
pub use image_build::build;
pub use plan_command::run_plan;
pub use refusals::{Fault, ImageBad, Place, ProjectKind, Refusal, Section, say, status};
pub use show_command::run_show;
pub use task_command::run_task;
pub use top::mars;
