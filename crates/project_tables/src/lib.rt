//! From the file of a project to its tables, within a budget.
#![tactic(auto)]

pub mod plan;

pub use plan::{ProjectPlan, plan_project};
