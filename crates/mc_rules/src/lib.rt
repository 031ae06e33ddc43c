//! The rules that a raw tree must keep: the fault at a site of the tree, the first of several faults, and that a task
//! without a fault is numbered to a checked one.
#![tactic(auto)]

mod fault;
mod law;
mod rules;

pub use fault::earlier;
pub use law::checked_tasks;
pub use rules::{
    adds, bound, calls, constant, counts, crosses, declares, ends, indexed, marks, needs, plain,
    stands, widths,
};
