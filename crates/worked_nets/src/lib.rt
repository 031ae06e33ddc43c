//! Nets given as rows of constants, the nets of the worked projects, and the graph of such a net. They are for tests.
#![tactic(auto)]

pub mod graphs;
pub mod rows;
pub mod worked;

pub use graphs::graph_of;
pub use rows::{edge_of, net_of, plug_of, shape_of, task_of};
pub use worked::{one_is_free, one_task, plant, two_on_one_unit, two_tasks};
