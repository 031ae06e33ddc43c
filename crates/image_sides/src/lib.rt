//! The tasks of an image taken apart: what the net has of them, their codes, and their bounds.
#![tactic(auto)]

pub mod codes;
pub mod net_tasks;
pub mod ports;
pub mod state;

pub use codes::{CodesFault, verify_codes};
pub use net_tasks::{Sides, split};
pub use ports::are_all_narrow;
pub use state::states_of;
