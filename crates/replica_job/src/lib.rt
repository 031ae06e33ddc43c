//! The job that a replica has in hand: it runs tick by tick within its limit of cycles, and at its table end it
//! comes to what its whole execution under its greatest number of cycles comes to.
#![tactic(auto)]

pub mod end;
pub mod hand;

pub use end::end_job;
pub use hand::{limit_after, run_to};
