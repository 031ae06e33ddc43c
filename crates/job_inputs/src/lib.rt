//! The inputs of a job, put together when it starts: from the line's sensor words, the outputs of its own unit's
//! jobs, and the messages that were taken.
#![tactic(auto)]

pub mod look;
pub mod ports;
pub mod sensors;

pub use ports::gather;
pub use sensors::sensor_starts;
