//! The parts of a replica's tick, each exactly the part of the model.
#![tactic(auto)]

pub mod close;
pub mod fall;
pub mod put;
pub mod show;
pub mod start;
pub mod take;

pub use close::close_job;
pub use fall::fall_silent;
pub use put::put_word;
pub use show::show_outputs;
pub use start::open_job;
pub use take::take_frames;
