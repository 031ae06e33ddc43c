//! The first silence of each replica: looked up once, and then compared with a moment at each event.
#![tactic(auto)]

pub mod moment;

pub use moment::{Moment, first_silence, is_reached};
