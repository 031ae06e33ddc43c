//! The ticks that jobs take on units, in the order of time, so that the first free ones are found over those alone that
//! end later than a job may start.
#![tactic(auto)]

mod row;
pub mod units;

pub use units::UnitTicks;
