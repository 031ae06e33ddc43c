//! The replicas of a cluster in their seats, whatever makes them: what a cluster asks of each.
#![tactic(auto)]

pub mod seat;
pub mod turn;

pub use seat::Seat;
pub use turn::turn_all;
