//! All that a replica looks up, made once: its unit and side, the rounds of the bus, and what is due for its unit.
#![tactic(auto)]

pub mod duties;

pub use duties::Duties;
