//! A cluster of replicated units as plain lists: what it is set to do, what each replica does at a tick, and what one event
//! makes of it. Definitions alone.
#![tactic(auto)]

pub mod effect;

pub use effect::Effect;
