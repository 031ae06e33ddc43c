//! Lists of decisions that grow and shrink by one: the choices after a list, and what each of them leaves.
#![tactic(auto)]

pub mod cursor;
mod fits;
mod front;
mod into_tables;
mod latest;
mod moves;
pub mod pending;
mod places;
pub mod prefix;
mod rooms;
pub mod state;

pub use cursor::Cursor;
pub use prefix::Prefix;
