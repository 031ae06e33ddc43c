//! Names that stand twice in a list, found in one walk.
#![tactic(auto)]

pub mod named;
pub mod repeat;

pub use named::Named;
pub use repeat::first_repeat;
