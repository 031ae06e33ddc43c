//! The units that are lost in a cycle, from the first silence of each replica.
#![tactic(auto)]

ghost use Rattle.lost_units.specs.Laws.{LossesAreText};

pub mod lost;

pub use lost::{is_lost, some_lost, write_lost_units};

/// A unit is lost in a cycle exactly where both its replicas are silent at its last tick, so that the lines which are
/// written are those of run text.
pub fn losses_are_text()
    ensures { LossesAreText }
{}

#[cfg(test)]
mod tests;
