//! The clocks of a cluster's replicas: which of them may act, and when a cycle is over.
#![tactic(auto)]

ghost use Rattle.cluster_clocks.specs.Members.{ActsAreEnabled, OversAreOver};
ghost use Rattle.cluster_clocks.specs.Progress.{SomeMayAct};

pub mod clock;

pub use clock::{Clock, is_over, may_act};

#[cfg(test)]
mod tests;

/// What the clocks of a cluster's replicas, A and B of each unit in turn, tell of it: a replica may act exactly
/// where an event of it is enabled, and the cycle is over exactly where all that run have come to its end.
pub fn clocks_are_members()
    ensures acts { ActsAreEnabled }
    ensures overs { OversAreOver }
{}

/// While some replicas run and the cycle isn't over, some replica may act: the one with the least clock.
pub fn some_may_act()
    ensures { SomeMayAct }
{}
