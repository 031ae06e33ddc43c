//! The events of a cycle in their order.
#![tactic(auto)]

ghost use Rattle.cycle_events.specs.Order.{CycleOrder};

/// What holds of the events of a cycle, whatever the paces and the silences: each of them may come where it
/// comes, there are at most as many as all replicas have ticks together, and after them each replica is silent
/// or has come to the cycle's end. Where some unit isn't lost in the cycle it is over then, and the next may
/// begin. The cluster's first state is one with which a cycle may begin.
pub fn cycle_order()
    ensures { CycleOrder }
{}
