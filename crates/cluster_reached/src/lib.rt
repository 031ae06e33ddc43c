//! The states that a cluster comes to over every list of enabled events, and what holds of each of them.
#![tactic(auto)]

ghost use Rattle.cluster_reached.specs.Laws.{ReachedLeads, ReachedHolds};

/// The first state of a cluster is reached, and from each that is reached every event that may come, with a line that
/// fits, leads to one that is. Of a cluster of valid tables each reached state has its lists, clocks and slots as the
/// next event needs them, at most one slot sending, and no silent replica with an event; and as long as no unit is
/// lost it agrees with the graph's run from the states of the cycle's start over its line.
pub fn reached_states()
    ensures leads { ReachedLeads }
    ensures holds { ReachedHolds }
{}
