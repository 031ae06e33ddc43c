//! What holds of a cluster over every list of events.
#![tactic(auto)]

ghost use Rattle.cluster_agreement.specs.Agreement.{Agreement};

/// What holds of a cluster of valid tables after every list of enabled events, over all its cycles, as long as
/// no unit is lost: each job that a replica has ended or skipped has its result along the graph, from the
/// states of the cycle's start and its line. At a cycle's end a running replica of each unit has ended or
/// skipped all jobs of its unit, the outputs given are those of exactly the jobs that are done, and the next
/// cycle starts from the states that the graph's run leaves.
pub fn agreement()
    ensures { Agreement }
{}
