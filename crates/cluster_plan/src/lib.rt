//! That what a cluster is set to do follows the graph of its net.
#![tactic(auto)]

ghost use Rattle.cluster_plan.specs.Follows.{GraphResults, SoundPlans};

/// What holds of the plan of valid tables: it is sound, and the results along the graph are those of its jobs.
pub fn plans_follow_graphs()
    ensures sound { SoundPlans }
    ensures results { GraphResults }
{}
