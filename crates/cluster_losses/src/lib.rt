//! Laws of silences and of plants: what the cluster's model says of a script, and which plants its agreement holds of.
#![tactic(auto)]

ghost use Rattle.cluster_losses.specs.Losses.{FallsWhereNotRunning, LostWhereBothFall};
ghost use Rattle.cluster_losses.specs.Plants.{PlantsAgree, PlantsAreSet};

use processor::Cpu;

/// The law that the model's replicas fall silent exactly where the script says that they don't run, and that a unit is
/// lost in a cycle exactly where both its replicas have fallen by its last tick.
pub fn silences_are_the_script()
    ensures falls { FallsWhereNotRunning }
    ensures lost { LostWhereBothFall }
{}

/// The law that each plant in order, whose programs fit it and have words alone, keeps the premise of the cluster's
/// agreement with the graph: its programs under their greatest numbers of cycles fit its tasks. So over every list of
/// enabled events, as long as no unit is lost, its cluster agrees with the plant's run.
pub fn plants_are_set<C: Cpu>()
    ensures set { PlantsAreSet C.ins_of C.outs_of C.states_of C.execution C.has_words }
    ensures agree { PlantsAgree C.ins_of C.outs_of C.states_of C.execution C.has_words }
{}
