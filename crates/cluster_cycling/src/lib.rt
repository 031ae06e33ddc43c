//! A cluster's run over lines, cycle by cycle, and that its text is the run text, or that of a trace.
#![tactic(auto)]

ghost use Rattle.cluster_cycling.specs.Laws.{CyclingIsText};

/// Whoever runs a cluster of valid tables cycle by cycle, and writes of each cycle its text, writes the whole run text
/// of the cluster, or the whole text of its trace, over any lines and under any script, and ends as these end.
pub fn cycling_is_text()
    ensures { CyclingIsText }
{}
