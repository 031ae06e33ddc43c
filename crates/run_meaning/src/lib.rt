//! The text of a run in the meaning of a source project alone.
#![tactic(auto)]

ghost use Rattle.run_meaning.specs.Meaning.{RunMeaning};

/// What holds of every plant that carries a source project, under any script and over any lines that fit it: the
/// text of the cycles of its run, and of a cluster that runs by it, is that of the source, up to the first cycle
/// in which a unit is lost or a job is broken, and they end alike. Each output comes above its job's release,
/// and at its deadline or before.
pub fn run_meaning()
    ensures { RunMeaning }
{}
