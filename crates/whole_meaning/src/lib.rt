//! The whole text of a run in the meaning of a source project, with the most cycles of each task.
#![tactic(auto)]

ghost use Rattle.whole_meaning.specs.Whole.{WholeMeaning};

/// What holds of every plant that carries a source project, under any script and over any lines that fit it: the
/// whole text of its run, and of a cluster that runs by it, is that of the source; the most cycles that it tells of a
/// task are within its bound; and an instance that the source gives is never cut.
pub fn whole_meaning()
    ensures { WholeMeaning }
{}
