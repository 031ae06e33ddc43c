//! That the whole text of a cluster's run, with the cycles that it has seen, is the text along its net.
#![tactic(auto)]

ghost use Rattle.seen_cycles.specs.Seen.{WholeTexts};

/// What holds of a cluster of valid tables over any lines that fit it and under any script: its whole run text is
/// that along its net. At the end of the input the closing lines tell of each task the most cycles that an
/// execution of it took which gave outputs.
pub fn whole_texts()
    ensures { WholeTexts }
{}
