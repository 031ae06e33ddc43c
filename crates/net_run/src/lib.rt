//! What the jobs of a net come to along its edges, for any meaning of the tasks' programs.
#![tactic(auto)]

ghost use Rattle.net_run.specs.Alike.{AgreeingRuns, FirstStatesFit, OutsFit, StatesFit};
ghost use Rattle.net_run.specs.Equation.{CycleResults, ResultsByNumber, StatesByTask};

/// What holds of every cycle of a net that keeps the rules: each job's result is what its task's state and
/// the outputs of its producers make it. The results stand by job number, and the states by task.
pub fn cycle_results()
    ensures equation { CycleResults }
    ensures results { ResultsByNumber }
    ensures states { StatesByTask }
{}

/// What holds of two meanings of the programs that agree on words that fit the tasks: their runs over any lines
/// are equal. The states that a cycle leaves fit the tasks again, as do the outputs that jobs give, and states of 0 fit them.
pub fn agreeing_runs()
    ensures runs { AgreeingRuns }
    ensures fit { StatesFit }
    ensures outs { OutsFit }
    ensures first { FirstStatesFit }
{}
