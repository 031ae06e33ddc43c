//! What a run of `plan` comes to, in the meaning of its source project alone.
#![tactic(auto)]

ghost use Rattle.plan_meaning.specs.PlanRan.{PlansMean};

/// What holds of every planning of a project: where it ended in its search, the tables that were put are those of the
/// first feasible list of the source project, or the search needs more steps than the budget has, or no list is feasible.
pub fn plans_mean()
    ensures { PlansMean }
{}
