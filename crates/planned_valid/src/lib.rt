//! That the tables that a search finds are valid, and so those of every planned project.
#![tactic(auto)]

ghost use Rattle.planned_valid.specs.Law.{AnswersAreValid, FoundAreValid, PlansAreValid, PlansAreWhole};

/// What holds of the tables that a search for a net's tables answers, and of those that a net gives within a budget:
/// they keep the eight rules of `tables::valid`.
pub fn tables_are_valid()
    ensures answers { AnswersAreValid }
    ensures found { FoundAreValid }
{}

/// What holds of every project that was planned: its tables keep the eight rules of `tables::valid`, and the parts of its
/// plant are whole.
pub fn plans_are_valid()
    ensures valid { PlansAreValid }
    ensures whole { PlansAreWhole }
{}
