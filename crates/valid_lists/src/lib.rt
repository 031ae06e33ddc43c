//! That the tables of a list of decisions keep the eight rules, where choices lead to the list and it places every job.
#![tactic(auto)]

ghost use Rattle.valid_lists.specs.Law.{ListsAreValid};

/// What holds of every list of decisions to which choices lead, and in which each job of a net is placed: the tables that
/// it gives keep the eight rules of `tables::valid`.
pub fn lists_are_valid()
    ensures { ListsAreValid }
{}
