//! What a search in passes answers within a budget of steps, whatever is chosen: the passes are those of `walks`, and
//! one step is one list that is expanded.
#![tactic(auto)]

/// How the walk of a list ended.
#[derive(Clone, Copy, Debug, PartialEq, Eq)]
pub enum Ended {
    /// It has a list.
    Found,
    /// It has none; whether a choice was cut.
    Missing(bool),
    /// All steps of the budget were taken before it ended.
    Stopped,
}

/// Why a search has no list.
#[derive(Clone, Copy, Debug, PartialEq, Eq)]
pub enum SearchFault {
    /// The budget is below what the search needs.
    Spent,
    /// There is none.
    NoTable,
    /// There was no memory.
    Memory,
}
