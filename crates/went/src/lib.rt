//! What the text of a run says in the meaning of a source project alone.
#![tactic(auto)]

ghost use Rattle.went.specs.Went.{WentAsMeant};

/// What holds of every plant that carries a source project, for every input text and under any script: the whole text
/// that the model of its cluster writes went as the source means (`WentAs`).
pub fn went_as_meant()
    ensures { WentAsMeant }
{}
