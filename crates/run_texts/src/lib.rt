//! The text of a run: definitions alone.
#![tactic(auto)]
