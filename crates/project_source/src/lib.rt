//! Source projects and what they mean: definitions alone.
#![tactic(auto)]
