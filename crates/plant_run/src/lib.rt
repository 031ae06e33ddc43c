//! The run of a plant, for any processor: definitions alone.
#![tactic(auto)]
