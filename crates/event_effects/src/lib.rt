//! What is seen of the events of a cluster: definitions alone.
#![tactic(auto)]
