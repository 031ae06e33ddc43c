//! What holds of every list of decisions that choices lead to. There is no code here, only what other crates' proofs cite.
#![tactic(auto)]
