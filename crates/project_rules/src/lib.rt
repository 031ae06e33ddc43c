//! What a project without a fault keeps, in the words of nets. The crate has definitions and a law alone.
#![tactic(auto)]
