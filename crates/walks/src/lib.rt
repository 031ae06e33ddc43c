//! Depth-first walks over numbered choices, in passes of rising total rank: which list is found first, and how many
//! lists are expanded until then.
#![tactic(auto)]
