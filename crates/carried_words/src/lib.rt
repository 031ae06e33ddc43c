//! What edges carry by what is known of the jobs of a cycle, and the words of the frames in which it goes.
#![tactic(auto)]

pub mod edge;
pub mod frame;

pub use edge::edge_words;
pub use frame::frame_word;
