//! How often the in ports of a net are fed.
#![tactic(auto)]

pub mod feeds;

pub use feeds::{count_feeds, first_fed_twice, first_never_fed};
