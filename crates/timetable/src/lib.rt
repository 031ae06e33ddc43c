//! When a unit of a cluster has to do with the entries of its tables, by the tick, the round or the job under which
//! they are looked up.
#![tactic(auto)]

pub mod keys;
pub mod named;

pub use keys::{arrivals, feeds, sendings, starts};
pub use named::{consumer_of, edge_at, entry_at, message_at, producer_of};
