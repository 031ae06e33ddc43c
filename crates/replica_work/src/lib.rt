//! The last two parts of a replica's tick: the job in hand runs as far as its ticks allow, and it ends.
#![tactic(auto)]

pub mod ending;
pub mod hand;
pub mod show;
pub mod working;

pub use ending::finish;
pub use show::show_end;
pub use working::cycles_so_far;
