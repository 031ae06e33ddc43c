//! The outside as the system gives it. None of it tells what it holds, so that what is proved of it is
//! only that each fault is counted.
#![tactic(auto)]

mod reading;
pub mod shelf;
pub mod sink;
pub mod source;

pub use shelf::FileShelf;
pub use sink::StdSink;
pub use source::StdSource;
