//! The parts of an image: names, records and instructions as bytes, and lists of them, read back from left to
//! right.
#![tactic(auto)]

pub mod names;
pub mod ranges;
pub mod reading;
pub mod records;
pub mod slots;
pub mod writing;

pub use names::{name_at, put_name};
pub use ranges::slots_fit;
pub use reading::{Readable, list8_at, list16_at, read_times};
pub use records::{put_shape, shape_at};
pub use writing::{Writable, put_list8, put_list16, write_times};

#[cfg(test)]
mod tests;
