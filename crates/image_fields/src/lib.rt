//! All fields of an image, read from its bytes.
#![tactic(auto)]

pub mod fields;
pub mod parts;
pub mod whole;

pub use fields::{body_at, put_head};
pub use parts::Parts;
pub use whole::{BytesFault, read_fields};
