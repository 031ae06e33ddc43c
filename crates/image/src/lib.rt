//! Images: a plant with verified code and its one spelling as bytes.
#![tactic(auto)]

mod bodies;
pub mod decoding;
pub mod encoding;
mod entries;
mod judging;
mod ranges;
pub mod value;

pub use decoding::{ImageFault, decode};
pub use encoding::encode;
pub use value::Image;
