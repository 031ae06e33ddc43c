//! The image of a planned project: the image itself, and its bytes within their limit.
#![tactic(auto)]

pub mod bytes;
pub mod made;

pub use bytes::{bytes_within, image_bytes};
pub use made::image_of;
