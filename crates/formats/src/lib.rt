//! Formats: values as bytes, and bytes read back.
#![tactic(auto)]

pub mod fault;
pub mod field;
#[cfg(test)]
mod tests;

pub use fault::Unread;
pub use field::{put_u8, put_u16, put_u32, u8_in, u16_in, u32_in};
