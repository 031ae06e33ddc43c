//! Input lines of words, read through a buffer, and output text, gathered in one.
#![tactic(auto)]

pub mod buffer;
pub mod grammar;
pub mod pieces;
pub mod reader;
pub mod window;

pub use buffer::LineBuf;
pub use pieces::{put_pieces, write_pieces};
pub use reader::{LineFault, LineReader, Next};
