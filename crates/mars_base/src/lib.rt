//! The ground that every crate stands on: words and their operators, places in a text, lists that
//! contracts see as lists, the form of names, the shape of a cluster, counted steps, and the traits of
//! the outside.
#![tactic(auto)]

pub mod file;
pub mod name;
pub mod outside;
pub mod shape;
pub mod shelf;
pub mod sink;
pub mod source;
pub mod steps;
#[cfg(test)]
mod tests;
pub mod text;
pub mod word;

pub use file::File;
pub use name::is_name;
pub use outside::{Shelf, ShelfFault, Sink, SinkFault, Source, SourceFault};
pub use shape::{ClusterShape, Port, Side, is_shape, least_round};
pub use shelf::MemShelf;
pub use sink::MemSink;
pub use source::MemSource;
pub use steps::Steps;
pub use text::{Memory, Span, Text, Words};
pub use word::{BinOp, Role, UnOp, binary, unary};
