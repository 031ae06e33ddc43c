//! The document of a project file: its form, its rows, and the places and kinds of faults.
#![tactic(auto)]

pub mod document;
pub mod first;
pub mod form;
pub mod form_fault;
pub mod kind;
mod named;
pub mod place;
pub mod sheet;

pub use kind::{Fault, Kind};
pub use place::{Place, Section};
pub use sheet::{Sheet, read_sheet};
