//! A file of a shelf.
use crate::Text;

/// A name and the bytes under it.
#[derive(Debug, Drop)]
pub struct File {
    /// The name, as bytes of UTF-8.
    pub name: Text,
    /// What the file holds.
    pub bytes: Text,
}
