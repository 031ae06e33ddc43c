//! What the names of a task stand for while its tree is checked: the entries of its symbol tables.

/// What a visible name stands for.
#[derive(Clone, Copy, Debug, PartialEq, Eq)]
pub enum Symbol {
    /// A cell: its number among the task's cells, from 0, and its width in words as it is written.
    Cell { number: u16, width: u64 },
    /// A function of the file.
    Func,
    /// A scope.
    Scope,
}

/// A function that a call may name.
#[derive(Clone, Copy, Debug, PartialEq, Eq)]
pub struct Callee {
    /// Its place among the file's functions, from 0.
    pub number: usize,
    /// How many parameters it has.
    pub params: usize,
}
