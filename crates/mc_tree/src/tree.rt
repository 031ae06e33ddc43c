//! The checked tree: names have become numbers, and every bound is in its range. Contracts see it as
//! plain data.
use mars_base::{BinOp, Role, Text, UnOp};
use sqlite_items::{Boxed, Items};

/// A task that was checked.
#[derive(Debug, Drop)]
pub struct Task {
    /// Its name.
    pub name: Text,
    /// Its cells in declared order: ports and states, then for each function its parameters and
    /// locals, then the body's locals. The number of a cell is its position here.
    pub cells: Items<Cell>,
    /// Its functions; a function's number is its position here.
    pub funcs: Items<Func>,
    /// The statements of its body.
    pub body: Items<Stmt>,
    /// How many counters it has, 0 to 256: one for each while, scope and sequence, in text order.
    pub counters: u16,
}

/// A cell: one word, or an array of words.
#[derive(Debug, Drop)]
pub struct Cell {
    /// What it is for.
    pub role: Role,
    /// Its name.
    pub name: Text,
    /// The place of its first word; the places of the cells follow one another from 0.
    pub place: u16,
    /// How many words it has, 1 to 4,096.
    pub width: u16,
}

/// A function.
#[derive(Debug, Drop)]
pub struct Func {
    /// The cells that hold its arguments.
    pub params: Items<u16>,
    /// Its statements.
    pub body: Items<Stmt>,
    /// What it answers.
    pub answer: Expr,
}

/// A statement.
#[derive(Debug, Drop)]
pub enum Stmt {
    /// `x = e;`
    Set {
        cell: u16,
        value: Expr,
    },
    /// `x[i] = e;`
    SetAt {
        cell: u16,
        index: Expr,
        value: Expr,
    },
    /// `x = f(e1, .., ek);`
    Call {
        cell: u16,
        func: u8,
        args: Items<Expr>,
    },
    /// `if (e) {..}`, with or without `else {..}`
    If {
        test: Expr,
        first: Items<Stmt>,
        other: Option<Items<Stmt>>,
    },
    /// `while max N (e) {..}`, N from 1 to 65,535
    While {
        counter: u8,
        bound: u16,
        test: Expr,
        body: Items<Stmt>,
    },
    /// `scope M max K {..}`, K from 0 to 1,023
    Scope {
        counter: u8,
        bound: u16,
        body: Items<Stmt>,
    },
    /// `mark M;`, with the counter and bound of its scope
    Mark {
        counter: u8,
        bound: u16,
    },
    /// `sequence max N {..}`, N from 1 to 65,535
    Sequence {
        counter: u8,
        bound: u16,
        loops: Items<Stmt>,
    },
}

/// An expression.
#[derive(Debug, Drop)]
pub enum Expr {
    /// A number of the text, 0 to 2^31 - 1.
    Number(i32),
    /// A cell of one word.
    Cell(u16),
    /// `x[e]`
    At {
        cell: u16,
        index: Boxed<Expr>,
    },
    /// An operator before its operand.
    Unary {
        op: UnOp,
        arg: Boxed<Expr>,
    },
    /// An operator between its operands.
    Binary {
        op: BinOp,
        left: Boxed<Expr>,
        right: Boxed<Expr>,
    },
}
