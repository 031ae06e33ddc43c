//! The raw tree: what a source text spells, with the place of each part, before any rule is checked.
use mars_base::{BinOp, Role, Span, Text, UnOp};
use sqlite_items::{Boxed, Items};

/// A name and where it stands.
#[derive(Debug, Drop)]
pub struct Name {
    pub text: Text,
    pub span: Span,
}

/// A number and where it stands. Its value is kept up to 2^32, and a greater one is kept as 2^32.
#[derive(Clone, Copy, Debug, PartialEq, Eq)]
pub struct RawNumber {
    pub value: u64,
    pub span: Span,
}

/// A task as it is written.
#[derive(Debug, Drop)]
pub struct RawTask {
    pub name: Name,
    /// Ports and states.
    pub decls: Items<RawDecl>,
    pub funcs: Items<RawFunc>,
    /// The body, where there is one.
    pub body: Option<RawBody>,
    /// The length of the text, in bytes.
    pub end: u32,
}

/// A declared port, state or local.
#[derive(Debug, Drop)]
pub struct RawDecl {
    pub role: Role,
    pub name: Name,
    /// The width in brackets; where none is written, the cell has one word.
    pub width: Option<RawNumber>,
}

/// A function as it is written.
#[derive(Debug, Drop)]
pub struct RawFunc {
    pub name: Name,
    pub params: Items<Name>,
    pub locals: Items<RawDecl>,
    pub body: Items<RawStmt>,
    pub answer: RawExpr,
    /// From `func` to its closing brace.
    pub span: Span,
}

/// The body of a task.
#[derive(Debug, Drop)]
pub struct RawBody {
    pub locals: Items<RawDecl>,
    pub body: Items<RawStmt>,
}

/// A statement as it is written. Its span goes from its first token to its last `;` or `}`.
#[derive(Debug, Drop)]
pub enum RawStmt {
    Set {
        cell: Name,
        value: RawExpr,
        span: Span,
    },
    SetAt {
        cell: Name,
        index: RawExpr,
        value: RawExpr,
        span: Span,
    },
    Call {
        cell: Name,
        func: Name,
        args: Items<RawExpr>,
        span: Span,
    },
    If {
        test: RawExpr,
        first: Items<RawStmt>,
        other: Option<Items<RawStmt>>,
        span: Span,
    },
    While {
        bound: RawNumber,
        test: RawExpr,
        body: Items<RawStmt>,
        span: Span,
    },
    Scope {
        name: Name,
        bound: RawNumber,
        body: Items<RawStmt>,
        span: Span,
    },
    Mark {
        name: Name,
        span: Span,
    },
    Sequence {
        bound: RawNumber,
        body: Items<RawStmt>,
        span: Span,
    },
}

/// An expression as it is written. A parenthesised expression is its inner expression, and its
/// parentheses don't count for a span.
#[derive(Debug, Drop)]
pub enum RawExpr {
    Number(RawNumber),
    Cell(Name),
    /// From the cell's name to its closing bracket.
    At {
        cell: Name,
        index: Boxed<RawExpr>,
        span: Span,
    },
    /// From the operator to its operand's end.
    Unary {
        op: UnOp,
        arg: Boxed<RawExpr>,
        span: Span,
    },
    /// From the left operand's start to the right operand's end.
    Binary {
        op: BinOp,
        left: Boxed<RawExpr>,
        right: Boxed<RawExpr>,
        span: Span,
    },
}
