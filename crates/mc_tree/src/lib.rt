//! The language of tasks: its tokens, the tree of a source text, the checked tree, and what a task means.
#![tactic(auto)]

pub mod kind;
pub mod raw;
pub mod symbol;
pub mod token;
pub mod tree;

pub use kind::{Fault, Kind};
pub use raw::{Name, RawBody, RawDecl, RawExpr, RawFunc, RawNumber, RawStmt, RawTask};
pub use symbol::{Callee, Symbol};
pub use token::{Key, Sign, Token, TokenKind};
pub use tree::{Cell, Expr, Func, Stmt, Task};
