//! Folded statements.
ghost use Rattle.std.specs.Prelude.{◌≡◌, map, IfOk};
ghost use Rattle.mc_fold.specs.Folded.{folded_stmt};

use crate::expression::{folded_args, folded_expr};
use mars_base::Memory;
use mc_tree::Stmt;
use sqlite_items::Items;
use std::alloc::Global;

// A statement with its constants folded.
#[cycle(statements)]
#[tactic(auto, using(crate::proofs::Rules::fold_rules))]
fn folded_stmt(alloc: Global, stmt: &Stmt) -> Result<Stmt, Memory>
    ensures { IfOk result (λ folded. folded ≡ folded_stmt stmt.now) }
{
    match stmt {
        Stmt::Set { cell, value } => {
            let value = folded_expr(alloc, value)?;
            Ok(Stmt::Set { cell: *cell, value })
        }
        Stmt::SetAt { cell, index, value } => {
            let index = folded_expr(alloc, index)?;
            let value = folded_expr(alloc, value)?;
            Ok(Stmt::SetAt {
                cell: *cell,
                index,
                value,
            })
        }
        Stmt::Call { cell, func, args } => {
            let args = folded_args(alloc, args.as_slice())?;
            Ok(Stmt::Call {
                cell: *cell,
                func: *func,
                args,
            })
        }
        Stmt::If { test, first, other } => {
            let test = folded_expr(alloc, test)?;
            let first = folded_block(alloc, first.as_slice())?;
            match other {
                None => Ok(Stmt::If {
                    test,
                    first,
                    other: None,
                }),
                Some(other) => {
                    let other = folded_block(alloc, other.as_slice())?;
                    Ok(Stmt::If {
                        test,
                        first,
                        other: Some(other),
                    })
                }
            }
        }
        Stmt::While {
            counter,
            bound,
            test,
            body,
        } => {
            let test = folded_expr(alloc, test)?;
            let body = folded_block(alloc, body.as_slice())?;
            Ok(Stmt::While {
                counter: *counter,
                bound: *bound,
                test,
                body,
            })
        }
        Stmt::Scope {
            counter,
            bound,
            body,
        } => {
            let body = folded_block(alloc, body.as_slice())?;
            Ok(Stmt::Scope {
                counter: *counter,
                bound: *bound,
                body,
            })
        }
        Stmt::Mark { counter, bound } => Ok(Stmt::Mark {
            counter: *counter,
            bound: *bound,
        }),
        Stmt::Sequence {
            counter,
            bound,
            loops,
        } => {
            let loops = folded_block(alloc, loops.as_slice())?;
            Ok(Stmt::Sequence {
                counter: *counter,
                bound: *bound,
                loops,
            })
        }
    }
}

// Statements, each with its constants folded.
#[cycle(statements)]
pub fn folded_block(alloc: Global, stmts: &[Stmt]) -> Result<Items<Stmt>, Memory>
    ensures { IfOk result (λ folded. folded ≡ map folded_stmt stmts.now) }
{
    let mut folded = Items::new(alloc);
    for stmt in stmts {
        let stmt = folded_stmt(alloc, stmt)?;
        folded.push(stmt)?;
    }
    Ok(folded)
}
