//! Folded expressions.
ghost use Rattle.std.specs.Prelude.{◌≡◌, map, IfOk};
ghost use Rattle.mars_base.specs.Word.{binary_of};
ghost use Rattle.mc_tree.specs.Meaning.{both};
ghost use Rattle.mc_fold.specs.Folded.{number_of, folded_unary, folded_binary, folded_expr};

use mars_base::{BinOp, Memory, UnOp, binary, unary};
use mc_tree::Expr;
use sqlite_items::{Boxed, Items};
use std::alloc::Global;

// The number that an expression is, where it is one.
#[tactic(auto, using(crate::proofs::Rules::number_rules))]
fn number(expr: &Expr) -> Option<i32>
    ensures { result ≡ number_of expr.now }
{
    match expr {
        Expr::Number(word) => Some(*word),
        Expr::Cell(_) | Expr::At { .. } | Expr::Unary { .. } | Expr::Binary { .. } => None,
    }
}

// An operator over a folded operand.
fn folded_unary(alloc: Global, op: UnOp, arg: Expr) -> Result<Expr, Memory>
    ensures { IfOk result (λ folded. folded ≡ folded_unary op arg) }
{
    match number(&arg) {
        Some(word) => Ok(Expr::Number(unary(op, word))),
        None => {
            let arg = Boxed::new(alloc, arg)?;
            Ok(Expr::Unary { op, arg })
        }
    }
}

// The word of an operator over two expressions, where both are numbers and it has one.
fn word(op: BinOp, left: &Expr, right: &Expr) -> Option<i32>
    ensures { result ≡ both (binary_of op) (number_of left.now) (number_of right.now) }
{
    binary(op, number(left)?, number(right)?)
}

// An operator over two folded operands.
fn folded_binary(alloc: Global, op: BinOp, left: Expr, right: Expr) -> Result<Expr, Memory>
    ensures { IfOk result (λ folded. folded ≡ folded_binary op left right) }
{
    match word(op, &left, &right) {
        Some(word) => Ok(Expr::Number(word)),
        None => {
            let left = Boxed::new(alloc, left)?;
            let right = Boxed::new(alloc, right)?;
            Ok(Expr::Binary { op, left, right })
        }
    }
}

// An expression with its constants folded.
#[tactic(auto, using(crate::proofs::Rules::fold_rules))]
pub fn folded_expr(alloc: Global, expr: &Expr) -> Result<Expr, Memory>
    ensures { IfOk result (λ folded. folded ≡ folded_expr expr.now) }
{
    match expr {
        Expr::Number(word) => Ok(Expr::Number(*word)),
        Expr::Cell(cell) => Ok(Expr::Cell(*cell)),
        Expr::At { cell, index } => {
            let index = folded_expr(alloc, index.get())?;
            let index = Boxed::new(alloc, index)?;
            Ok(Expr::At { cell: *cell, index })
        }
        Expr::Unary { op, arg } => {
            let arg = folded_expr(alloc, arg.get())?;
            folded_unary(alloc, *op, arg)
        }
        Expr::Binary { op, left, right } => {
            let left = folded_expr(alloc, left.get())?;
            let right = folded_expr(alloc, right.get())?;
            folded_binary(alloc, *op, left, right)
        }
    }
}

// Expressions, each with its constants folded.
pub fn folded_args(alloc: Global, args: &[Expr]) -> Result<Items<Expr>, Memory>
    ensures { IfOk result (λ folded. folded ≡ map folded_expr args.now) }
{
    let mut folded = Items::new(alloc);
    for arg in args {
        let arg = folded_expr(alloc, arg)?;
        folded.push(arg)?;
    }
    Ok(folded)
}
