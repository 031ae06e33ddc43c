//! Expressions.
ghost use Rattle.std.specs.Prelude.{◌≡◌, min};
ghost use Rattle.mc_check.specs.View.{table};
ghost use Rattle.mc_tree.specs.RawPlain.{plain_expr};
ghost use Rattle.mc_tree.specs.Rules.{first};
ghost use Rattle.mc_tree.specs.Sites.{need as words, ex_sites};
ghost use Rattle.mc_check.specs.View.{outside};

use crate::names::{Globals, Locals, meaning};
use mc_rules::{constant, earlier, indexed, plain};
use mc_tree::{Fault, RawExpr};

/// The operand words that an expression needs, kept at 65.
#[tactic(auto, using(mc_tree::proofs::RawPlain::raw_rules))]
pub(crate) fn need(e: &RawExpr) -> u32
    ensures { result ≡ min (words (plain_expr e.now)) 65 }
{
    match e {
        RawExpr::Number(_) => 1,
        RawExpr::Cell(_) => 1,
        RawExpr::At {
            cell: _,
            index,
            span: _,
        } => need(index.get()),
        RawExpr::Unary {
            op: _,
            arg,
            span: _,
        } => need(arg.get()),
        RawExpr::Binary {
            op: _,
            left,
            right,
            span: _,
        } => need(left.get()).max(1 + need(right.get())).min(65),
    }
}

/// The first fault of an expression.
#[tactic(auto, using(mc_tree::proofs::RawPlain::raw_rules, mc_rules::proofs::First::first_rules))]
pub(crate) fn expression(globals: &Globals, locals: &Locals, e: &RawExpr) -> Option<Fault>
    ensures { result ≡ first (ex_sites (outside globals.now) (table locals.now.names) (plain_expr e.now)) }
{
    match e {
        RawExpr::Number(number) => constant(*number),
        RawExpr::Cell(cell) => plain(cell, meaning(globals, locals, cell)),
        RawExpr::At {
            cell,
            index,
            span: _,
        } => earlier(
            indexed(cell, meaning(globals, locals, cell)),
            expression(globals, locals, index.get()),
        ),
        RawExpr::Unary {
            op: _,
            arg,
            span: _,
        } => expression(globals, locals, arg.get()),
        RawExpr::Binary {
            op: _,
            left,
            right,
            span: _,
        } => earlier(
            expression(globals, locals, left.get()),
            expression(globals, locals, right.get()),
        ),
    }
}
