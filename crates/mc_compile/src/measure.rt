//! How many instructions each part of a task takes, before any is emitted. A number that would pass 64 bits
//! stays at the greatest.
ghost use Rattle.std.specs.Prelude.{◌≡◌, ◌+◌, ◌-◌, ◌^◌, min, List, length};
ghost use Rattle.mc_compile.specs.Emit.{params_of};
ghost use Rattle.mc_compile.specs.Translate.{between, joined, ex_len, args_len, st_len, bl_len, ls_len};
ghost use Rattle.mc_compile.specs.Whole.{fn_len};
ghost use Rattle.mc_tree.specs.declared.tree.Cell.{Cell as CellShown};
ghost use Rattle.mc_tree.specs.Plain.{loop_before, plain_expr, plain_args, plain_stmt, plain_list, plain_loops, plain_func};
ghost use Rattle.mc_tree.specs.Tree.{NoLoop};

use mars_base::BinOp;
use mc_tree::{Expr, Func, Stmt, Task};

// The instructions between and behind the operands of an operator.
fn operator_len(op: BinOp) -> u64
    ensures { result ≡ length (between op 0) + length (joined op 0) }
{
    match op {
        BinOp::And => 4,
        BinOp::Or => 3,
        BinOp::Ne | BinOp::Gt | BinOp::Ge => 2,
        BinOp::BitOr | BinOp::BitXor | BinOp::BitAnd | BinOp::Eq | BinOp::Lt | BinOp::Le => 1,
        BinOp::Shl | BinOp::Shr | BinOp::Add | BinOp::Sub | BinOp::Mul => 1,
        BinOp::Div | BinOp::Rem => 1,
    }
}

// The instructions of an expression.
#[tactic(auto, using(mc_tree::proofs::Plain::plain_rules))]
fn expr_len(expr: &Expr) -> u64
    ensures { (cells : List CellShown) → result ≡ min (ex_len (plain_expr cells expr.now)) (2 ^ 64 - 1) }
{
    match expr {
        Expr::Number(_) | Expr::Cell(_) => 1,
        Expr::At { cell: _, index } => expr_len(index.get()).saturating_add(1),
        Expr::Unary { op: _, arg } => expr_len(arg.get()).saturating_add(1),
        Expr::Binary { op, left, right } => {
            let operands = expr_len(left.get()).saturating_add(expr_len(right.get()));
            operands.saturating_add(operator_len(*op))
        }
    }
}

// The instructions of arguments.
fn args_total(args: &[Expr]) -> u64
    ensures { (cells : List CellShown) → result ≡ min (args_len (plain_args cells args.now)) (2 ^ 64 - 1) }
{
    let mut total = 0u64;
    for arg in args {
        total = total.saturating_add(expr_len(arg));
    }
    total
}

// How many parameters a function has.
fn parameters(task: &Task, func: u8) -> u64
    ensures { result ≡ length (params_of task.now func) }
{
    match task.funcs.get(usize::from(func)) {
        Some(function) => function.params.len() as u64,
        None => 0,
    }
}

/// The instructions of statements.
#[cycle(measure)]
pub fn block_len(task: &Task, stmts: &[Stmt]) -> u64
    ensures { result ≡ min (bl_len (params_of task.now) (plain_list task.now.cells stmts.now)) (2 ^ 64 - 1) }
{
    let mut total = 0u64;
    for stmt in stmts {
        total = total.saturating_add(stmt_len(task, stmt));
    }
    total
}

// The instructions of a statement.
#[cycle(measure)]
#[tactic(auto, using(mc_tree::proofs::Plain::plain_rules))]
fn stmt_len(task: &Task, stmt: &Stmt) -> u64
    ensures { result ≡ min (st_len (params_of task.now) (plain_stmt task.now.cells stmt.now)) (2 ^ 64 - 1) }
{
    match stmt {
        Stmt::Set { cell: _, value } => expr_len(value).saturating_add(1),
        Stmt::SetAt {
            cell: _,
            index,
            value,
        } => expr_len(index)
            .saturating_add(expr_len(value))
            .saturating_add(1),
        Stmt::Call {
            cell: _,
            func,
            args,
        } => args_total(args.as_slice())
            .saturating_add(parameters(task, *func))
            .saturating_add(2),
        Stmt::If { test, first, other } => {
            let first = expr_len(test).saturating_add(block_len(task, first.as_slice()));
            match other {
                None => first.saturating_add(1),
                Some(other) => first
                    .saturating_add(block_len(task, other.as_slice()))
                    .saturating_add(2),
            }
        }
        Stmt::While {
            counter: _,
            bound: _,
            test,
            body,
        } => expr_len(test)
            .saturating_add(block_len(task, body.as_slice()))
            .saturating_add(4),
        Stmt::Scope {
            counter: _,
            bound: _,
            body,
        } => block_len(task, body.as_slice()).saturating_add(1),
        Stmt::Mark {
            counter: _,
            bound: _,
        } => 1,
        Stmt::Sequence {
            counter: _,
            bound: _,
            loops,
        } => loops_len(task, loops.as_slice()).saturating_add(1),
    }
}

// The instructions of the loops of a sequence.
#[cycle(measure)]
fn loops_len(task: &Task, loops: &[Stmt]) -> u64
    ensures { result ≡ min (ls_len (params_of task.now) (plain_loops task.now.cells loops.now)) (2 ^ 64 - 1) }
{
    let mut total = 0u64;
    for stmt in loops {
        total = total.saturating_add(part_len(task, stmt));
    }
    total
}

// The instructions of a statement of a sequence; nothing but loops stands in one.
#[cycle(measure)]
#[tactic(auto, using(mc_tree::proofs::Plain::plain_rules))]
fn part_len(task: &Task, stmt: &Stmt) -> u64
    ensures { result ≡ min (ls_len (params_of task.now) (loop_before (plain_stmt task.now.cells stmt.now) NoLoop)) (2 ^ 64 - 1) }
{
    match stmt {
        Stmt::While {
            counter: _,
            bound: _,
            test,
            body,
        } => expr_len(test)
            .saturating_add(block_len(task, body.as_slice()))
            .saturating_add(5),
        Stmt::Set { .. } | Stmt::SetAt { .. } | Stmt::Call { .. } | Stmt::If { .. } => 0,
        Stmt::Scope { .. } | Stmt::Mark { .. } | Stmt::Sequence { .. } => 0,
    }
}

/// The instructions of a function.
pub fn func_len(task: &Task, func: &Func) -> u64
    ensures { result ≡ min (fn_len (params_of task.now) (plain_func task.now.cells func.now)) (2 ^ 64 - 1) }
{
    block_len(task, func.body.as_slice())
        .saturating_add(expr_len(&func.answer))
        .saturating_add(1)
}
