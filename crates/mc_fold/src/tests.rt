use crate::expression::folded_expr;
use mars_base::{BinOp, Memory, UnOp};
use mc_tree::Expr;
use sqlite_items::Boxed;
use std::alloc::Global;

fn pair(alloc: Global, op: BinOp, left: Expr, right: Expr) -> Result<Expr, Memory> {
    let left = Boxed::new(alloc, left)?;
    let right = Boxed::new(alloc, right)?;
    Ok(Expr::Binary { op, left, right })
}

fn single(alloc: Global, op: UnOp, arg: Expr) -> Result<Expr, Memory> {
    let arg = Boxed::new(alloc, arg)?;
    Ok(Expr::Unary { op, arg })
}

fn is_number(expr: &Expr, word: i32) -> bool {
    match expr {
        Expr::Number(number) => *number == word,
        _ => false,
    }
}

/// An operator over two numbers, and its word where it has one.
const BINARY: [(BinOp, i32, i32, Option<i32>); 12] = [
    (BinOp::Add, 2_147_483_647, 1, Some(-2_147_483_648)),
    (BinOp::Mul, 2, 3, Some(6)),
    (BinOp::Div, 1, 0, None),
    (BinOp::Rem, 0, 0, None),
    (BinOp::Div, -7, 2, Some(-3)),
    (BinOp::Rem, -7, 2, Some(-1)),
    (BinOp::Div, -2_147_483_648, -1, Some(-2_147_483_648)),
    (BinOp::Lt, 3, 5, Some(1)),
    (BinOp::Ge, 3, 5, Some(0)),
    (BinOp::Shl, 1, 33, Some(2)),
    (BinOp::And, 2, 0, Some(0)),
    (BinOp::Or, 0, 5, Some(1)),
];

fn is_folded(alloc: Global, row: (BinOp, i32, i32, Option<i32>)) -> Result<bool, Memory> {
    let (op, left, right, word) = row;
    let expr = pair(alloc, op, Expr::Number(left), Expr::Number(right))?;
    let folded = folded_expr(alloc, &expr)?;
    Ok(match (word, &folded) {
        (Some(word), folded) => is_number(folded, word),
        (
            None,
            Expr::Binary {
                left: l,
                right: r,
                ..
            },
        ) => { is_number(l.get(), left) && is_number(r.get(), right) }
        (None, _) => false,
    })
}

#[test]
fn operators_over_numbers(rt: HostRuntime) {
    let alloc = rt.alloc();
    for row in BINARY {
        let folded = is_folded(alloc, row);
        assert!(rt; matches!(folded, Ok(true)), "{} {}", row.1, row.2);
    }
}

/// `x + 2 * 3 - -4` becomes `x + 6 - -4`, with the number -4.
fn row(alloc: Global) -> Result<bool, Memory> {
    let six = pair(alloc, BinOp::Mul, Expr::Number(2), Expr::Number(3))?;
    let sum = pair(alloc, BinOp::Add, Expr::Cell(0), six)?;
    let four = single(alloc, UnOp::Neg, Expr::Number(4))?;
    let expr = pair(alloc, BinOp::Sub, sum, four)?;
    let folded = folded_expr(alloc, &expr)?;
    let Expr::Binary {
        op: BinOp::Sub,
        left,
        right,
    } = &folded
    else {
        return Ok(false);
    };
    let Expr::Binary {
        op: BinOp::Add,
        left,
        right: six,
    } = left.get()
    else {
        return Ok(false);
    };
    let x = matches!(left.get(), Expr::Cell(0));
    Ok(x && is_number(six.get(), 6) && is_number(right.get(), -4))
}

#[test]
fn a_sum_with_a_cell_stays(rt: HostRuntime) {
    let folded = row(rt.alloc());
    assert!(rt; matches!(folded, Ok(true)));
}
