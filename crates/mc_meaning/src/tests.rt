//! Tasks worked by hand.
use crate::{Outcome, interpret};
use mars_base::{BinOp, Memory, Role, Text};
use mc_tree::{Cell, Expr, Func, Stmt, Task};
use sqlite_items::{Boxed, Items};
use std::alloc::Global;

fn pair(alloc: Global, op: BinOp, left: Expr, right: Expr) -> Result<Expr, Memory> {
    let left = Boxed::new(alloc, left)?;
    let right = Boxed::new(alloc, right)?;
    Ok(Expr::Binary { op, left, right })
}

fn cell(alloc: Global, role: Role, place: u16) -> Result<Cell, Memory> {
    Ok(Cell {
        role,
        name: Text::from_slice(alloc, b"c".as_slice())?,
        place,
        width: 1,
    })
}

fn one(alloc: Global, stmt: Stmt) -> Result<Items<Stmt>, Memory> {
    let mut stmts = Items::new(alloc);
    stmts.push(stmt)?;
    Ok(stmts)
}

fn task(
    alloc: Global,
    roles: &[Role],
    funcs: Items<Func>,
    body: Items<Stmt>,
    counters: u16,
) -> Result<Task, Memory> {
    let mut cells = Items::new(alloc);
    let mut place = 0;
    for role in roles {
        cells.push(cell(alloc, *role, place)?)?;
        place = place.wrapping_add(1);
    }
    Ok(Task {
        name: Text::from_slice(alloc, b"t".as_slice())?,
        cells,
        funcs,
        body,
        counters,
    })
}

// The first out word; none where the instance breaks.
fn first_out(alloc: Global, task: &Task, input: i32) -> Result<Option<i32>, Memory> {
    match interpret(alloc, task, &[], &[input])? {
        Outcome::Done { state: _, outs } => Ok(outs.as_slice().first().copied()),
        Outcome::Broken => Ok(None),
    }
}

// task count; in n; out y; body { y = 0; while max 3 (y < n) { y = y + 1; } }
fn count(alloc: Global, input: i32) -> Result<Option<i32>, Memory> {
    let more = pair(alloc, BinOp::Add, Expr::Cell(1), Expr::Number(1))?;
    let turn = one(
        alloc,
        Stmt::Set {
            cell: 1,
            value: more,
        },
    )?;
    let test = pair(alloc, BinOp::Lt, Expr::Cell(1), Expr::Cell(0))?;
    let mut body = one(
        alloc,
        Stmt::Set {
            cell: 1,
            value: Expr::Number(0),
        },
    )?;
    body.push(Stmt::While {
        counter: 0,
        bound: 3,
        test,
        body: turn,
    })?;
    let count = task(alloc, &[Role::In, Role::Out], Items::new(alloc), body, 1)?;
    first_out(alloc, &count, input)
}

// task twice; in x; out y; func f(a) { var n; n = n + a; return n; } body { y = f(x); y = f(x); }
fn twice(alloc: Global, input: i32) -> Result<Option<i32>, Memory> {
    let more = pair(alloc, BinOp::Add, Expr::Cell(3), Expr::Cell(2))?;
    let mut params = Items::new(alloc);
    params.push(2)?;
    let mut funcs = Items::new(alloc);
    funcs.push(Func {
        params,
        body: one(
            alloc,
            Stmt::Set {
                cell: 3,
                value: more,
            },
        )?,
        answer: Expr::Cell(3),
    })?;
    let mut body = Items::new(alloc);
    for _ in 0..2 {
        let mut args = Items::new(alloc);
        args.push(Expr::Cell(0))?;
        body.push(Stmt::Call {
            cell: 1,
            func: 0,
            args,
        })?;
    }
    let twice = task(
        alloc,
        &[Role::In, Role::Out, Role::Local, Role::Local],
        funcs,
        body,
        0,
    )?;
    first_out(alloc, &twice, input)
}

#[test]
fn gives_the_words_worked_by_hand(rt: HostRuntime) {
    let alloc = rt.alloc();
    for (input, want) in [(0, Some(0)), (3, Some(3)), (4, None)] {
        let gives = matches!(count(alloc, input), Ok(word) if word == want);
        assert!(rt; gives, "count of {input}");
    }
    for (input, want) in [(5, Some(10)), (-1, Some(-2))] {
        let gives = matches!(twice(alloc, input), Ok(word) if word == want);
        assert!(rt; gives, "twice of {input}");
    }
}
