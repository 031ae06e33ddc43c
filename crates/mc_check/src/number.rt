//! The checked tree.
ghost use Rattle.std.specs.Prelude.{◌≡◌, ◌++◌, IfOk, OnOk, pos, map};
ghost use Rattle.mc_check.specs.View.{table};
ghost use Rattle.mc_tree.specs.Symbols.{look, declare};
ghost use Rattle.mc_tree.specs.Numbered.{up_to, cell_of, func_of, numbered_ex, numbered_args, numbered_st, numbered_bl, cell_at, decls_cells, params_at, fn_cells, numbered_fn, numbered_fns, fns_cells, body_cells, body_stmts, body_after, rest_cells, rest_body, rest_after, numbered as numbered_task};
ghost use Rattle.mc_tree.specs.RawPlain.{plain_expr, plain_stmt, plain_list, plain_func, plain_body, plain_task};
ghost use Rattle.mc_tree.specs.Sites.{means, st_after, bl_after};
ghost use Rattle.mc_tree.specs.TaskSites.{decls_after, param_of, fn_after, fns_after, with_function, with_functions, enter as entered};
ghost use Rattle.mc_check.specs.View.{outside, sofar};

use crate::names::{Globals, Locals, add, called, meaning};
use crate::routine::{declaration, width_of};
use crate::task::callees;
use indexmap::IndexMap;
use mars_base::{Memory, Role, Text};
use mc_tree::{
    Cell, Expr, Func, Name, RawBody, RawDecl, RawExpr, RawFunc, RawNumber, RawStmt, RawTask, Stmt,
    Symbol, Task,
};
use sqlite_items::{Boxed, Items};
use std::alloc::Global;

fn word(value: u64) -> i32
    ensures { result ≡ pos (up_to 2147483647 value) }
{
    if value <= 2147483647 { value as i32 } else { 0 }
}

fn cell(globals: &Globals, locals: &Locals, name: &Name) -> u16
    ensures { result ≡ cell_of (means (outside globals.now) (table locals.now.names) name.now) }
{
    match meaning(globals, locals, name) {
        Some(Symbol::Cell { number, width: _ }) => number,
        Some(Symbol::Func) => 0,
        Some(Symbol::Scope) => 0,
        None => 0,
    }
}

#[tactic(auto, using(mc_tree::proofs::RawPlain::raw_rules))]
pub(crate) fn expr(
    alloc: Global,
    globals: &Globals,
    locals: &Locals,
    e: &RawExpr,
) -> Result<Expr, Memory>
    ensures { IfOk result (λ r. r ≡ numbered_ex (outside globals.now) (table locals.now.names) (plain_expr e.now)) }
{
    match e {
        RawExpr::Number(number) => Ok(Expr::Number(word(number.value))),
        RawExpr::Cell(name) => Ok(Expr::Cell(cell(globals, locals, name))),
        RawExpr::At {
            cell: name,
            index,
            span: _,
        } => {
            let index = Boxed::new(alloc, expr(alloc, globals, locals, index.get())?)?;
            Ok(Expr::At {
                cell: cell(globals, locals, name),
                index,
            })
        }
        RawExpr::Unary { op, arg, span: _ } => {
            let arg = Boxed::new(alloc, expr(alloc, globals, locals, arg.get())?)?;
            Ok(Expr::Unary { op: *op, arg })
        }
        RawExpr::Binary {
            op,
            left,
            right,
            span: _,
        } => {
            let left = Boxed::new(alloc, expr(alloc, globals, locals, left.get())?)?;
            let right = Boxed::new(alloc, expr(alloc, globals, locals, right.get())?)?;
            Ok(Expr::Binary {
                op: *op,
                left,
                right,
            })
        }
    }
}

pub(crate) fn exprs(
    alloc: Global,
    globals: &Globals,
    locals: &Locals,
    args: &[RawExpr],
) -> Result<Items<Expr>, Memory>
    ensures { IfOk result (λ r. r ≡ numbered_args (outside globals.now) (table locals.now.names) (map plain_expr args.now)) }
{
    let mut all: Items<Expr> = Items::new(alloc);
    for e in args {
        all.push(expr(alloc, globals, locals, e)?)?;
    }
    Ok(all)
}

fn func(globals: &Globals, name: &Name) -> u8
    ensures { result ≡ func_of (look name.now.text (outside globals.now).callees) }
{
    match called(globals, name) {
        Some(callee) => {
            if callee.number <= 255 {
                callee.number as u8
            } else {
                0
            }
        }
        None => 0,
    }
}

fn bound_of(value: u64) -> u16
    ensures { result ≡ up_to 65535 value }
{
    if value <= 65535 { value as u16 } else { 0 }
}

fn counter_of(counters: u32) -> u8
    ensures { result ≡ up_to 255 counters }
{
    if counters <= 255 { counters as u8 } else { 0 }
}

/// The statements of a block, in the innermost scope of the counter and the bound.
#[cycle(number)]
fn stmts<'a>(
    alloc: Global,
    globals: &Globals<'a>,
    counter: u8,
    most: u16,
    locals: &mut Locals<'a>,
    raws: &'a [RawStmt],
) -> Result<Items<Stmt>, Memory>
    ensures numbered { IfOk result (λ r. r ≡ numbered_bl (outside globals.now) counter most (sofar locals.old) (plain_list raws.now)) }
    ensures after { IfOk result (λ r. sofar locals.new ≡ bl_after (plain_list raws.now) (sofar locals.old)) }
{
    let mut all: Items<Stmt> = Items::new(alloc);
    for s in raws {
        let next = stmt(alloc, globals, counter, most, locals, s)?;
        all.push(next)?;
    }
    Ok(all)
}

#[cycle(number)]
#[tactic(auto, using(mc_tree::proofs::RawPlain::raw_rules))]
fn stmt<'a>(
    alloc: Global,
    globals: &Globals<'a>,
    counter: u8,
    most: u16,
    locals: &mut Locals<'a>,
    s: &'a RawStmt,
) -> Result<Stmt, Memory>
    ensures numbered { IfOk result (λ r. r ≡ numbered_st (outside globals.now) counter most (sofar locals.old) (plain_stmt s.now)) }
    ensures after { IfOk result (λ r. sofar locals.new ≡ st_after (plain_stmt s.now) (sofar locals.old)) }
{
    match s {
        RawStmt::Set {
            cell: name,
            value,
            span: _,
        } => {
            let value = expr(alloc, globals, locals, value)?;
            Ok(Stmt::Set {
                cell: cell(globals, locals, name),
                value,
            })
        }
        RawStmt::SetAt {
            cell: name,
            index,
            value,
            span: _,
        } => {
            let index = expr(alloc, globals, locals, index)?;
            let value = expr(alloc, globals, locals, value)?;
            Ok(Stmt::SetAt {
                cell: cell(globals, locals, name),
                index,
                value,
            })
        }
        RawStmt::Call {
            cell: name,
            func: callee,
            args,
            span: _,
        } => {
            let args = exprs(alloc, globals, locals, args.as_slice())?;
            Ok(Stmt::Call {
                cell: cell(globals, locals, name),
                func: func(globals, callee),
                args,
            })
        }
        RawStmt::If {
            test,
            first,
            other,
            span: _,
        } => {
            let test = expr(alloc, globals, locals, test)?;
            let first = stmts(alloc, globals, counter, most, locals, first.as_slice())?;
            match other {
                None => Ok(Stmt::If {
                    test,
                    first,
                    other: None,
                }),
                Some(other) => {
                    let other = stmts(alloc, globals, counter, most, locals, other.as_slice())?;
                    Ok(Stmt::If {
                        test,
                        first,
                        other: Some(other),
                    })
                }
            }
        }
        RawStmt::While {
            bound,
            test,
            body,
            span: _,
        } => {
            let test = expr(alloc, globals, locals, test)?;
            let own = counter_of(locals.counters);
            locals.count();
            let body = stmts(alloc, globals, counter, most, locals, body.as_slice())?;
            Ok(Stmt::While {
                counter: own,
                bound: bound_of(bound.value),
                test,
                body,
            })
        }
        RawStmt::Scope {
            name,
            bound,
            body,
            span: _,
        } => {
            let own = counter_of(locals.counters);
            locals.open(name)?;
            let body = stmts(
                alloc,
                globals,
                own,
                bound_of(bound.value),
                locals,
                body.as_slice(),
            )?;
            Ok(Stmt::Scope {
                counter: own,
                bound: bound_of(bound.value),
                body,
            })
        }
        RawStmt::Mark { name: _, span: _ } => Ok(Stmt::Mark {
            counter,
            bound: most,
        }),
        RawStmt::Sequence {
            bound,
            body,
            span: _,
        } => {
            let own = counter_of(locals.counters);
            locals.count();
            let loops = stmts(alloc, globals, counter, most, locals, body.as_slice())?;
            Ok(Stmt::Sequence {
                counter: own,
                bound: bound_of(bound.value),
                loops,
            })
        }
    }
}

/// The cell of a declaration.
fn cell_of_decl(
    alloc: Global,
    locals: &Locals,
    name: &Name,
    role: Role,
    width: Option<RawNumber>,
) -> Result<Cell, Memory>
    ensures { IfOk result (λ c. c ≡ cell_at (sofar locals.now) (record { role = role; name = name.now; width = width })) }
{
    Ok(Cell {
        role,
        name: Text::from_slice(alloc, name.text.as_slice())?,
        place: bound_of(locals.words),
        width: bound_of(width_of(width)),
    })
}

/// Declares cells, and puts them behind the others.
pub(crate) fn cells<'a>(
    alloc: Global,
    globals: &Globals<'a>,
    locals: &mut Locals<'a>,
    all: &mut Items<Cell>,
    decls: &'a [RawDecl],
) -> Result<(), Memory>
    ensures cells { OnOk result (all.new ≡ all.old ++ decls_cells (sofar locals.old) decls.now) }
    ensures after { OnOk result (sofar locals.new ≡ decls_after decls.now (sofar locals.old)) }
{
    for d in decls {
        let cell = cell_of_decl(alloc, locals, &d.name, d.role, d.width)?;
        all.push(cell)?;
        declaration(globals, locals, &d.name, d.role, d.width)?;
    }
    Ok(())
}

fn number_params<'a>(
    alloc: Global,
    globals: &Globals<'a>,
    locals: &mut Locals<'a>,
    all: &mut Items<Cell>,
    names: &'a [Name],
) -> Result<Items<u16>, Memory>
    ensures params { IfOk result (λ r. r ≡ params_at (sofar locals.old) names.now) }
    ensures cells { IfOk result (λ r. all.new ≡ all.old ++ decls_cells (sofar locals.old) (map param_of names.now)) }
    ensures after { IfOk result (λ r. sofar locals.new ≡ decls_after (map param_of names.now) (sofar locals.old)) }
{
    let mut params: Items<u16> = Items::new(alloc);
    for n in names {
        let cell = cell_of_decl(alloc, locals, n, Role::Local, None)?;
        all.push(cell)?;
        params.push(locals.cells)?;
        declaration(globals, locals, n, Role::Local, None)?;
    }
    Ok(params)
}

/// A function, in names of its own.
pub(crate) fn number_function<'a>(
    alloc: Global,
    globals: &Globals<'a>,
    locals: &mut Locals<'a>,
    all: &mut Items<Cell>,
    f: &'a RawFunc,
) -> Result<Func, Memory>
    ensures numbered { IfOk result (λ r. r ≡ numbered_fn (outside globals.now) (sofar locals.old) (plain_func f.now)) }
    ensures cells { IfOk result (λ r. all.new ≡ all.old ++ fn_cells (sofar locals.old) (plain_func f.now)) }
    ensures after { IfOk result (λ r. sofar locals.new ≡ fn_after (plain_func f.now) (sofar locals.old)) }
{
    let params = number_params(alloc, globals, locals, all, f.params.as_slice())?;
    cells(alloc, globals, locals, all, f.locals.as_slice())?;
    let body = stmts(alloc, globals, 0, 0, locals, f.body.as_slice())?;
    let answer = expr(alloc, globals, locals, &f.answer)?;
    Ok(Func {
        params,
        body,
        answer,
    })
}

/// A function with its name.
fn number_named<'a>(
    alloc: Global,
    globals: &mut Globals<'a>,
    locals: &mut Locals<'a>,
    all: &mut Items<Cell>,
    i: usize,
    f: &'a RawFunc,
) -> Result<Func, Memory>
    ensures numbered { IfOk result (λ r. r ≡ numbered_fn (with_function (table globals.old.callees) (table globals.old.names) i (plain_func f.now)) (entered (sofar locals.old)) (plain_func f.now)) }
    ensures cells { IfOk result (λ r. all.new ≡ all.old ++ fn_cells (entered (sofar locals.old)) (plain_func f.now)) }
    ensures after { IfOk result (λ r. sofar locals.new ≡ fn_after (plain_func f.now) (entered (sofar locals.old))) }
    ensures names { IfOk result (λ r. table globals.new.names ≡ declare f.now.name.text Symbol.Func (table globals.old.names)) }
    ensures callees { IfOk result (λ r. table globals.new.callees ≡ table globals.old.callees) }
{
    add(&mut globals.names, f.name.text.as_slice(), Symbol::Func)?;
    globals.current = i;
    locals.enter();
    let done = number_function(alloc, globals, locals, all, f)?;
    Ok(done)
}

fn number_functions<'a>(
    alloc: Global,
    globals: &mut Globals<'a>,
    locals: &mut Locals<'a>,
    all: &mut Items<Cell>,
    funcs: &'a [RawFunc],
) -> Result<Items<Func>, Memory>
    ensures numbered { IfOk result (λ r. r ≡ numbered_fns (table globals.old.callees) (table globals.old.names) 0 (sofar locals.old) (map plain_func funcs.now)) }
    ensures cells { IfOk result (λ r. all.new ≡ all.old ++ fns_cells (sofar locals.old) (map plain_func funcs.now)) }
    ensures after { IfOk result (λ r. sofar locals.new ≡ fns_after (map plain_func funcs.now) (sofar locals.old)) }
    ensures names { IfOk result (λ r. table globals.new.names ≡ with_functions (map plain_func funcs.now) (table globals.old.names)) }
    ensures callees { IfOk result (λ r. table globals.new.callees ≡ table globals.old.callees) }
{
    let mut done: Items<Func> = Items::new(alloc);
    for (i, f) in funcs.iter().enumerate() {
        let next = number_named(alloc, globals, locals, all, i, f)?;
        done.push(next)?;
    }
    Ok(done)
}

fn number_body<'a>(
    alloc: Global,
    globals: &Globals<'a>,
    locals: &mut Locals<'a>,
    all: &mut Items<Cell>,
    body: &'a Option<RawBody>,
) -> Result<Items<Stmt>, Memory>
    ensures numbered { IfOk result (λ r. r ≡ body_stmts (outside globals.now) (sofar locals.old) (plain_body body.now)) }
    ensures cells { IfOk result (λ r. all.new ≡ all.old ++ body_cells (sofar locals.old) (plain_body body.now)) }
    ensures after { IfOk result (λ r. sofar locals.new ≡ body_after (sofar locals.old) (plain_body body.now)) }
{
    match body {
        Some(body) => {
            cells(alloc, globals, locals, all, body.locals.as_slice())?;
            let inner = stmts(alloc, globals, 0, 0, locals, body.body.as_slice())?;
            Ok(inner)
        }
        None => Ok(Items::new(alloc)),
    }
}

/// The functions and the body.
#[tactic(auto, using(crate::proofs::Whole::fn_count))]
fn number_rest<'a>(
    alloc: Global,
    globals: &mut Globals<'a>,
    locals: &mut Locals<'a>,
    all: &mut Items<Cell>,
    raw: &'a RawTask,
) -> Result<(Items<Func>, Items<Stmt>), Memory>
    ensures funcs { IfOk result (λ r. r.0 ≡ numbered_fns (table globals.old.callees) (table globals.old.names) 0 (sofar locals.old) (map plain_func raw.now.funcs)) }
    ensures body { IfOk result (λ r. r.1 ≡ rest_body (table globals.old.callees) (table globals.old.names) (sofar locals.old) (plain_task raw.now)) }
    ensures cells { IfOk result (λ r. all.new ≡ all.old ++ rest_cells (sofar locals.old) (plain_task raw.now)) }
    ensures after { IfOk result (λ r. sofar locals.new ≡ rest_after (sofar locals.old) (plain_task raw.now)) }
{
    let funcs = number_functions(alloc, globals, locals, all, raw.funcs.as_slice())?;
    globals.current = raw.funcs.len();
    locals.enter();
    let body = number_body(alloc, globals, locals, all, &raw.body)?;
    Ok((funcs, body))
}

/// The checked task.
pub(crate) fn number(alloc: Global, raw: &RawTask) -> Result<Task, Memory>
    ensures { IfOk result (λ r. r ≡ numbered_task (plain_task raw.now)) }
{
    let nothing = Globals {
        names: IndexMap::new(alloc),
        callees: IndexMap::new(alloc),
        current: 0,
    };
    let mut top = Locals {
        names: IndexMap::new(alloc),
        cells: 0,
        words: 0,
        ports: 0,
        counters: 0,
    };
    let mut all: Items<Cell> = Items::new(alloc);
    cells(alloc, &nothing, &mut top, &mut all, raw.decls.as_slice())?;
    let callees = callees(alloc, raw.funcs.as_slice())?;
    let mut globals = Globals {
        names: top.names,
        callees,
        current: 0,
    };
    let mut locals = Locals {
        names: IndexMap::new(alloc),
        cells: top.cells,
        words: top.words,
        ports: top.ports,
        counters: top.counters,
    };
    let (funcs, body) = number_rest(alloc, &mut globals, &mut locals, &mut all, raw)?;
    let name = Text::from_slice(alloc, raw.name.text.as_slice())?;
    Ok(Task {
        name,
        cells: all,
        funcs,
        body,
        counters: bound_of(u64::from(locals.counters)),
    })
}
