//! The instructions of statements, blocks and functions. A jump forward is put first and mended once its
//! target is reached.
ghost use Rattle.std.specs.Prelude.{◌≡◌, ◌+◌, ◌<◌, ◌≤◌, [], ◌∷◌, ◌++◌, length, slice_get, slice_set, slice_index, Some, vec_len, vec_capacity};
ghost use Rattle.mc_compile.specs.Emit.{Grows, HasRoom, IsLow, IsLowB, IsLowL, IsLowF, GrowsSt, GrowsBl, GrowsLs, GrowsFn, Mends, params_of};
ghost use Rattle.mc_compile.specs.Translate.{slot, ex_len, st_len, bl_len, ls_len, stores_code};
ghost use Rattle.mc_compile.specs.Whole.{fn_len};
ghost use Rattle.mc_tree.specs.Plain.{place_in, loop_before, plain_expr, plain_args, plain_stmt, plain_list, plain_loops, plain_func};
ghost use Rattle.mc_tree.specs.Tree.{When, Choice, Loop, Scoped, Series, Invoke, NoLoop, OneLoop};

use crate::expression::{emit_args, emit_expr, emit_stores, place, put, width};
use mc_tree::{Expr, Func, Stmt, Task};
use word_code::{Instr, Slot};

// The number of the next instruction.
fn next(code: &Vec<Slot>) -> u16
    requires { vec_len code.now ≤ 65535 }
    ensures { result ≡ vec_len code.now }
{
    code.len() as u16
}

// Another instruction in the place of the one at a number.
fn mend(code: &mut Vec<Slot>, at: u16, instr: Instr, operands: u8)
    requires { at < vec_len code.old }
    ensures { Mends code.old code.new at (slot instr operands) }
{
    code[usize::from(at)] = Slot {
        instr,
        height: operands,
    };
}

// The first instruction of a function.
fn first_of(firsts: &[u16], func: u8) -> u16
    ensures { result ≡ slice_index firsts.now func }
{
    let func = usize::from(func);
    if func < firsts.len() { firsts[func] } else { 0 }
}

// The stores of a function's parameters.
fn emit_params(code: &mut Vec<Slot>, task: &Task, func: u8)
    requires few { length (params_of task.now func) ≤ 64 }
    requires room { vec_len code.old + length (params_of task.now func) ≤ vec_capacity code.old }
    ensures { Grows code.old code.new (stores_code 0 (params_of task.now func)) (length (params_of task.now func)) }
{
    match task.funcs.get(usize::from(func)) {
        Some(function) => {
            let params = function.params.as_slice();
            emit_stores(code, task.cells.as_slice(), params);
        }
        None => {}
    }
}

// The instructions of a call: its arguments, the stores of the parameters, CALL, and the store of the answer.
fn emit_call(code: &mut Vec<Slot>, task: &Task, firsts: &[u16], cell: u16, func: u8, args: &[Expr])
    requires low { IsLow (params_of task.now) (Invoke (place_in task.now.cells cell) func (plain_args task.now.cells args.now)) }
    requires room { HasRoom code.old (st_len (params_of task.now) (Invoke (place_in task.now.cells cell) func (plain_args task.now.cells args.now))) }
    ensures { GrowsSt code.old code.new task.now firsts.now (Invoke (place_in task.now.cells cell) func (plain_args task.now.cells args.now)) }
{
    let cells = task.cells.as_slice();
    emit_args(code, cells, args);
    emit_params(code, task, func);
    put(code, Instr::Call(first_of(firsts, func)), 0);
    put(code, Instr::Store(place(cells, cell)), 1);
}

/// The instructions of statements, one after another.
#[cycle(emit)]
pub fn emit_block(code: &mut Vec<Slot>, task: &Task, firsts: &[u16], stmts: &[Stmt])
    requires low { IsLowB (params_of task.now) (plain_list task.now.cells stmts.now) }
    requires room { HasRoom code.old (bl_len (params_of task.now) (plain_list task.now.cells stmts.now)) }
    ensures { GrowsBl code.old code.new task.now firsts.now (plain_list task.now.cells stmts.now) }
{
    for stmt in stmts {
        emit_stmt(code, task, firsts, stmt);
    }
}

// The instructions of a statement.
#[cycle(emit)]
#[tactic(auto, using(mc_tree::proofs::Plain::plain_rules))]
fn emit_stmt(code: &mut Vec<Slot>, task: &Task, firsts: &[u16], stmt: &Stmt)
    requires low { IsLow (params_of task.now) (plain_stmt task.now.cells stmt.now) }
    requires room { HasRoom code.old (st_len (params_of task.now) (plain_stmt task.now.cells stmt.now)) }
    ensures { GrowsSt code.old code.new task.now firsts.now (plain_stmt task.now.cells stmt.now) }
{
    let cells = task.cells.as_slice();
    match stmt {
        Stmt::Set { cell, value } => {
            emit_expr(code, cells, value, 0);
            put(code, Instr::Store(place(cells, *cell)), 1);
        }
        Stmt::SetAt { cell, index, value } => {
            emit_expr(code, cells, index, 0);
            emit_expr(code, cells, value, 1);
            let place = place(cells, *cell);
            let width = width(cells, *cell);
            put(code, Instr::StoreX { place, width }, 2);
        }
        Stmt::Call { cell, func, args } => {
            emit_call(code, task, firsts, *cell, *func, args.as_slice());
        }
        Stmt::If { test, first, other } => match other {
            None => emit_when(code, task, firsts, test, first.as_slice()),
            Some(other) => {
                emit_choice(code, task, firsts, test, first.as_slice(), other.as_slice());
            }
        },
        Stmt::While {
            counter,
            bound,
            test,
            body,
        } => emit_loop(code, task, firsts, *counter, *bound, test, body.as_slice()),
        Stmt::Scope {
            counter,
            bound: _,
            body,
        } => {
            put(code, Instr::CZero(*counter), 0);
            emit_block(code, task, firsts, body.as_slice());
        }
        Stmt::Mark { counter, bound } => {
            let (counter, bound) = (*counter, *bound);
            put(code, Instr::CInc { counter, bound }, 0);
        }
        Stmt::Sequence {
            counter,
            bound,
            loops,
        } => {
            let (total, most) = (*counter, *bound);
            put(code, Instr::CZero(total), 0);
            emit_loops(code, task, firsts, total, most, loops.as_slice());
        }
    }
}

// The instructions of an `if` without `else`: JZ passes over the block.
#[cycle(emit)]
fn emit_when(code: &mut Vec<Slot>, task: &Task, firsts: &[u16], test: &Expr, first: &[Stmt])
    requires low { IsLow (params_of task.now) (When (plain_expr task.now.cells test.now) (plain_list task.now.cells first.now)) }
    requires room { HasRoom code.old (st_len (params_of task.now) (When (plain_expr task.now.cells test.now) (plain_list task.now.cells first.now))) }
    ensures { GrowsSt code.old code.new task.now firsts.now (When (plain_expr task.now.cells test.now) (plain_list task.now.cells first.now)) }
{
    emit_expr(code, task.cells.as_slice(), test, 0);
    let leave = next(code);
    put(code, Instr::Jz(0), 1);
    emit_block(code, task, firsts, first);
    let end = next(code);
    mend(code, leave, Instr::Jz(end), 1);
}

// The instructions of an `if` with `else`: JZ goes to the second block, and JMP passes over it.
#[cycle(emit)]
fn emit_choice(
    code: &mut Vec<Slot>,
    task: &Task,
    firsts: &[u16],
    test: &Expr,
    first: &[Stmt],
    other: &[Stmt],
)
    requires low { IsLow (params_of task.now) (Choice (plain_expr task.now.cells test.now) (plain_list task.now.cells first.now) (plain_list task.now.cells other.now)) }
    requires room { HasRoom code.old (st_len (params_of task.now) (Choice (plain_expr task.now.cells test.now) (plain_list task.now.cells first.now) (plain_list task.now.cells other.now))) }
    ensures { GrowsSt code.old code.new task.now firsts.now (Choice (plain_expr task.now.cells test.now) (plain_list task.now.cells first.now) (plain_list task.now.cells other.now)) }
{
    emit_expr(code, task.cells.as_slice(), test, 0);
    let leave = next(code);
    put(code, Instr::Jz(0), 1);
    emit_block(code, task, firsts, first);
    let skip = next(code);
    put(code, Instr::Jmp(0), 0);
    let start = next(code);
    mend(code, leave, Instr::Jz(start), 1);
    emit_block(code, task, firsts, other);
    let end = next(code);
    mend(code, skip, Instr::Jmp(end), 0);
}

// The instructions of a `while`: a counter of its turns, the test, the block, and JMP back to the test.
#[cycle(emit)]
fn emit_loop(
    code: &mut Vec<Slot>,
    task: &Task,
    firsts: &[u16],
    counter: u8,
    bound: u16,
    test: &Expr,
    body: &[Stmt],
)
    requires low { IsLow (params_of task.now) (Loop counter bound (plain_expr task.now.cells test.now) (plain_list task.now.cells body.now)) }
    requires room { HasRoom code.old (st_len (params_of task.now) (Loop counter bound (plain_expr task.now.cells test.now) (plain_list task.now.cells body.now))) }
    ensures { GrowsSt code.old code.new task.now firsts.now (Loop counter bound (plain_expr task.now.cells test.now) (plain_list task.now.cells body.now)) }
{
    put(code, Instr::CZero(counter), 0);
    let head = next(code);
    emit_expr(code, task.cells.as_slice(), test, 0);
    let leave = next(code);
    put(code, Instr::Jz(0), 1);
    let turn = Instr::CInc { counter, bound };
    put(code, turn, 0);
    emit_block(code, task, firsts, body);
    put(code, Instr::Jmp(head), 0);
    let end = next(code);
    mend(code, leave, Instr::Jz(end), 1);
}

// The loops of a sequence, whose counter of all turns is `total` with the bound `most`.
#[cycle(emit)]
fn emit_loops(
    code: &mut Vec<Slot>,
    task: &Task,
    firsts: &[u16],
    total: u8,
    most: u16,
    loops: &[Stmt],
)
    requires low { IsLowL (params_of task.now) (plain_loops task.now.cells loops.now) }
    requires room { HasRoom code.old (ls_len (params_of task.now) (plain_loops task.now.cells loops.now)) }
    ensures { GrowsLs code.old code.new task.now firsts.now total most (plain_loops task.now.cells loops.now) }
{
    for stmt in loops {
        emit_part(code, task, firsts, total, most, stmt);
    }
}

// A statement of a sequence; nothing but loops stands in one.
#[cycle(emit)]
#[tactic(auto, using(mc_tree::proofs::Plain::plain_rules, crate::proofs::Grow::grow_rules))]
fn emit_part(code: &mut Vec<Slot>, task: &Task, firsts: &[u16], total: u8, most: u16, stmt: &Stmt)
    requires low { IsLowL (params_of task.now) (loop_before (plain_stmt task.now.cells stmt.now) NoLoop) }
    requires room { HasRoom code.old (ls_len (params_of task.now) (loop_before (plain_stmt task.now.cells stmt.now) NoLoop)) }
    ensures { GrowsLs code.old code.new task.now firsts.now total most (loop_before (plain_stmt task.now.cells stmt.now) NoLoop) }
{
    match stmt {
        Stmt::While {
            counter,
            bound,
            test,
            body,
        } => {
            let body = body.as_slice();
            emit_turns(
                code, task, firsts, total, most, *counter, *bound, test, body,
            );
        }
        Stmt::Set { .. } | Stmt::SetAt { .. } | Stmt::Call { .. } | Stmt::If { .. } => {}
        Stmt::Scope { .. } | Stmt::Mark { .. } | Stmt::Sequence { .. } => {}
    }
}

// The instructions of a loop in a sequence: each turn is counted for the loop, and then for the sequence.
#[allow(clippy::too_many_arguments)]
#[cycle(emit)]
fn emit_turns(
    code: &mut Vec<Slot>,
    task: &Task,
    firsts: &[u16],
    total: u8,
    most: u16,
    counter: u8,
    bound: u16,
    test: &Expr,
    body: &[Stmt],
)
    requires low { IsLowL (params_of task.now) (OneLoop counter bound (plain_expr task.now.cells test.now) (plain_list task.now.cells body.now) NoLoop) }
    requires room { HasRoom code.old (ls_len (params_of task.now) (OneLoop counter bound (plain_expr task.now.cells test.now) (plain_list task.now.cells body.now) NoLoop)) }
    ensures { GrowsLs code.old code.new task.now firsts.now total most (OneLoop counter bound (plain_expr task.now.cells test.now) (plain_list task.now.cells body.now) NoLoop) }
{
    put(code, Instr::CZero(counter), 0);
    let start = next(code);
    emit_expr(code, task.cells.as_slice(), test, 0);
    let leave = next(code);
    put(code, Instr::Jz(0), 1);
    let own = Instr::CInc { counter, bound };
    let all = Instr::CInc {
        counter: total,
        bound: most,
    };
    put(code, own, 0);
    put(code, all, 0);
    emit_block(code, task, firsts, body);
    put(code, Instr::Jmp(start), 0);
    let end = next(code);
    mend(code, leave, Instr::Jz(end), 1);
}

/// The instructions of a function: its statements, its answer, and RET.
pub fn emit_func(code: &mut Vec<Slot>, task: &Task, firsts: &[u16], func: &Func)
    requires low { IsLowF (params_of task.now) (plain_func task.now.cells func.now) }
    requires room { HasRoom code.old (fn_len (params_of task.now) (plain_func task.now.cells func.now)) }
    ensures { GrowsFn code.old code.new task.now firsts.now (plain_func task.now.cells func.now) }
{
    emit_block(code, task, firsts, func.body.as_slice());
    emit_expr(code, task.cells.as_slice(), &func.answer, 0);
    put(code, Instr::Ret, 1);
}
