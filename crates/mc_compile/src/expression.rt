//! The instructions of expressions, arguments and parameters.
ghost use Rattle.std.specs.Prelude.{◌≡◌, ◌+◌, ◌<◌, ◌≤◌, [], ◌∷◌, length, map, vec_len, vec_capacity};
ghost use Rattle.mc_compile.specs.Emit.{Grows};
ghost use Rattle.mc_compile.specs.Translate.{slot, unary_instr, between, negated, joined, ex_len, ex_code, args_len, args_code, stores_code};
ghost use Rattle.mc_tree.specs.Height.{height, args_height};
ghost use Rattle.mc_tree.specs.Plain.{place_in, width_in, plain_expr, plain_args};

use mars_base::{BinOp, UnOp};
use mc_tree::{Cell, Expr};
use word_code::{Instr, Slot};

/// One more instruction, with the number of operands on the stack before it.
pub fn put(code: &mut Vec<Slot>, instr: Instr, operands: u8)
    requires { vec_len code.old < vec_capacity code.old }
    ensures { Grows code.old code.new (slot instr operands ∷ []) 1 }
{
    code.push_reserved(Slot {
        instr,
        height: operands,
    });
}

/// The place of the first word of a cell.
pub fn place(cells: &[Cell], cell: u16) -> u16
    ensures { result ≡ place_in cells.now cell }
{
    match sqlite_items::at(cells, usize::from(cell)) {
        Some(found) => found.place,
        None => 0,
    }
}

/// How many words a cell has.
pub fn width(cells: &[Cell], cell: u16) -> u16
    ensures { result ≡ width_in cells.now cell }
{
    match sqlite_items::at(cells, usize::from(cell)) {
        Some(found) => found.width,
        None => 0,
    }
}

// The instruction of an operator before its operand.
fn unary(op: UnOp) -> Instr
    ensures { result ≡ unary_instr op }
{
    match op {
        UnOp::Neg => Instr::Neg,
        UnOp::Not => Instr::Not,
        UnOp::Inv => Instr::Inv,
    }
}

// What stands between the two operands, with `base` operands below both.
fn put_between(code: &mut Vec<Slot>, op: BinOp, base: u8)
    requires low { base ≤ 64 }
    requires room { vec_len code.old + length (between op 0) ≤ vec_capacity code.old }
    ensures { Grows code.old code.new (between op base) (length (between op 0)) }
{
    if op == BinOp::And {
        put(code, Instr::Not, base + 1);
    }
}

// An instruction and its opposite.
fn put_negated(code: &mut Vec<Slot>, instr: Instr, base: u8)
    requires low { base ≤ 64 }
    requires room { vec_len code.old + 2 ≤ vec_capacity code.old }
    ensures { Grows code.old code.new (negated instr base) 2 }
{
    put(code, instr, base + 2);
    put(code, Instr::Not, base + 1);
}

// Whether a word isn't 0, of the bits of two.
fn put_or(code: &mut Vec<Slot>, base: u8)
    requires low { base ≤ 64 }
    requires room { vec_len code.old + 3 ≤ vec_capacity code.old }
    ensures { Grows code.old code.new (joined BinOp.Or base) 3 }
{
    put_negated(code, Instr::Or, base);
    put(code, Instr::Not, base + 1);
}

// Whether both words aren't 0; that the left one is 0 stands on the stack.
fn put_and(code: &mut Vec<Slot>, base: u8)
    requires low { base ≤ 64 }
    requires room { vec_len code.old + 3 ≤ vec_capacity code.old }
    ensures { Grows code.old code.new (joined BinOp.And base) 3 }
{
    put(code, Instr::Not, base + 2);
    put_negated(code, Instr::Or, base);
}

// What stands behind both operands, with `base` operands below both.
fn put_joined(code: &mut Vec<Slot>, op: BinOp, base: u8)
    requires low { base ≤ 64 }
    requires room { vec_len code.old + length (joined op 0) ≤ vec_capacity code.old }
    ensures { Grows code.old code.new (joined op base) (length (joined op 0)) }
{
    match op {
        BinOp::Or => put_or(code, base),
        BinOp::And => put_and(code, base),
        BinOp::BitOr => put(code, Instr::Or, base + 2),
        BinOp::BitXor => put(code, Instr::Xor, base + 2),
        BinOp::BitAnd => put(code, Instr::And, base + 2),
        BinOp::Eq => put(code, Instr::Eq, base + 2),
        BinOp::Ne => put_negated(code, Instr::Eq, base),
        BinOp::Lt => put(code, Instr::Lt, base + 2),
        BinOp::Le => put(code, Instr::Le, base + 2),
        BinOp::Gt => put_negated(code, Instr::Le, base),
        BinOp::Ge => put_negated(code, Instr::Lt, base),
        BinOp::Shl => put(code, Instr::Shl, base + 2),
        BinOp::Shr => put(code, Instr::Shr, base + 2),
        BinOp::Add => put(code, Instr::Add, base + 2),
        BinOp::Sub => put(code, Instr::Sub, base + 2),
        BinOp::Mul => put(code, Instr::Mul, base + 2),
        BinOp::Div => put(code, Instr::Div, base + 2),
        BinOp::Rem => put(code, Instr::Rem, base + 2),
    }
}

/// The instructions of an expression, with `base` operands on the stack before it.
#[tactic(auto, using(mc_tree::proofs::Plain::plain_rules))]
pub fn emit_expr(code: &mut Vec<Slot>, cells: &[Cell], expr: &Expr, base: u8)
    requires low { base + height (plain_expr cells.now expr.now) ≤ 64 }
    requires room { vec_len code.old + ex_len (plain_expr cells.now expr.now) ≤ vec_capacity code.old }
    ensures { Grows code.old code.new (ex_code base (plain_expr cells.now expr.now)) (ex_len (plain_expr cells.now expr.now)) }
{
    match expr {
        Expr::Number(word) => put(code, Instr::Push(*word), base),
        Expr::Cell(cell) => put(code, Instr::Load(place(cells, *cell)), base),
        Expr::At { cell, index } => {
            emit_expr(code, cells, index.get(), base);
            let place = place(cells, *cell);
            let width = width(cells, *cell);
            put(code, Instr::LoadX { place, width }, base + 1);
        }
        Expr::Unary { op, arg } => {
            emit_expr(code, cells, arg.get(), base);
            put(code, unary(*op), base + 1);
        }
        Expr::Binary { op, left, right } => {
            emit_expr(code, cells, left.get(), base);
            put_between(code, *op, base);
            emit_expr(code, cells, right.get(), base + 1);
            put_joined(code, *op, base);
        }
    }
}

/// The instructions of a call's arguments, from left to right.
pub fn emit_args(code: &mut Vec<Slot>, cells: &[Cell], args: &[Expr])
    requires low { args_height (plain_args cells.now args.now) ≤ 64 }
    requires room { vec_len code.old + args_len (plain_args cells.now args.now) ≤ vec_capacity code.old }
    ensures { Grows code.old code.new (args_code 0 (plain_args cells.now args.now)) (args_len (plain_args cells.now args.now)) }
{
    let mut base = 0u8;
    for arg in args {
        emit_expr(code, cells, arg, base);
        base += 1;
    }
}

/// The stores of a function's parameters, the last one first.
pub fn emit_stores(code: &mut Vec<Slot>, cells: &[Cell], params: &[u16])
    requires few { length params.now ≤ 64 }
    requires room { vec_len code.old + length params.now ≤ vec_capacity code.old }
    ensures { Grows code.old code.new (stores_code 0 (map (place_in cells.now) params.now)) (length params.now) }
{
    let mut left = params.len();
    while left > 0 {
        left -= 1;
        let place = place(cells, params[left]);
        put(code, Instr::Store(place), left as u8 + 1);
    }
}
