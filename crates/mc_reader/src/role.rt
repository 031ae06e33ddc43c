//! What signs are in an expression.
ghost use Rattle.std.specs.Prelude.{◌≡◌};
ghost use Rattle.mc_tree.specs.Operators.{level};
ghost use Rattle.mc_reader.specs.Roles.{lead, trail};

use mars_base::{BinOp, UnOp};
use mc_tree::Sign;

/// What a sign is where an operand begins.
#[derive(Clone, Copy)]
pub enum Lead {
    /// It opens a parenthesis.
    Opens,
    /// It is an operator before its operand.
    Unary(UnOp),
    /// Nothing.
    Other,
}

/// What a sign is where an operand has ended.
#[derive(Clone, Copy)]
pub enum Trail {
    /// It is an operator between its operands.
    Binary(BinOp),
    /// It closes a parenthesis.
    Closes,
    /// It begins an index.
    Indexes,
    /// It ends an index.
    ClosesAt,
    /// It ends a statement.
    Ends,
    /// It stands between two arguments.
    Comma,
    /// Nothing.
    Other,
}

/// The level of an operator, from the weakest on.
pub fn level_of(op: BinOp) -> u8
    ensures { result ≡ level op }
{
    match op {
        BinOp::Or => 0,
        BinOp::And => 1,
        BinOp::BitOr => 2,
        BinOp::BitXor => 3,
        BinOp::BitAnd => 4,
        BinOp::Eq | BinOp::Ne => 5,
        BinOp::Lt | BinOp::Le | BinOp::Gt | BinOp::Ge => 6,
        BinOp::Shl | BinOp::Shr => 7,
        BinOp::Add | BinOp::Sub => 8,
        BinOp::Mul | BinOp::Div | BinOp::Rem => 9,
    }
}

/// What a sign is where an operand begins.
pub fn lead_of(sign: Sign) -> Lead
    ensures { result ≡ lead sign }
{
    match sign {
        Sign::OpenParen => Lead::Opens,
        Sign::Minus => Lead::Unary(UnOp::Neg),
        Sign::Exclamation => Lead::Unary(UnOp::Not),
        Sign::Tilde => Lead::Unary(UnOp::Inv),
        _ => Lead::Other,
    }
}

/// What a sign is where an operand has ended.
pub fn trail_of(sign: Sign) -> Trail
    ensures { result ≡ trail sign }
{
    match sign {
        Sign::OrOr => Trail::Binary(BinOp::Or),
        Sign::AndAnd => Trail::Binary(BinOp::And),
        Sign::Bar => Trail::Binary(BinOp::BitOr),
        Sign::Caret => Trail::Binary(BinOp::BitXor),
        Sign::Ampersand => Trail::Binary(BinOp::BitAnd),
        Sign::EqualEqual => Trail::Binary(BinOp::Eq),
        Sign::NotEqual => Trail::Binary(BinOp::Ne),
        Sign::Less => Trail::Binary(BinOp::Lt),
        Sign::LessEqual => Trail::Binary(BinOp::Le),
        Sign::Greater => Trail::Binary(BinOp::Gt),
        Sign::GreaterEqual => Trail::Binary(BinOp::Ge),
        Sign::ShiftLeft => Trail::Binary(BinOp::Shl),
        Sign::ShiftRight => Trail::Binary(BinOp::Shr),
        Sign::Plus => Trail::Binary(BinOp::Add),
        Sign::Minus => Trail::Binary(BinOp::Sub),
        Sign::Star => Trail::Binary(BinOp::Mul),
        Sign::Slash => Trail::Binary(BinOp::Div),
        Sign::Percent => Trail::Binary(BinOp::Rem),
        Sign::CloseParen => Trail::Closes,
        Sign::OpenBracket => Trail::Indexes,
        Sign::CloseBracket => Trail::ClosesAt,
        Sign::Semicolon => Trail::Ends,
        Sign::Comma => Trail::Comma,
        _ => Trail::Other,
    }
}
