//! Words and their operators. A word is a signed 32-bit number in two's complement.
ghost use Rattle.std.specs.Prelude.{◌≡◌};
ghost use Rattle.mars_base.specs.Word.{binary_of, unary_of, truth_of};

/// An operator of two words, weakest binding first.
#[derive(Clone, Copy, Debug, PartialEq, Eq)]
pub enum BinOp {
    /// `||`: 1 where a side isn't 0, else 0. Both sides are evaluated.
    Or,
    /// `&&`: 1 where neither side is 0, else 0. Both sides are evaluated.
    And,
    /// `|`, bit by bit.
    BitOr,
    /// `^`, bit by bit.
    BitXor,
    /// `&`, bit by bit.
    BitAnd,
    /// `==`: 1 or 0.
    Eq,
    /// `!=`: 1 or 0.
    Ne,
    /// `<`: 1 or 0.
    Lt,
    /// `<=`: 1 or 0.
    Le,
    /// `>`: 1 or 0.
    Gt,
    /// `>=`: 1 or 0.
    Ge,
    /// `<<` by the low five bits of the right word.
    Shl,
    /// `>>` by the low five bits of the right word; the sign fills.
    Shr,
    /// `+`, which wraps.
    Add,
    /// `-`, which wraps.
    Sub,
    /// `*`, which wraps.
    Mul,
    /// `/`, truncated toward zero. It has no word where the divisor is 0.
    Div,
    /// `%`, with the sign of the left word. It has no word where the divisor is 0.
    Rem,
}

/// An operator of one word.
#[derive(Clone, Copy, Debug, PartialEq, Eq)]
pub enum UnOp {
    /// `-`, which wraps.
    Neg,
    /// `!`: 1 where the word is 0, else 0.
    Not,
    /// `~`, bit by bit.
    Inv,
}

/// What a cell of a task is for.
#[derive(Clone, Copy, Debug, PartialEq, Eq)]
pub enum Role {
    /// A port that holds the given words when an instance begins.
    In,
    /// A port whose words are given when an instance ends.
    Out,
    /// A cell that holds from one instance to the next.
    State,
    /// A cell that is 0 when an instance begins, and is given to nobody.
    Local,
}

/// The word that an operator gives for two words, as ISO C's operators on 32 bits with sums,
/// differences and products that wrap. There is none exactly where the operator is `Div` or `Rem` and
/// the right word is 0; the least word divided by -1 is the least word, and its remainder is 0.
pub fn binary(op: BinOp, a: i32, b: i32) -> Option<i32>
    ensures { result ≡ binary_of op a b }
{
    match op {
        BinOp::Or => Some(truth(a != 0 || b != 0)),
        BinOp::And => Some(truth(a != 0 && b != 0)),
        BinOp::BitOr => Some(a | b),
        BinOp::BitXor => Some(a ^ b),
        BinOp::BitAnd => Some(a & b),
        BinOp::Eq => Some(truth(a == b)),
        BinOp::Ne => Some(truth(a != b)),
        BinOp::Lt => Some(truth(a < b)),
        BinOp::Le => Some(truth(a <= b)),
        BinOp::Gt => Some(truth(a > b)),
        BinOp::Ge => Some(truth(a >= b)),
        BinOp::Shl => Some(a.wrapping_shl(b.cast_unsigned())),
        BinOp::Shr => Some(a.wrapping_shr(b.cast_unsigned())),
        BinOp::Add => Some(a.wrapping_add(b)),
        BinOp::Sub => Some(a.wrapping_sub(b)),
        BinOp::Mul => Some(a.wrapping_mul(b)),
        BinOp::Div => quotient(a, b),
        BinOp::Rem => remainder(a, b),
    }
}

/// The word that an operator gives for one word.
pub fn unary(op: UnOp, a: i32) -> i32
    ensures { result ≡ unary_of op a }
{
    match op {
        UnOp::Neg => a.wrapping_neg(),
        UnOp::Not => truth(a == 0),
        UnOp::Inv => !a,
    }
}

// 1 or 0.
fn truth(holds: bool) -> i32
    ensures { result ≡ truth_of holds }
{
    if holds { 1 } else { 0 }
}

// The quotient, truncated toward zero.
fn quotient(a: i32, b: i32) -> Option<i32>
    ensures { result ≡ binary_of BinOp.Div a b }
{
    if b == 0 {
        return None;
    }
    Some(a.wrapping_div(b))
}

// The remainder, with the sign of a.
fn remainder(a: i32, b: i32) -> Option<i32>
    ensures { result ≡ binary_of BinOp.Rem a b }
{
    if b == 0 {
        return None;
    }
    Some(a.wrapping_rem(b))
}
