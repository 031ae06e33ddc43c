//! The rules that a raw tree must keep, by the fault that breaks each.
ghost use Rattle.std.specs.Prelude.{◌≡◌};
ghost use Rattle.mc_tree.specs.Kinds.{rank_of, printed};

use mars_base::Span;

/// A fault of a raw tree. Of several the one with the least start is told, and among these the first
/// in this order.
#[derive(Clone, Copy, Debug, PartialEq, Eq)]
pub enum Kind {
    /// A declared name equals a visible one.
    TwiceNamed,
    /// A name used as a cell names no visible cell, or a called name no function of the file.
    UnknownName,
    /// An index on a cell of width 1.
    NotAnArray,
    /// A cell of width 2 or more without an index.
    IsAnArray,
    /// A port's width isn't 1 to 16, or a state's or local's isn't 1 to 4,096.
    WrongWidth,
    /// A number in an expression is above 2,147,483,647.
    ConstantOutOfRange,
    /// A function calls itself or a later one.
    Recursion,
    /// A call has another number of arguments than its function.
    WrongArgumentCount,
    /// A mark's name isn't the innermost scope's around it.
    MarkOutsideItsScope,
    /// A mark in a loop of a sequence whose innermost scope has that sequence inside.
    MarkOfAnOuterScope,
    /// A statement directly in a sequence isn't a while.
    NotALoop,
    /// A while's or sequence's bound is 0.
    ZeroBound,
    /// A while's or sequence's bound is above 65,535, or a scope's above 1,023.
    BoundTooLarge,
    /// The cells pass 4,096 words, the ports 16 or the functions 16.
    TooMany,
    /// The whiles, scopes and sequences pass 256.
    TooManyCounters,
    /// A statement needs more than 64 operand words.
    ExpressionTooDeep,
    /// There is no body.
    NoBody,
}

impl Kind {
    /// The kind's place in the order of the rules, 1 to 17: of two faults that start at one place the
    /// lower one is told.
    pub fn rank(self) -> u8
        ensures { result ≡ rank_of self }
    {
        match self {
            Kind::TwiceNamed => 1,
            Kind::UnknownName => 2,
            Kind::NotAnArray => 3,
            Kind::IsAnArray => 4,
            Kind::WrongWidth => 5,
            Kind::ConstantOutOfRange => 6,
            Kind::Recursion => 7,
            Kind::WrongArgumentCount => 8,
            Kind::MarkOutsideItsScope => 9,
            Kind::MarkOfAnOuterScope => 10,
            Kind::NotALoop => 11,
            Kind::ZeroBound => 12,
            Kind::BoundTooLarge => 13,
            Kind::TooMany => 14,
            Kind::TooManyCounters => 15,
            Kind::ExpressionTooDeep => 16,
            Kind::NoBody => 17,
        }
    }

    /// The words that tell the fault to the user.
    pub fn text(self) -> &'static [u8]
        ensures { result.now ≡ printed self }
    {
        match self {
            Kind::TwiceNamed => b"twice named",
            Kind::UnknownName => b"unknown name",
            Kind::NotAnArray => b"not an array",
            Kind::IsAnArray => b"is an array",
            Kind::WrongWidth => b"wrong width",
            Kind::ConstantOutOfRange => b"constant out of range",
            Kind::Recursion => b"recursion",
            Kind::WrongArgumentCount => b"wrong argument count",
            Kind::MarkOutsideItsScope => b"mark outside its scope",
            Kind::MarkOfAnOuterScope => b"mark of an outer scope",
            Kind::NotALoop => b"not a loop",
            Kind::ZeroBound => b"zero bound",
            Kind::BoundTooLarge => b"bound too large",
            Kind::TooMany => b"too many",
            Kind::TooManyCounters => b"too many counters",
            Kind::ExpressionTooDeep => b"expression too deep",
            Kind::NoBody => b"no body",
        }
    }
}

/// A rule that a tree breaks, and the part of the text that breaks it.
#[derive(Clone, Copy, Debug, PartialEq, Eq)]
pub struct Fault {
    pub kind: Kind,
    pub span: Span,
}
