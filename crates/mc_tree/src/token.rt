//! The tokens of a source text.
use mars_base::Span;

/// A token and where it stands.
#[derive(Clone, Copy, Debug, PartialEq, Eq)]
pub struct Token {
    pub kind: TokenKind,
    pub span: Span,
}

/// What a token is.
#[derive(Clone, Copy, Debug, PartialEq, Eq)]
pub enum TokenKind {
    /// A letter or `_`, followed by letters, digits and `_`, that is no keyword.
    Name,
    /// A number, kept up to 2^32; a greater one is kept as 2^32.
    Number(u64),
    /// A keyword.
    Key(Key),
    /// A sign.
    Sign(Sign),
}

/// A keyword, spelled as its variant in lower case.
#[derive(Clone, Copy, Debug, PartialEq, Eq)]
pub enum Key {
    Task,
    In,
    Out,
    State,
    Func,
    Return,
    Body,
    Var,
    If,
    Else,
    While,
    Max,
    Scope,
    Mark,
    Sequence,
}

/// A sign.
#[derive(Clone, Copy, Debug, PartialEq, Eq)]
pub enum Sign {
    /// `;`
    Semicolon,
    /// `,`
    Comma,
    /// `(`
    OpenParen,
    /// `)`
    CloseParen,
    /// `[`
    OpenBracket,
    /// `]`
    CloseBracket,
    /// `{`
    OpenBrace,
    /// `}`
    CloseBrace,
    /// `=`
    Assign,
    /// `||`
    OrOr,
    /// `&&`
    AndAnd,
    /// `|`
    Bar,
    /// `^`
    Caret,
    /// `&`
    Ampersand,
    /// `==`
    EqualEqual,
    /// `!=`
    NotEqual,
    /// `<`
    Less,
    /// `<=`
    LessEqual,
    /// `>`
    Greater,
    /// `>=`
    GreaterEqual,
    /// `<<`
    ShiftLeft,
    /// `>>`
    ShiftRight,
    /// `+`
    Plus,
    /// `-`
    Minus,
    /// `*`
    Star,
    /// `/`
    Slash,
    /// `%`
    Percent,
    /// `!`
    Exclamation,
    /// `~`
    Tilde,
}
