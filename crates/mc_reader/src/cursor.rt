//! A place among the tokens, and what single token stands there.
ghost use Rattle.std.specs.Prelude.{◌≡◌, ◌≤◌, ◌<◌, ◌∷◌, [], ◌++◌, ℕ, List, length, drop, None, Some, true, false, IfOk, MatchResult, MatchOption};
ghost use Rattle.mc_tree.specs.Raw.{join as joined};
ghost use Rattle.mc_tree.specs.Expression.{name_at};
ghost use Rattle.mc_tree.specs.Tokens.{SpansInOrder};
ghost use Rattle.mc_tree.specs.declared.token.Token.{Token as RawToken};
ghost use Rattle.mc_reader.specs.declared.ReadFault.TheVariants.{Memory as NoMemory};
ghost use Rattle.mc_reader.specs.Readers.{same_sign, same_key, at_sign, at_key, at_number, at_name, sign as sign_reader, key as key_reader, number as number_reader, name as name_reader, next_is};
ghost use Rattle.mc_reader.specs.Reading.{Good, Misses};
ghost use Rattle.mc_reader.specs.Answers.{Answers, itself};
ghost use Rattle.mc_reader.specs.Frames.{IsInside};

use crate::ReadFault;
use mars_base::{Memory, Span, Text};
use mc_tree::{Key, Name, RawNumber, Sign, Token, TokenKind};
use sqlite_items::Items;
use std::alloc::Global;

/// A place among the tokens.
#[derive(Drop)]
pub struct Cursor {
    /// The number of the next token.
    pub at: usize,
}

impl Cursor {
    /// The sign.
    pub fn sign(&mut self, tokens: &[Token], wanted: Sign) -> Result<Span, ReadFault>
        requires few { length tokens.now ≤ 65536 }
        requires within { self.old.at ≤ length tokens.now }
        ensures { Answers (sign_reader wanted) itself tokens.now self.old.at self.new.at result }
    {
        if self.at >= tokens.len() {
            return Err(ReadFault::Syntax(self.at as u32));
        }
        match sign_at(tokens[self.at], wanted) {
            Some(span) => {
                self.at += 1;
                Ok(span)
            }
            None => Err(ReadFault::Syntax(self.at as u32)),
        }
    }

    /// A number.
    pub fn number(&mut self, tokens: &[Token]) -> Result<RawNumber, ReadFault>
        requires few { length tokens.now ≤ 65536 }
        requires within { self.old.at ≤ length tokens.now }
        ensures { Answers number_reader itself tokens.now self.old.at self.new.at result }
    {
        if self.at >= tokens.len() {
            return Err(ReadFault::Syntax(self.at as u32));
        }
        match number_at(tokens[self.at]) {
            Some(number) => {
                self.at += 1;
                Ok(number)
            }
            None => Err(ReadFault::Syntax(self.at as u32)),
        }
    }

    /// The keyword.
    pub fn key(&mut self, tokens: &[Token], wanted: Key) -> Result<Span, ReadFault>
        requires few { length tokens.now ≤ 65536 }
        requires within { self.old.at ≤ length tokens.now }
        ensures { Answers (key_reader wanted) itself tokens.now self.old.at self.new.at result }
    {
        if self.at >= tokens.len() {
            return Err(ReadFault::Syntax(self.at as u32));
        }
        match key_at(tokens[self.at], wanted) {
            Some(span) => {
                self.at += 1;
                Ok(span)
            }
            None => Err(ReadFault::Syntax(self.at as u32)),
        }
    }

    /// A name.
    pub fn name(&mut self, alloc: Global, bytes: &[u8], tokens: &[Token]) -> Result<Name, ReadFault>
        requires few { length tokens.now ≤ 65536 }
        requires order { SpansInOrder 0 tokens.now (length bytes.now) }
        requires within { self.old.at ≤ length tokens.now }
        ensures { Answers (name_reader bytes.now) itself tokens.now self.old.at self.new.at result }
    {
        match self.takes_name(tokens) {
            Some(span) => match named(alloc, bytes, span) {
                Ok(name) => Ok(name),
                Err(_) => Err(ReadFault::Memory),
            },
            None => Err(ReadFault::Syntax(self.at as u32)),
        }
    }

    /// Whether the sign stands here; then it is taken.
    pub fn takes(&mut self, tokens: &[Token], wanted: Sign) -> bool
        requires within { self.old.at ≤ length tokens.now }
        ensures reads { next_is (at_sign wanted) (drop self.old.at tokens.now) ≡ Good result (drop self.new.at tokens.now) }
        ensures within { self.new.at ≤ length tokens.now }
        ensures later { result ≡ true → self.old.at < self.new.at }
    {
        if self.at >= tokens.len() {
            return false;
        }
        match sign_at(tokens[self.at], wanted) {
            Some(_) => {
                self.at += 1;
                true
            }
            None => false,
        }
    }

    /// Whether the keyword stands here; then it is taken.
    pub fn takes_key(&mut self, tokens: &[Token], wanted: Key) -> bool
        requires within { self.old.at ≤ length tokens.now }
        ensures reads { next_is (at_key wanted) (drop self.old.at tokens.now) ≡ Good result (drop self.new.at tokens.now) }
        ensures within { self.new.at ≤ length tokens.now }
    {
        if self.at >= tokens.len() {
            return false;
        }
        match key_at(tokens[self.at], wanted) {
            Some(_) => {
                self.at += 1;
                true
            }
            None => false,
        }
    }

    /// The place of the name that stands here; then it is taken.
    pub fn takes_name(&mut self, tokens: &[Token]) -> Option<Span>
        requires within { self.old.at ≤ length tokens.now }
        ensures reads { (bytes : List ℕ) → MatchOption result (Misses (at_name bytes) (drop self.old.at tokens.now) × (self.new.at ≡ self.old.at)) (λ p. name_reader bytes (drop self.old.at tokens.now) ≡ Good (name_at bytes p) (drop self.new.at tokens.now)) }
        ensures within { self.new.at ≤ length tokens.now }
        ensures inside { (end : ℕ) → SpansInOrder 0 tokens.now end → MatchOption result Unit (λ p. IsInside end p) }
    {
        if self.at >= tokens.len() {
            return None;
        }
        let token = tokens[self.at];
        if is_name(token) {
            self.at += 1;
            Some(token.span)
        } else {
            None
        }
    }
}

/// One more part of a list.
pub fn keep<T: Drop>(items: &mut Items<T>, item: T) -> Result<(), ReadFault>
    ensures { MatchResult result (λ u. items.new ≡ items.old ++ item ∷ []) (λ e. e ≡ NoMemory) }
{
    match items.push(item) {
        Ok(_) => Ok(()),
        Err(_) => Err(ReadFault::Memory),
    }
}

/// The name that stands at a span.
pub fn named(alloc: Global, bytes: &[u8], span: Span) -> Result<Name, Memory>
    requires { IsInside (length bytes.now) span }
    ensures { IfOk result (λ n. n ≡ name_at bytes.now span) }
{
    let text = Text::from_slice(alloc, &bytes[span.from as usize..span.to as usize])?;
    Ok(Name { text, span })
}

/// From the start of the first to the end of the second.
pub fn join(first: Span, second: Span) -> Span
    ensures { result ≡ joined first second }
{
    Span {
        from: first.from,
        to: second.to,
    }
}

/// The place of a token that is the keyword.
pub fn key_at(token: Token, wanted: Key) -> Option<Span>
    ensures { result ≡ at_key wanted token }
{
    match token.kind {
        TokenKind::Key(found) => {
            if is_key(found, wanted) {
                Some(token.span)
            } else {
                None
            }
        }
        _ => None,
    }
}

// Whether a sign is the one that is wanted.
fn is_sign(found: Sign, wanted: Sign) -> bool
    ensures { result ≡ same_sign found wanted }
{
    match (found, wanted) {
        (Sign::Semicolon, Sign::Semicolon) => true,
        (Sign::Comma, Sign::Comma) => true,
        (Sign::OpenParen, Sign::OpenParen) => true,
        (Sign::CloseParen, Sign::CloseParen) => true,
        (Sign::OpenBracket, Sign::OpenBracket) => true,
        (Sign::CloseBracket, Sign::CloseBracket) => true,
        (Sign::OpenBrace, Sign::OpenBrace) => true,
        (Sign::CloseBrace, Sign::CloseBrace) => true,
        (Sign::Assign, Sign::Assign) => true,
        _ => false,
    }
}

// The place of a token that is the sign.
fn sign_at(token: Token, wanted: Sign) -> Option<Span>
    ensures { result ≡ at_sign wanted token }
{
    match token.kind {
        TokenKind::Sign(found) => {
            if is_sign(found, wanted) {
                Some(token.span)
            } else {
                None
            }
        }
        _ => None,
    }
}

// Whether a keyword is the one that is wanted.
fn is_key(found: Key, wanted: Key) -> bool
    ensures { result ≡ same_key found wanted }
{
    match (found, wanted) {
        (Key::Task, Key::Task) => true,
        (Key::Func, Key::Func) => true,
        (Key::Return, Key::Return) => true,
        (Key::Body, Key::Body) => true,
        (Key::Var, Key::Var) => true,
        (Key::Else, Key::Else) => true,
        (Key::Max, Key::Max) => true,
        _ => false,
    }
}

// The number that a token is.
fn number_at(token: Token) -> Option<RawNumber>
    ensures { result ≡ at_number token }
{
    match token.kind {
        TokenKind::Number(value) => Some(RawNumber {
            value,
            span: token.span,
        }),
        _ => None,
    }
}

// Whether a token is a name.
fn is_name(token: Token) -> bool
    ensures yes { result ≡ true → (bytes : List ℕ) → at_name bytes token ≡ Some (name_at bytes token.span) }
    ensures no { result ≡ false → (bytes : List ℕ) → at_name bytes token ≡ None }
{
    match token.kind {
        TokenKind::Name => true,
        _ => false,
    }
}
