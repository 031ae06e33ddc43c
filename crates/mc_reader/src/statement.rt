//! Statements.
ghost use Rattle.std.specs.Prelude.{◌≡◌, ◌≤◌, ◌<◌, ◌∷◌, ℕ, List, length, drop, map, Some, MatchOption};
ghost use Rattle.mc_tree.specs.Tokens.{SpansInOrder};
ghost use Rattle.mc_tree.specs.Expression.{name_at};
ghost use Rattle.mc_tree.specs.RawPlain.{plain_stmt, plain_expr};
ghost use Rattle.mc_tree.specs.declared.token.Token.{Token as RawToken};
ghost use Rattle.mc_reader.specs.Reading.{Misses, token as token_reader};
ghost use Rattle.mc_reader.specs.Readers.{statements as statements_reader, value as value_reader, right as right_reader, simple, AName, assigned, ToAssign, ToIndex, rights, Callee, set_by, if_by, enclosed, at_wanted};
ghost use Rattle.mc_reader.specs.Answers.{Answers, itself, after_first};
ghost use Rattle.mc_reader.specs.Frames.{IsInside};
ghost use Rattle.mc_reader.specs.Plain.{plain_option, plain_stmts, begin_by, begin_map, at_begin_in, block_in, plain_block, statement_in, IsInsideBegin, plain_right, plain_target, target_map, plain_args, as_value};

use crate::ReadFault;
use crate::cursor::{Cursor, join, keep, named};
use crate::expression::{Now, rest_of, value};
use mars_base::Span;
use mc_tree::{Key, Name, RawExpr, RawStmt, Sign, Token, TokenKind};
use sqlite_items::Items;
use std::alloc::Global;

/// How a statement begins.
#[derive(Clone, Copy)]
pub enum Begin {
    Name(Span),
    Mark(Span),
    If(Span),
    While(Span),
    Scope(Span),
    Sequence(Span),
}

/// What an assignment sets.
#[derive(Clone, Copy)]
pub enum Target {
    /// A cell; its `=` was taken.
    Cell,
    /// An element; its `[` was taken.
    Element,
}

/// What stands to the right of an `=`.
#[derive(Drop)]
pub enum Right {
    Value(RawExpr),
    Called { func: Name, args: Items<RawExpr> },
}

/// Statements in braces.
#[derive(Drop)]
pub struct Block {
    pub items: Items<RawStmt>,
    /// The closing brace.
    pub to: Span,
}

// What statement a token begins, where so many levels are left.
fn begin_of(token: Token, levels: u32) -> Option<Begin>
    ensures { (bytes : List ℕ) → at_begin_in bytes levels token ≡ begin_map bytes result }
{
    match token.kind {
        TokenKind::Name => Some(Begin::Name(token.span)),
        TokenKind::Key(key) => match key {
            Key::Mark => Some(Begin::Mark(token.span)),
            Key::If if levels > 0 => Some(Begin::If(token.span)),
            Key::While if levels > 0 => Some(Begin::While(token.span)),
            Key::Scope if levels > 0 => Some(Begin::Scope(token.span)),
            Key::Sequence if levels > 0 => Some(Begin::Sequence(token.span)),
            _ => None,
        },
        _ => None,
    }
}

// What statement begins here; then its first token is taken.
fn takes_begin(cursor: &mut Cursor, tokens: &[Token], levels: u32) -> Option<Begin>
    requires within { cursor.old.at ≤ length tokens.now }
    ensures reads { (bytes : List ℕ) → MatchOption result (Misses (at_begin_in bytes levels) (drop cursor.old.at tokens.now) × (cursor.new.at ≡ cursor.old.at)) (λ b. (t : RawToken) × (drop cursor.old.at tokens.now ≡ t ∷ drop cursor.new.at tokens.now) × (at_begin_in bytes levels t ≡ Some (begin_by bytes b)) × (cursor.new.at ≤ length tokens.now) × (cursor.old.at < cursor.new.at)) }
    ensures inside { (end : ℕ) → SpansInOrder 0 tokens.now end → MatchOption result Unit (λ b. IsInsideBegin end b) }
{
    if cursor.at >= tokens.len() {
        return None;
    }
    match begin_of(tokens[cursor.at], levels) {
        Some(begin) => {
            cursor.at += 1;
            Some(begin)
        }
        None => None,
    }
}

/// Statements that may hold so many levels of compound ones.
#[cycle(nested)]
pub fn statements(
    alloc: Global,
    bytes: &[u8],
    cursor: &mut Cursor,
    tokens: &[Token],
    levels: u32,
) -> Result<Items<RawStmt>, ReadFault>
    requires few { length tokens.now ≤ 65536 }
    requires order { SpansInOrder 0 tokens.now (length bytes.now) }
    requires within { cursor.old.at ≤ length tokens.now }
    ensures { Answers (statements_reader bytes.now levels) plain_stmts tokens.now cursor.old.at cursor.new.at result }
{
    let mut items = Items::new(alloc);
    while let Some(begin) = takes_begin(cursor, tokens, levels) {
        match statement(alloc, bytes, cursor, tokens, levels, begin) {
            Ok(statement) => keep(&mut items, statement)?,
            Err(fault) => return Err(fault),
        }
    }
    Ok(items)
}

// A statement after its first token.
#[cycle(nested)]
#[tactic(auto, using(mc_tree::proofs::RawPlain::raw_rules))]
fn statement(
    alloc: Global,
    bytes: &[u8],
    cursor: &mut Cursor,
    tokens: &[Token],
    levels: u32,
    begin: Begin,
) -> Result<RawStmt, ReadFault>
    requires few { length tokens.now ≤ 65536 }
    requires order { SpansInOrder 0 tokens.now (length bytes.now) }
    requires within { cursor.old.at ≤ length tokens.now }
    requires inside { IsInsideBegin (length bytes.now) begin }
    ensures { Answers (statement_in bytes.now levels begin) plain_stmt tokens.now cursor.old.at cursor.new.at result }
{
    match begin {
        Begin::Name(span) => assignment(alloc, bytes, cursor, tokens, span),
        Begin::Mark(from) => {
            let name = cursor.name(alloc, bytes, tokens)?;
            let to = cursor.sign(tokens, Sign::Semicolon)?;
            Ok(RawStmt::Mark {
                name,
                span: join(from, to),
            })
        }
        Begin::If(from) => {
            cursor.sign(tokens, Sign::OpenParen)?;
            let test = value(alloc, bytes, cursor, tokens)?;
            cursor.sign(tokens, Sign::CloseParen)?;
            let first = braces(alloc, bytes, cursor, tokens, levels)?;
            let other = if cursor.takes_key(tokens, Key::Else) {
                Some(braces(alloc, bytes, cursor, tokens, levels)?)
            } else {
                None
            };
            Ok(choice(from, test, first, other))
        }
        Begin::While(from) => {
            cursor.key(tokens, Key::Max)?;
            let bound = cursor.number(tokens)?;
            cursor.sign(tokens, Sign::OpenParen)?;
            let test = value(alloc, bytes, cursor, tokens)?;
            cursor.sign(tokens, Sign::CloseParen)?;
            let block = braces(alloc, bytes, cursor, tokens, levels)?;
            Ok(RawStmt::While {
                bound,
                test,
                body: block.items,
                span: join(from, block.to),
            })
        }
        Begin::Scope(from) => {
            let name = cursor.name(alloc, bytes, tokens)?;
            cursor.key(tokens, Key::Max)?;
            let bound = cursor.number(tokens)?;
            let block = braces(alloc, bytes, cursor, tokens, levels)?;
            Ok(RawStmt::Scope {
                name,
                bound,
                body: block.items,
                span: join(from, block.to),
            })
        }
        Begin::Sequence(from) => {
            cursor.key(tokens, Key::Max)?;
            let bound = cursor.number(tokens)?;
            let block = braces(alloc, bytes, cursor, tokens, levels)?;
            Ok(RawStmt::Sequence {
                bound,
                body: block.items,
                span: join(from, block.to),
            })
        }
    }
}

#[cycle(nested)]
fn braces(
    alloc: Global,
    bytes: &[u8],
    cursor: &mut Cursor,
    tokens: &[Token],
    levels: u32,
) -> Result<Block, ReadFault>
    requires few { length tokens.now ≤ 65536 }
    requires order { SpansInOrder 0 tokens.now (length bytes.now) }
    requires within { cursor.old.at ≤ length tokens.now }
    ensures { Answers (block_in bytes.now levels) plain_block tokens.now cursor.old.at cursor.new.at result }
{
    if levels == 0 {
        return Err(ReadFault::Syntax(cursor.at as u32));
    }
    cursor.sign(tokens, Sign::OpenBrace)?;
    let items = statements(alloc, bytes, cursor, tokens, levels - 1)?;
    match cursor.sign(tokens, Sign::CloseBrace) {
        Ok(to) => Ok(Block { items, to }),
        Err(fault) => Err(fault),
    }
}

// An if, with or without else.
#[tactic(auto, using(mc_tree::proofs::RawPlain::raw_rules))]
fn choice(from: Span, test: RawExpr, first: Block, other: Option<Block>) -> RawStmt
    ensures { plain_stmt result ≡ if_by from (plain_expr test) (plain_block first) (plain_option other) }
{
    match other {
        None => RawStmt::If {
            test,
            first: first.items,
            other: None,
            span: join(from, first.to),
        },
        Some(block) => RawStmt::If {
            test,
            first: first.items,
            other: Some(block.items),
            span: join(from, block.to),
        },
    }
}

// An assignment or a call, after the name at its start.
fn assignment(
    alloc: Global,
    bytes: &[u8],
    cursor: &mut Cursor,
    tokens: &[Token],
    span: Span,
) -> Result<RawStmt, ReadFault>
    requires few { length tokens.now ≤ 65536 }
    requires order { SpansInOrder 0 tokens.now (length bytes.now) }
    requires within { cursor.old.at ≤ length tokens.now }
    requires inside { IsInside (length bytes.now) span }
    ensures { Answers (simple bytes.now (AName (name_at bytes.now span))) plain_stmt tokens.now cursor.old.at cursor.new.at result }
{
    let target = takes_target(cursor, tokens)?;
    let Ok(cell) = named(alloc, bytes, span) else {
        return Err(ReadFault::Memory);
    };
    match target {
        Target::Cell => cell_set(alloc, bytes, cursor, tokens, cell),
        Target::Element => element_set(alloc, bytes, cursor, tokens, cell),
    }
}

// The `=` or `[` after the name at an assignment's start.
fn takes_target(cursor: &mut Cursor, tokens: &[Token]) -> Result<Target, ReadFault>
    requires few { length tokens.now ≤ 65536 }
    requires within { cursor.old.at ≤ length tokens.now }
    ensures { Answers (token_reader at_wanted) plain_target tokens.now cursor.old.at cursor.new.at result }
{
    if cursor.at >= tokens.len() {
        return Err(ReadFault::Syntax(cursor.at as u32));
    }
    match target_of(tokens[cursor.at]) {
        Some(target) => {
            cursor.at += 1;
            Ok(target)
        }
        None => Err(ReadFault::Syntax(cursor.at as u32)),
    }
}

// What a token after the name at an assignment's start sets.
fn target_of(token: Token) -> Option<Target>
    ensures { at_wanted token ≡ target_map result }
{
    match token.kind {
        TokenKind::Sign(Sign::Assign) => Some(Target::Cell),
        TokenKind::Sign(Sign::OpenBracket) => Some(Target::Element),
        _ => None,
    }
}

// `cell = e;` or `cell = f(..);`, after the `=`.
fn cell_set(
    alloc: Global,
    bytes: &[u8],
    cursor: &mut Cursor,
    tokens: &[Token],
    cell: Name,
) -> Result<RawStmt, ReadFault>
    requires few { length tokens.now ≤ 65536 }
    requires order { SpansInOrder 0 tokens.now (length bytes.now) }
    requires within { cursor.old.at ≤ length tokens.now }
    ensures { Answers (assigned bytes.now cell ToAssign) plain_stmt tokens.now cursor.old.at cursor.new.at result }
{
    let right = right_side(alloc, bytes, cursor, tokens)?;
    let to = cursor.sign(tokens, Sign::Semicolon)?;
    Ok(set(cell, right, to))
}

// `cell[i] = e;`, after the `[`.
#[tactic(auto, using(mc_tree::proofs::RawPlain::raw_rules))]
fn element_set(
    alloc: Global,
    bytes: &[u8],
    cursor: &mut Cursor,
    tokens: &[Token],
    cell: Name,
) -> Result<RawStmt, ReadFault>
    requires few { length tokens.now ≤ 65536 }
    requires order { SpansInOrder 0 tokens.now (length bytes.now) }
    requires within { cursor.old.at ≤ length tokens.now }
    ensures { Answers (assigned bytes.now cell ToIndex) plain_stmt tokens.now cursor.old.at cursor.new.at result }
{
    let index = value(alloc, bytes, cursor, tokens)?;
    cursor.sign(tokens, Sign::CloseBracket)?;
    cursor.sign(tokens, Sign::Assign)?;
    let value = value(alloc, bytes, cursor, tokens)?;
    let to = cursor.sign(tokens, Sign::Semicolon)?;
    let span = join(cell.span, to);
    Ok(RawStmt::SetAt {
        cell,
        index,
        value,
        span,
    })
}

// An assignment or a call, of which all was read.
#[tactic(auto, using(mc_tree::proofs::RawPlain::raw_rules))]
fn set(cell: Name, right: Right, to: Span) -> RawStmt
    ensures { plain_stmt result ≡ set_by cell (plain_right right) to }
{
    let span = join(cell.span, to);
    match right {
        Right::Value(value) => RawStmt::Set { cell, value, span },
        Right::Called { func, args } => RawStmt::Call {
            cell,
            func,
            args,
            span,
        },
    }
}

// An expression, or a call.
fn right_side(
    alloc: Global,
    bytes: &[u8],
    cursor: &mut Cursor,
    tokens: &[Token],
) -> Result<Right, ReadFault>
    requires few { length tokens.now ≤ 65536 }
    requires order { SpansInOrder 0 tokens.now (length bytes.now) }
    requires within { cursor.old.at ≤ length tokens.now }
    ensures { Answers (right_reader bytes.now) plain_right tokens.now cursor.old.at cursor.new.at result }
{
    match cursor.takes_name(tokens) {
        None => value_side(alloc, bytes, cursor, tokens),
        Some(span) => {
            let Ok(name) = named(alloc, bytes, span) else {
                return Err(ReadFault::Memory);
            };
            after_name(alloc, bytes, cursor, tokens, name)
        }
    }
}

// An expression to the right of an `=`.
fn value_side(
    alloc: Global,
    bytes: &[u8],
    cursor: &mut Cursor,
    tokens: &[Token],
) -> Result<Right, ReadFault>
    requires few { length tokens.now ≤ 65536 }
    requires order { SpansInOrder 0 tokens.now (length bytes.now) }
    requires within { cursor.old.at ≤ length tokens.now }
    ensures { Answers (as_value bytes.now) plain_right tokens.now cursor.old.at cursor.new.at result }
{
    let value = value(alloc, bytes, cursor, tokens)?;
    Ok(Right::Value(value))
}

// What stands to the right of an `=` and begins with a name, after that name.
fn after_name(
    alloc: Global,
    bytes: &[u8],
    cursor: &mut Cursor,
    tokens: &[Token],
    name: Name,
) -> Result<Right, ReadFault>
    requires few { length tokens.now ≤ 65536 }
    requires order { SpansInOrder 0 tokens.now (length bytes.now) }
    requires within { cursor.old.at ≤ length tokens.now }
    ensures { Answers (rights bytes.now (Callee name)) plain_right tokens.now cursor.old.at cursor.new.at result }
{
    if cursor.takes(tokens, Sign::OpenParen) {
        let args = arguments(alloc, bytes, cursor, tokens)?;
        Ok(Right::Called { func: name, args })
    } else {
        let value = rest_of(alloc, bytes, cursor, tokens, Now::Named(name))?;
        Ok(Right::Value(value))
    }
}

// Arguments, after the opening parenthesis and with the closing one.
fn arguments(
    alloc: Global,
    bytes: &[u8],
    cursor: &mut Cursor,
    tokens: &[Token],
) -> Result<Items<RawExpr>, ReadFault>
    requires few { length tokens.now ≤ 65536 }
    requires order { SpansInOrder 0 tokens.now (length bytes.now) }
    requires within { cursor.old.at ≤ length tokens.now }
    ensures { Answers (enclosed (value_reader bytes.now)) plain_args tokens.now cursor.old.at cursor.new.at result }
{
    if cursor.takes(tokens, Sign::CloseParen) {
        return Ok(Items::new(alloc));
    }
    let first = value(alloc, bytes, cursor, tokens)?;
    more_arguments(alloc, bytes, cursor, tokens, first)
}

// Arguments after the first.
fn more_arguments(
    alloc: Global,
    bytes: &[u8],
    cursor: &mut Cursor,
    tokens: &[Token],
    first: RawExpr,
) -> Result<Items<RawExpr>, ReadFault>
    requires few { length tokens.now ≤ 65536 }
    requires order { SpansInOrder 0 tokens.now (length bytes.now) }
    requires within { cursor.old.at ≤ length tokens.now }
    ensures { Answers (after_first (value_reader bytes.now) (plain_expr first)) plain_args tokens.now cursor.old.at cursor.new.at result }
{
    let mut items = Items::new(alloc);
    keep(&mut items, first)?;
    while cursor.takes(tokens, Sign::Comma) {
        match value(alloc, bytes, cursor, tokens) {
            Ok(value) => keep(&mut items, value)?,
            Err(fault) => return Err(fault),
        }
    }
    match cursor.sign(tokens, Sign::CloseParen) {
        Ok(_) => Ok(items),
        Err(fault) => Err(fault),
    }
}
