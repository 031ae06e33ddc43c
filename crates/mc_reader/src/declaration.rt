//! Declarations, and parameters.
ghost use Rattle.std.specs.Prelude.{◌≡◌, ◌≤◌, ◌<◌, ◌∷◌, length, drop, Some, MatchOption};
ghost use Rattle.mc_tree.specs.Tokens.{SpansInOrder};
ghost use Rattle.mc_tree.specs.declared.token.Token.{Token as RawToken};
ghost use Rattle.mc_reader.specs.Reading.{Misses};
ghost use Rattle.mc_reader.specs.Readers.{width as width_reader, name as name_reader, decl as decl_reader, enclosed};
ghost use Rattle.mc_reader.specs.Answers.{Answers, itself, after_first};
ghost use Rattle.mc_reader.specs.Places.{at_role, decls as decls_reader};

use crate::ReadFault;
use crate::cursor::{Cursor, keep};
use mars_base::Role;
use mc_tree::{Key, Name, RawDecl, RawNumber, Sign, Token, TokenKind};
use sqlite_items::Items;
use std::alloc::Global;

/// Where declarations stand.
#[derive(Clone, Copy)]
pub enum Place {
    /// At a task's start: ports and states.
    Task,
    /// In a function or the body: locals.
    Routine,
}

// What a token declares.
fn role_of(token: Token, place: Place) -> Option<Role>
    ensures { result ≡ at_role place token }
{
    match token.kind {
        TokenKind::Key(key) => match (place, key) {
            (Place::Task, Key::In) => Some(Role::In),
            (Place::Task, Key::Out) => Some(Role::Out),
            (Place::Task, Key::State) => Some(Role::State),
            (Place::Routine, Key::Var) => Some(Role::Local),
            _ => None,
        },
        _ => None,
    }
}

// What is declared here; then the keyword is taken.
fn takes_role(cursor: &mut Cursor, tokens: &[Token], place: Place) -> Option<Role>
    requires within { cursor.old.at ≤ length tokens.now }
    ensures { MatchOption result (Misses (at_role place) (drop cursor.old.at tokens.now) × (cursor.new.at ≡ cursor.old.at)) (λ r. (t : RawToken) × (drop cursor.old.at tokens.now ≡ t ∷ drop cursor.new.at tokens.now) × (at_role place t ≡ Some r) × (cursor.new.at ≤ length tokens.now) × (cursor.old.at < cursor.new.at)) }
{
    if cursor.at >= tokens.len() {
        return None;
    }
    match role_of(tokens[cursor.at], place) {
        Some(role) => {
            cursor.at += 1;
            Some(role)
        }
        None => None,
    }
}

// A width, where it is written.
fn width(cursor: &mut Cursor, tokens: &[Token]) -> Result<Option<RawNumber>, ReadFault>
    requires few { length tokens.now ≤ 65536 }
    requires within { cursor.old.at ≤ length tokens.now }
    ensures { Answers width_reader itself tokens.now cursor.old.at cursor.new.at result }
{
    if !cursor.takes(tokens, Sign::OpenBracket) {
        return Ok(None);
    }
    let number = cursor.number(tokens)?;
    cursor.sign(tokens, Sign::CloseBracket)?;
    Ok(Some(number))
}

// A declaration after its keyword.
fn declaration(
    alloc: Global,
    bytes: &[u8],
    cursor: &mut Cursor,
    tokens: &[Token],
    role: Role,
) -> Result<RawDecl, ReadFault>
    requires few { length tokens.now ≤ 65536 }
    requires order { SpansInOrder 0 tokens.now (length bytes.now) }
    requires within { cursor.old.at ≤ length tokens.now }
    ensures { Answers (decl_reader bytes.now role) itself tokens.now cursor.old.at cursor.new.at result }
{
    let name = cursor.name(alloc, bytes, tokens)?;
    let width = width(cursor, tokens)?;
    cursor.sign(tokens, Sign::Semicolon)?;
    Ok(RawDecl { role, name, width })
}

/// The declarations.
pub fn declarations(
    alloc: Global,
    bytes: &[u8],
    cursor: &mut Cursor,
    tokens: &[Token],
    place: Place,
) -> Result<Items<RawDecl>, ReadFault>
    requires few { length tokens.now ≤ 65536 }
    requires order { SpansInOrder 0 tokens.now (length bytes.now) }
    requires within { cursor.old.at ≤ length tokens.now }
    ensures { Answers (decls_reader bytes.now place) itself tokens.now cursor.old.at cursor.new.at result }
{
    let mut items = Items::new(alloc);
    while let Some(role) = takes_role(cursor, tokens, place) {
        match declaration(alloc, bytes, cursor, tokens, role) {
            Ok(decl) => keep(&mut items, decl)?,
            Err(fault) => return Err(fault),
        }
    }
    Ok(items)
}

/// Parameters, after the opening parenthesis and with the closing one.
pub fn parameters(
    alloc: Global,
    bytes: &[u8],
    cursor: &mut Cursor,
    tokens: &[Token],
) -> Result<Items<Name>, ReadFault>
    requires few { length tokens.now ≤ 65536 }
    requires order { SpansInOrder 0 tokens.now (length bytes.now) }
    requires within { cursor.old.at ≤ length tokens.now }
    ensures { Answers (enclosed (name_reader bytes.now)) itself tokens.now cursor.old.at cursor.new.at result }
{
    if cursor.takes(tokens, Sign::CloseParen) {
        return Ok(Items::new(alloc));
    }
    let first = cursor.name(alloc, bytes, tokens)?;
    more_parameters(alloc, bytes, cursor, tokens, first)
}

// Parameters after the first.
fn more_parameters(
    alloc: Global,
    bytes: &[u8],
    cursor: &mut Cursor,
    tokens: &[Token],
    first: Name,
) -> Result<Items<Name>, ReadFault>
    requires few { length tokens.now ≤ 65536 }
    requires order { SpansInOrder 0 tokens.now (length bytes.now) }
    requires within { cursor.old.at ≤ length tokens.now }
    ensures { Answers (after_first (name_reader bytes.now) first) itself tokens.now cursor.old.at cursor.new.at result }
{
    let mut items = Items::new(alloc);
    keep(&mut items, first)?;
    while cursor.takes(tokens, Sign::Comma) {
        match cursor.name(alloc, bytes, tokens) {
            Ok(name) => keep(&mut items, name)?,
            Err(fault) => return Err(fault),
        }
    }
    match cursor.sign(tokens, Sign::CloseParen) {
        Ok(_) => Ok(items),
        Err(fault) => Err(fault),
    }
}
