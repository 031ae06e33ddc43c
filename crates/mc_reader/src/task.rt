//! Functions, the body and the task.
ghost use Rattle.std.specs.Prelude.{◌≡◌, ◌≤◌, ◌<◌, ◌∷◌, List, length, drop, map, Some, MatchOption};
ghost use Rattle.mc_tree.specs.Tokens.{SpansInOrder};
ghost use Rattle.mc_tree.specs.RawPlain.{plain_func, plain_body, plain_task};
ghost use Rattle.mc_tree.specs.declared.token.Token.{Token as RawToken};
ghost use Rattle.mc_tree.specs.declared.token.Key.TheVariants.{Func};
ghost use Rattle.mc_reader.specs.Reading.{Misses};
ghost use Rattle.mc_reader.specs.Readers.{at_key, func as func_reader, funcs as funcs_reader, body as body_reader, task as task_reader};
ghost use Rattle.mc_reader.specs.Answers.{Answers};
ghost use Rattle.mc_reader.specs.Plain.{plain_funcs};

use crate::ReadFault;
use crate::cursor::{Cursor, join, keep, key_at};
use crate::declaration::{Place, declarations, parameters};
use crate::expression::value;
use crate::statement::statements;
use mars_base::Span;
use mc_tree::{Key, RawBody, RawFunc, RawTask, Sign, Token};
use sqlite_items::Items;
use std::alloc::Global;

// A function after its keyword.
fn function(
    alloc: Global,
    bytes: &[u8],
    cursor: &mut Cursor,
    tokens: &[Token],
    from: Span,
) -> Result<RawFunc, ReadFault>
    requires few { length tokens.now ≤ 65536 }
    requires order { SpansInOrder 0 tokens.now (length bytes.now) }
    requires within { cursor.old.at ≤ length tokens.now }
    ensures { Answers (func_reader bytes.now from) plain_func tokens.now cursor.old.at cursor.new.at result }
{
    let name = cursor.name(alloc, bytes, tokens)?;
    cursor.sign(tokens, Sign::OpenParen)?;
    let params = parameters(alloc, bytes, cursor, tokens)?;
    cursor.sign(tokens, Sign::OpenBrace)?;
    let locals = declarations(alloc, bytes, cursor, tokens, Place::Routine)?;
    let body = statements(alloc, bytes, cursor, tokens, 64)?;
    cursor.key(tokens, Key::Return)?;
    let answer = value(alloc, bytes, cursor, tokens)?;
    cursor.sign(tokens, Sign::Semicolon)?;
    let to = cursor.sign(tokens, Sign::CloseBrace)?;
    Ok(RawFunc {
        name,
        params,
        locals,
        body,
        answer,
        span: join(from, to),
    })
}

// The place of the `func` that stands here; then it is taken.
fn takes_func(cursor: &mut Cursor, tokens: &[Token]) -> Option<Span>
    requires within { cursor.old.at ≤ length tokens.now }
    ensures { MatchOption result (Misses (at_key Func) (drop cursor.old.at tokens.now) × (cursor.new.at ≡ cursor.old.at)) (λ p. (t : RawToken) × (drop cursor.old.at tokens.now ≡ t ∷ drop cursor.new.at tokens.now) × (at_key Func t ≡ Some p) × (cursor.new.at ≤ length tokens.now) × (cursor.old.at < cursor.new.at)) }
{
    if cursor.at >= tokens.len() {
        return None;
    }
    match key_at(tokens[cursor.at], Key::Func) {
        Some(span) => {
            cursor.at += 1;
            Some(span)
        }
        None => None,
    }
}

// The functions.
fn functions(
    alloc: Global,
    bytes: &[u8],
    cursor: &mut Cursor,
    tokens: &[Token],
) -> Result<Items<RawFunc>, ReadFault>
    requires few { length tokens.now ≤ 65536 }
    requires order { SpansInOrder 0 tokens.now (length bytes.now) }
    requires within { cursor.old.at ≤ length tokens.now }
    ensures { Answers (funcs_reader bytes.now) plain_funcs tokens.now cursor.old.at cursor.new.at result }
{
    let mut items = Items::new(alloc);
    while let Some(from) = takes_func(cursor, tokens) {
        match function(alloc, bytes, cursor, tokens, from) {
            Ok(function) => keep(&mut items, function)?,
            Err(fault) => return Err(fault),
        }
    }
    Ok(items)
}

// The body, where there is one.
fn body(
    alloc: Global,
    bytes: &[u8],
    cursor: &mut Cursor,
    tokens: &[Token],
) -> Result<Option<RawBody>, ReadFault>
    requires few { length tokens.now ≤ 65536 }
    requires order { SpansInOrder 0 tokens.now (length bytes.now) }
    requires within { cursor.old.at ≤ length tokens.now }
    ensures { Answers (body_reader bytes.now) plain_body tokens.now cursor.old.at cursor.new.at result }
{
    if !cursor.takes_key(tokens, Key::Body) {
        return Ok(None);
    }
    cursor.sign(tokens, Sign::OpenBrace)?;
    let locals = declarations(alloc, bytes, cursor, tokens, Place::Routine)?;
    let body = statements(alloc, bytes, cursor, tokens, 64)?;
    cursor.sign(tokens, Sign::CloseBrace)?;
    Ok(Some(RawBody { locals, body }))
}

/// A task, from the first token to the last.
#[tactic(auto, using(crate::proofs::Places::not_ended))]
pub fn task(
    alloc: Global,
    bytes: &[u8],
    cursor: &mut Cursor,
    tokens: &[Token],
) -> Result<RawTask, ReadFault>
    requires few { length tokens.now ≤ 65536 }
    requires short { length bytes.now ≤ 65536 }
    requires order { SpansInOrder 0 tokens.now (length bytes.now) }
    requires within { cursor.old.at ≤ length tokens.now }
    ensures { Answers (task_reader bytes.now) plain_task tokens.now cursor.old.at cursor.new.at result }
{
    cursor.key(tokens, Key::Task)?;
    let name = cursor.name(alloc, bytes, tokens)?;
    cursor.sign(tokens, Sign::Semicolon)?;
    let decls = declarations(alloc, bytes, cursor, tokens, Place::Task)?;
    let funcs = functions(alloc, bytes, cursor, tokens)?;
    let body = body(alloc, bytes, cursor, tokens)?;
    if cursor.at < tokens.len() {
        return Err(ReadFault::Syntax(cursor.at as u32));
    }
    Ok(RawTask {
        name,
        decls,
        funcs,
        body,
        end: bytes.len() as u32,
    })
}
