//! Expressions: one token at a time, with a stack of what waits for an operand.
ghost use Rattle.std.specs.Prelude.{◌≡◌, ◌∷◌, ◌≤◌, ◌<◌, ℕ, suc, List, [], length, drop, OnOk, IfOk, IfSome, MatchOption};
ghost use Rattle.mc_tree.specs.Tokens.{SpansInOrder};
ghost use Rattle.mc_tree.specs.Raw.{Ex, Num, At, Bin, Un, span_of, join as joined};
ghost use Rattle.mc_reader.specs.Roles.{unary as is_unary, binary as is_binary, closes, closes_at, ends};
ghost use Rattle.mc_reader.specs.Machine.{reduce as reduced, top, opened, deeper as deepens, leads, trails, step as steps, run as runs, Frame as PlainFrame, Want, named as follows_name, has as follows_value};
ghost use Rattle.mc_reader.specs.Readers.{value as value_reader};
ghost use Rattle.mc_reader.specs.Answers.{Answers};
ghost use Rattle.mc_tree.specs.RawPlain.{plain_expr};
ghost use Rattle.mc_reader.specs.Frames.{plain_frame, stack, frames_of, plain_now, plain_step, IsSized, IfNext, IsInside, nowhere, indexing, applied_to};

use crate::ReadFault;
use crate::cursor::{Cursor, join, named};
use crate::role::{Lead, Trail, lead_of, level_of, trail_of};
use mars_base::{BinOp, Memory, Span, UnOp};
use mc_tree::{Name, RawExpr, RawNumber, Sign, Token, TokenKind};
use sqlite_items::Boxed;
use std::alloc::Global;

/// What waits for an operand.
#[derive(Drop)]
pub enum Frame {
    /// A binary operator and what stands to its left.
    Pending { op: BinOp, left: RawExpr },
    /// A unary operator and its place.
    Prefix { op: UnOp, at: Span },
    /// An open parenthesis.
    Paren,
    /// An open index of a cell.
    Index { name: Name },
}

/// What was read last.
#[derive(Drop)]
pub enum Now {
    /// Something that an operand must follow.
    Want,
    /// A name, which an index may follow.
    Named(Name),
    /// An operand.
    Have(RawExpr),
}

/// What a token makes of an expression.
#[derive(Drop)]
pub enum Step {
    /// The expression goes on.
    Next(Now),
    /// The expression ended before the token.
    Done(RawExpr),
    /// No expression has the token here.
    Dead,
}

/// An operator that ends, with what stands before its last operand.
#[derive(Drop)]
pub enum Operator {
    Binary { op: BinOp, left: RawExpr },
    Unary { op: UnOp, at: Span },
}

/// What waits for an operand, the innermost last.
#[derive(Drop)]
pub struct Stack {
    pub frames: Vec<Frame>,
    /// How many parentheses and brackets are open, at most 63.
    pub opened: u32,
    /// How many operators have come, at most 255.
    pub used: u32,
}

/// An expression of its own.
pub fn value(
    alloc: Global,
    bytes: &[u8],
    cursor: &mut Cursor,
    tokens: &[Token],
) -> Result<RawExpr, ReadFault>
    requires few { length tokens.now ≤ 65536 }
    requires order { SpansInOrder 0 tokens.now (length bytes.now) }
    requires within { cursor.old.at ≤ length tokens.now }
    ensures { Answers (value_reader bytes.now) plain_expr tokens.now cursor.old.at cursor.new.at result }
{
    rest_of(alloc, bytes, cursor, tokens, Now::Want)
}

/// An expression, of which so much was read.
pub fn rest_of(
    alloc: Global,
    bytes: &[u8],
    cursor: &mut Cursor,
    tokens: &[Token],
    first: Now,
) -> Result<RawExpr, ReadFault>
    requires few { length tokens.now ≤ 65536 }
    requires order { SpansInOrder 0 tokens.now (length bytes.now) }
    requires within { cursor.old.at ≤ length tokens.now }
    ensures { Answers (λ ts. runs bytes.now ts (plain_now first) 0 []) plain_expr tokens.now cursor.old.at cursor.new.at result }
{
    let mut stack = Stack {
        frames: Vec::new(alloc),
        opened: 0,
        used: 0,
    };
    let mut now = first;
    while cursor.at < tokens.len() {
        match stack.advance(alloc, bytes, now, tokens[cursor.at]) {
            Ok(Step::Next(next)) => {
                now = next;
                cursor.at += 1;
            }
            Ok(Step::Done(value)) => return Ok(value),
            Ok(Step::Dead) => return Err(ReadFault::Syntax(cursor.at as u32)),
            Err(_) => return Err(ReadFault::Memory),
        }
    }
    Err(ReadFault::Syntax(cursor.at as u32))
}

impl Stack {
    // What a token makes of the expression.
    fn advance(
        &mut self,
        alloc: Global,
        bytes: &[u8],
        now: Now,
        token: Token,
    ) -> Result<Step, Memory>
        requires sized { IsSized self.old }
        requires inside { IsInside (length bytes.now) token.span }
        ensures step { IfOk result (λ r. plain_step self.new r ≡ steps bytes.now (plain_now now) self.old.used (frames_of self.old) token) }
        ensures sized { IfOk result (λ r. IfNext r (IsSized self.new)) }
    {
        match now {
            Now::Want => self.operand(alloc, bytes, token),
            Now::Named(name) => self.after_name(alloc, name, token),
            Now::Have(value) => self.after_value(alloc, value, token),
        }
    }

    // A token where an operand begins.
    #[tactic(auto, using(mc_tree::proofs::RawPlain::raw_rules))]
    fn operand(&mut self, alloc: Global, bytes: &[u8], token: Token) -> Result<Step, Memory>
        requires sized { IsSized self.old }
        requires inside { IsInside (length bytes.now) token.span }
        ensures step { IfOk result (λ r. plain_step self.new r ≡ steps bytes.now Want self.old.used (frames_of self.old) token) }
        ensures sized { IfOk result (λ r. IfNext r (IsSized self.new)) }
    {
        let span = token.span;
        match token.kind {
            TokenKind::Number(value) => Ok(Step::Next(Now::Have(RawExpr::Number(RawNumber {
                value,
                span,
            })))),
            TokenKind::Name => Ok(Step::Next(Now::Named(named(alloc, bytes, span)?))),
            TokenKind::Key(_) => Ok(Step::Dead),
            TokenKind::Sign(sign) => match lead_of(sign) {
                Lead::Opens => self.deeper(Frame::Paren),
                Lead::Unary(op) => self.prefix(op, span),
                Lead::Other => Ok(Step::Dead),
            },
        }
    }

    // A token after a name.
    #[tactic(auto, using(mc_tree::proofs::RawPlain::raw_rules))]
    fn after_name(&mut self, alloc: Global, name: Name, token: Token) -> Result<Step, Memory>
        requires sized { IsSized self.old }
        ensures step { IfOk result (λ r. plain_step self.new r ≡ follows_name token.kind name self.old.used (frames_of self.old) token.span) }
        ensures sized { IfOk result (λ r. IfNext r (IsSized self.new)) }
    {
        if is_index(token) {
            self.deeper(Frame::Index { name })
        } else {
            self.after_value(alloc, RawExpr::Cell(name), token)
        }
    }

    // A token after an operand.
    fn after_value(&mut self, alloc: Global, value: RawExpr, token: Token) -> Result<Step, Memory>
        requires sized { IsSized self.old }
        ensures step { IfOk result (λ r. plain_step self.new r ≡ follows_value token.kind (plain_expr value) self.old.used (frames_of self.old) token.span) }
        ensures sized { IfOk result (λ r. IfNext r (IsSized self.new)) }
    {
        match token.kind {
            TokenKind::Number(_) => Ok(Step::Dead),
            TokenKind::Name => Ok(Step::Dead),
            TokenKind::Key(_) => Ok(Step::Dead),
            TokenKind::Sign(sign) => match trail_of(sign) {
                Trail::Binary(op) => self.operator(alloc, op, value),
                Trail::Closes => self.close(alloc, value),
                Trail::ClosesAt => self.close_at(alloc, value, token.span),
                Trail::Ends => self.end(alloc, value),
                Trail::Comma => self.end(alloc, value),
                Trail::Indexes => Ok(Step::Dead),
                Trail::Other => Ok(Step::Dead),
            },
        }
    }

    // A parenthesis or an index begins.
    fn deeper(&mut self, frame: Frame) -> Result<Step, Memory>
        requires sized { IsSized self.old }
        requires opening { (F : List PlainFrame) → opened (plain_frame frame ∷ F) ≡ suc (opened F) }
        ensures step { IfOk result (λ r. plain_step self.new r ≡ deepens self.old.used (frames_of self.old) (plain_frame frame)) }
        ensures sized { IfOk result (λ r. IfNext r (IsSized self.new)) }
    {
        if self.opened >= 63 {
            return Ok(Step::Dead);
        }
        put(&mut self.frames, frame)?;
        self.opened += 1;
        Ok(Step::Next(Now::Want))
    }

    // A unary operator.
    fn prefix(&mut self, op: UnOp, at: Span) -> Result<Step, Memory>
        requires sized { IsSized self.old }
        ensures step { IfOk result (λ r. plain_step self.new r ≡ leads (is_unary op) self.old.used (frames_of self.old) at) }
        ensures sized { IfOk result (λ r. IfNext r (IsSized self.new)) }
    {
        if self.used >= 255 {
            return Ok(Step::Dead);
        }
        put(&mut self.frames, Frame::Prefix { op, at })?;
        self.used += 1;
        Ok(Step::Next(Now::Want))
    }

    // A binary operator.
    fn operator(&mut self, alloc: Global, op: BinOp, value: RawExpr) -> Result<Step, Memory>
        requires sized { IsSized self.old }
        ensures step { IfOk result (λ r. plain_step self.new r ≡ trails (is_binary op) (plain_expr value) self.old.used (frames_of self.old) nowhere) }
        ensures sized { IfOk result (λ r. IfNext r (IsSized self.new)) }
    {
        if self.used >= 255 {
            return Ok(Step::Dead);
        }
        let left = reduce(alloc, &mut self.frames, level_of(op), value)?;
        put(&mut self.frames, Frame::Pending { op, left })?;
        self.used += 1;
        Ok(Step::Next(Now::Want))
    }

    // A closing parenthesis: the expression's own, or the sign after the expression.
    fn close(&mut self, alloc: Global, value: RawExpr) -> Result<Step, Memory>
        requires sized { IsSized self.old }
        ensures step { IfOk result (λ r. plain_step self.new r ≡ trails closes (plain_expr value) self.old.used (frames_of self.old) nowhere) }
        ensures sized { IfOk result (λ r. IfNext r (IsSized self.new)) }
    {
        let value = reduce(alloc, &mut self.frames, 0, value)?;
        match pull(&mut self.frames) {
            Some(Frame::Paren) => {
                self.opened -= 1;
                Ok(Step::Next(Now::Have(value)))
            }
            Some(Frame::Pending { op: _, left: _ }) => Ok(Step::Dead),
            Some(Frame::Prefix { op: _, at: _ }) => Ok(Step::Dead),
            Some(Frame::Index { name: _ }) => Ok(Step::Dead),
            None => Ok(Step::Done(value)),
        }
    }

    // A closing bracket: of an index, or the sign after the expression.
    #[tactic(auto, using(mc_tree::proofs::RawPlain::raw_rules))]
    fn close_at(&mut self, alloc: Global, value: RawExpr, at: Span) -> Result<Step, Memory>
        requires sized { IsSized self.old }
        ensures step { IfOk result (λ r. plain_step self.new r ≡ trails closes_at (plain_expr value) self.old.used (frames_of self.old) at) }
        ensures sized { IfOk result (λ r. IfNext r (IsSized self.new)) }
    {
        let value = reduce(alloc, &mut self.frames, 0, value)?;
        match pull(&mut self.frames) {
            Some(Frame::Index { name }) => {
                self.opened -= 1;
                let span = join(name.span, at);
                let index = Boxed::new(alloc, value)?;
                Ok(Step::Next(Now::Have(RawExpr::At {
                    cell: name,
                    index,
                    span,
                })))
            }
            Some(Frame::Pending { op: _, left: _ }) => Ok(Step::Dead),
            Some(Frame::Prefix { op: _, at: _ }) => Ok(Step::Dead),
            Some(Frame::Paren) => Ok(Step::Dead),
            None => Ok(Step::Done(value)),
        }
    }

    // A semicolon or a comma.
    fn end(&mut self, alloc: Global, value: RawExpr) -> Result<Step, Memory>
        ensures step { IfOk result (λ r. plain_step self.new r ≡ trails ends (plain_expr value) self.old.used (frames_of self.old) nowhere) }
        ensures sized { IfOk result (λ r. IfNext r (IsSized self.new)) }
    {
        let value = reduce(alloc, &mut self.frames, 0, value)?;
        match pull(&mut self.frames) {
            Some(_) => Ok(Step::Dead),
            None => Ok(Step::Done(value)),
        }
    }
}

// A new innermost frame.
fn put(frames: &mut Vec<Frame>, frame: Frame) -> Result<(), Memory>
    ensures { OnOk result (stack frames.new.items ≡ plain_frame frame ∷ stack frames.old.items) }
{
    frames.push(frame)?;
    Ok(())
}

// The innermost frame.
fn pull(frames: &mut Vec<Frame>) -> Option<Frame>
    ensures { MatchOption result (stack frames.old.items ≡ []) (λ f. stack frames.old.items ≡ plain_frame f ∷ stack frames.new.items) }
{
    frames.pop()
}

// The operators of the level `least` and above end.
fn reduce(
    alloc: Global,
    frames: &mut Vec<Frame>,
    least: u8,
    value: RawExpr,
) -> Result<RawExpr, Memory>
    ensures { IfOk result (λ v. reduced least (stack frames.old.items) (plain_expr value) ≡ top (plain_expr v) (stack frames.new.items)) }
{
    let mut whole = value;
    loop {
        match take_operator(frames, least) {
            Ok(Some(operator)) => match applied(alloc, operator, whole) {
                Ok(value) => whole = value,
                Err(_) => return Err(Memory),
            },
            Ok(None) => return Ok(whole),
            Err(_) => return Err(Memory),
        }
    }
}

// Takes the innermost frame where it is an operator of the level `least` or above.
fn take_operator(frames: &mut Vec<Frame>, least: u8) -> Result<Option<Operator>, Memory>
    ensures reduces { IfOk result (λ r. MatchOption r ((v : Ex) → reduced least (stack frames.old.items) v ≡ top v (stack frames.new.items)) (λ o. (v : Ex) → reduced least (stack frames.old.items) v ≡ reduced least (stack frames.new.items) (applied_to o v))) }
    ensures fewer { IfOk result (λ r. IfSome r (λ o. length frames.new.items < length frames.old.items)) }
{
    match frames.pop() {
        None => Ok(None),
        Some(Frame::Pending { op, left }) => {
            if least <= level_of(op) {
                Ok(Some(Operator::Binary { op, left }))
            } else {
                put(frames, Frame::Pending { op, left })?;
                Ok(None)
            }
        }
        Some(Frame::Prefix { op, at }) => Ok(Some(Operator::Unary { op, at })),
        Some(Frame::Paren) => {
            put(frames, Frame::Paren)?;
            Ok(None)
        }
        Some(Frame::Index { name }) => {
            put(frames, Frame::Index { name })?;
            Ok(None)
        }
    }
}

// An operator with its last operand.
#[tactic(auto, using(mc_tree::proofs::RawPlain::raw_rules))]
fn applied(alloc: Global, operator: Operator, value: RawExpr) -> Result<RawExpr, Memory>
    ensures { IfOk result (λ e. plain_expr e ≡ applied_to operator (plain_expr value)) }
{
    match operator {
        Operator::Binary { op, left } => binary(alloc, op, left, value),
        Operator::Unary { op, at } => unary(alloc, op, at, value),
    }
}

#[tactic(auto, using(mc_tree::proofs::RawPlain::raw_rules))]
fn binary(alloc: Global, op: BinOp, left: RawExpr, right: RawExpr) -> Result<RawExpr, Memory>
    ensures { IfOk result (λ e. plain_expr e ≡ Bin op (plain_expr left) (plain_expr right) (joined (span_of (plain_expr left)) (span_of (plain_expr right)))) }
{
    let span = join(extent(&left), extent(&right));
    Ok(RawExpr::Binary {
        op,
        left: Boxed::new(alloc, left)?,
        right: Boxed::new(alloc, right)?,
        span,
    })
}

#[tactic(auto, using(mc_tree::proofs::RawPlain::raw_rules))]
fn unary(alloc: Global, op: UnOp, at: Span, arg: RawExpr) -> Result<RawExpr, Memory>
    ensures { IfOk result (λ e. plain_expr e ≡ Un op (plain_expr arg) (joined at (span_of (plain_expr arg)))) }
{
    let span = join(at, extent(&arg));
    Ok(RawExpr::Unary {
        op,
        arg: Boxed::new(alloc, arg)?,
        span,
    })
}

// Where an expression stands.
#[tactic(auto, using(mc_tree::proofs::RawPlain::raw_rules))]
fn extent(e: &RawExpr) -> Span
    ensures { result ≡ span_of (plain_expr e.now) }
{
    match e {
        RawExpr::Number(number) => number.span,
        RawExpr::Cell(name) => name.span,
        RawExpr::At {
            cell: _,
            index: _,
            span,
        } => *span,
        RawExpr::Unary {
            op: _,
            arg: _,
            span,
        } => *span,
        RawExpr::Binary {
            op: _,
            left: _,
            right: _,
            span,
        } => *span,
    }
}

// Whether a token opens an index.
fn is_index(token: Token) -> bool
    ensures { result ≡ indexing token }
{
    match token.kind {
        TokenKind::Sign(Sign::OpenBracket) => true,
        _ => false,
    }
}
