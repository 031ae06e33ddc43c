//! Statements.
ghost use Rattle.std.specs.Prelude.{◌≡◌, IfOk, OnOk, min, max, length, map};
ghost use Rattle.mc_check.specs.View.{table};
ghost use Rattle.mc_tree.specs.Symbols.{is_some as found, declare};
ghost use Rattle.mc_tree.specs.RawPlain.{plain_expr, plain_stmt, plain_list};
ghost use Rattle.mc_tree.specs.Rules.{first};
ghost use Rattle.mc_tree.specs.Sites.{args_need, args_sites, st_sites, bl_sites, st_after, bl_after, counted, scoped, in_block as around_block, in_while as around_while, in_scope as around_scope, in_sequence as around_loops};
ghost use Rattle.mc_check.specs.View.{outside, sofar, around};

use crate::expression::{expression, need};
use crate::names::{Globals, Locals, Surroundings, add, called, meaning};
use mars_base::Memory;
use mc_rules::{
    bound, calls, counts, crosses, declares, earlier, indexed, marks, needs, plain, stands,
};
use mc_tree::{Fault, Name, RawExpr, RawStmt, Symbol};

/// The operand words that the arguments of a call need, kept at 65.
#[tactic(auto, using(mc_tree::proofs::RawPlain::raw_rules))]
fn need_of_args(args: &[RawExpr]) -> u32
    ensures { result ≡ min (max 1 (args_need 0 (map plain_expr args.now))) 65 }
{
    let mut words: u32 = 1;
    for (i, e) in args.iter().enumerate() {
        words = words.max((i.min(65) as u32 + need(e))).min(65);
    }
    words
}

/// The first fault of the arguments of a call.
fn arguments(globals: &Globals, locals: &Locals, args: &[RawExpr]) -> Option<Fault>
    ensures { result ≡ first (args_sites (outside globals.now) (table locals.now.names) (map plain_expr args.now)) }
{
    let mut best = None;
    for e in args {
        best = earlier(best, expression(globals, locals, e));
    }
    best
}

impl<'a> Surroundings<'a> {
    fn in_block(self) -> Surroundings<'a>
        ensures { around result ≡ around_block (around self.entry) }
    {
        Surroundings {
            scope: self.scope,
            closed: self.closed,
            direct: false,
        }
    }

    fn in_while(self) -> Surroundings<'a>
        ensures { around result ≡ around_while (around self.entry) }
    {
        Surroundings {
            scope: self.scope,
            closed: self.closed || self.direct,
            direct: false,
        }
    }

    fn in_scope(name: &'a Name) -> Surroundings<'a>
        ensures { around result ≡ around_scope name.now }
    {
        Surroundings {
            scope: Some(name.text.as_slice()),
            closed: false,
            direct: false,
        }
    }

    fn in_sequence(self) -> Surroundings<'a>
        ensures { around result ≡ around_loops (around self.entry) }
    {
        Surroundings {
            scope: self.scope,
            closed: self.closed,
            direct: true,
        }
    }
}

impl<'a> Locals<'a> {
    /// One more counter.
    pub(crate) fn count(&mut self)
        ensures { sofar self.new ≡ counted (sofar self.old) }
    {
        self.counters = self.counters.saturating_add(1).min(257);
    }

    /// One more scope.
    pub(crate) fn open(&mut self, name: &'a Name) -> Result<(), Memory>
        ensures { OnOk result (sofar self.new ≡ scoped name.now (sofar self.old)) }
    {
        self.count();
        add(&mut self.names, name.text.as_slice(), Symbol::Scope)?;
        Ok(())
    }
}

#[cycle(walk)]
#[tactic(auto, using(mc_rules::proofs::First::first_rules))]
pub(crate) fn block<'a>(
    globals: &Globals<'a>,
    surroundings: Surroundings<'a>,
    locals: &mut Locals<'a>,
    stmts: &'a [RawStmt],
) -> Result<Option<Fault>, Memory>
    ensures first { IfOk result (λ f. f ≡ first (bl_sites (outside globals.now) (around surroundings.entry) (sofar locals.old) (plain_list stmts.now))) }
    ensures after { IfOk result (λ f. sofar locals.new ≡ bl_after (plain_list stmts.now) (sofar locals.old)) }
{
    let mut best = None;
    for s in stmts {
        let fault = statement(globals, surroundings, locals, s)?;
        best = earlier(best, fault);
    }
    Ok(best)
}

#[cycle(walk)]
#[tactic(auto, using(mc_tree::proofs::RawPlain::raw_rules, mc_rules::proofs::First::first_rules, crate::proofs::Loops::args_count))]
fn statement<'a>(
    globals: &Globals<'a>,
    surroundings: Surroundings<'a>,
    locals: &mut Locals<'a>,
    s: &'a RawStmt,
) -> Result<Option<Fault>, Memory>
    ensures first { IfOk result (λ f. f ≡ first (st_sites (outside globals.now) (around surroundings.entry) (sofar locals.old) (plain_stmt s.now))) }
    ensures after { IfOk result (λ f. sofar locals.new ≡ st_after (plain_stmt s.now) (sofar locals.old)) }
{
    match s {
        RawStmt::Set { cell, value, span } => {
            let direct = stands(*span, surroundings.direct);
            let deep = needs(*span, need(value));
            let named = plain(cell, meaning(globals, locals, cell));
            let inner = expression(globals, locals, value);
            Ok(earlier(direct, earlier(deep, earlier(named, inner))))
        }
        RawStmt::SetAt {
            cell,
            index,
            value,
            span,
        } => {
            let direct = stands(*span, surroundings.direct);
            let deep = needs(*span, need(index).max(1 + need(value)).min(65));
            let named = indexed(cell, meaning(globals, locals, cell));
            let first = expression(globals, locals, index);
            let second = expression(globals, locals, value);
            Ok(earlier(
                direct,
                earlier(deep, earlier(named, earlier(first, second))),
            ))
        }
        RawStmt::Call {
            cell,
            func,
            args,
            span,
        } => {
            let direct = stands(*span, surroundings.direct);
            let deep = needs(*span, need_of_args(args.as_slice()));
            let named = plain(cell, meaning(globals, locals, cell));
            let right = calls(func, args.len(), globals.current, called(globals, func));
            let inner = arguments(globals, locals, args.as_slice());
            Ok(earlier(direct, earlier(deep, earlier(named, earlier(right, inner)))))
        }
        RawStmt::If {
            test,
            first,
            other,
            span,
        } => {
            let direct = stands(*span, surroundings.direct);
            let deep = needs(*span, need(test));
            let inner = expression(globals, locals, test);
            let first = block(globals, surroundings.in_block(), locals, first.as_slice())?;
            match other {
                None => Ok(earlier(direct, earlier(deep, earlier(inner, first)))),
                Some(other) => {
                    let other = block(globals, surroundings.in_block(), locals, other.as_slice())?;
                    Ok(earlier(direct, earlier(deep, earlier(inner, earlier(first, other)))))
                }
            }
        }
        RawStmt::While {
            bound: number,
            test,
            body,
            span,
        } => {
            let many = counts(*span, locals.counters);
            let deep = needs(*span, need(test));
            let bounded = bound(*number, 1, 65535);
            let inner = expression(globals, locals, test);
            locals.count();
            let body = block(globals, surroundings.in_while(), locals, body.as_slice())?;
            Ok(earlier(many, earlier(deep, earlier(bounded, earlier(inner, body)))))
        }
        RawStmt::Scope {
            name,
            bound: number,
            body,
            span,
        } => {
            let direct = stands(*span, surroundings.direct);
            let many = counts(*span, locals.counters);
            let twice = declares(name, meaning(globals, locals, name).is_some());
            let bounded = bound(*number, 0, 1023);
            locals.open(name)?;
            let body = block(
                globals,
                Surroundings::in_scope(name),
                locals,
                body.as_slice(),
            )?;
            Ok(earlier(
                direct,
                earlier(many, earlier(twice, earlier(bounded, body))),
            ))
        }
        RawStmt::Mark { name, span } => {
            let direct = stands(*span, surroundings.direct);
            let outside = marks(name, surroundings.scope);
            let outer = crosses(name, surroundings.scope, surroundings.closed);
            Ok(earlier(direct, earlier(outside, outer)))
        }
        RawStmt::Sequence {
            bound: number,
            body,
            span,
        } => {
            let direct = stands(*span, surroundings.direct);
            let many = counts(*span, locals.counters);
            let bounded = bound(*number, 1, 65535);
            locals.count();
            let body = block(globals, surroundings.in_sequence(), locals, body.as_slice())?;
            Ok(earlier(direct, earlier(many, earlier(bounded, body))))
        }
    }
}
