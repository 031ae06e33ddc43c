//! The rules, one function for a site.
ghost use Rattle.std.specs.Prelude.{◌≡◌, ℕ, min};
ghost use Rattle.mc_tree.specs.Rules.{rule, fault as fault_if, is_scope, Declares, Widths, Adds, Ends, Plain, Indexed, Constant, Needs, Stands, Bound as Bounds, Counts, Calls, Marks, Crosses};
ghost use Rattle.mc_tree.specs.Checked.{greatest_width as most};
ghost use Rattle.mc_rules.specs.View.{text_of};

use mars_base::{Role, Span};
use mc_tree::{Callee, Fault, Kind, Name, RawNumber, Symbol};

fn fault(fails: bool, kind: Kind, span: Span) -> Option<Fault>
    ensures { result ≡ fault_if fails kind span }
{
    if fails {
        Some(Fault { kind, span })
    } else {
        None
    }
}

/// A name used as a cell, without an index.
pub fn plain(name: &Name, found: Option<Symbol>) -> Option<Fault>
    ensures { result ≡ rule (Plain name.now found) }
{
    match found {
        Some(Symbol::Cell { number: _, width }) => fault(2 <= width, Kind::IsAnArray, name.span),
        Some(Symbol::Func) => fault(true, Kind::UnknownName, name.span),
        Some(Symbol::Scope) => fault(true, Kind::UnknownName, name.span),
        None => fault(true, Kind::UnknownName, name.span),
    }
}

/// A name used as a cell, with an index.
pub fn indexed(name: &Name, found: Option<Symbol>) -> Option<Fault>
    ensures { result ≡ rule (Indexed name.now found) }
{
    match found {
        Some(Symbol::Cell { number: _, width }) => fault(width == 1, Kind::NotAnArray, name.span),
        Some(Symbol::Func) => fault(true, Kind::UnknownName, name.span),
        Some(Symbol::Scope) => fault(true, Kind::UnknownName, name.span),
        None => fault(true, Kind::UnknownName, name.span),
    }
}

pub fn constant(number: RawNumber) -> Option<Fault>
    ensures { result ≡ rule (Constant number) }
{
    fault(
        2147483647 < number.value,
        Kind::ConstantOutOfRange,
        number.span,
    )
}

pub fn calls(name: &Name, args: usize, current: usize, found: Option<Callee>) -> Option<Fault>
    ensures { result ≡ rule (Calls name.now args current found) }
{
    match found {
        Some(callee) => {
            if current <= callee.number {
                fault(true, Kind::Recursion, name.span)
            } else {
                fault(args != callee.params, Kind::WrongArgumentCount, name.span)
            }
        }
        None => fault(true, Kind::UnknownName, name.span),
    }
}

pub fn stands(span: Span, direct: bool) -> Option<Fault>
    ensures { result ≡ rule (Stands span direct) }
{
    fault(direct, Kind::NotALoop, span)
}

pub fn bound(number: RawNumber, least: u64, greatest: u64) -> Option<Fault>
    ensures { result ≡ rule (Bounds number least greatest) }
{
    if number.value < least {
        fault(true, Kind::ZeroBound, number.span)
    } else {
        fault(greatest < number.value, Kind::BoundTooLarge, number.span)
    }
}

pub fn counts(span: Span, before: u32) -> Option<Fault>
    ensures { result ≡ rule (Counts span before) }
{
    fault(before == 256, Kind::TooManyCounters, span)
}

/// The words may be kept at 65.
pub fn needs(span: Span, words: u32) -> Option<Fault>
    ensures { (all : ℕ) → words ≡ min all 65 → result ≡ rule (Needs span all) }
{
    fault(64 < words, Kind::ExpressionTooDeep, span)
}

pub fn declares(name: &Name, taken: bool) -> Option<Fault>
    ensures { result ≡ rule (Declares name.now taken) }
{
    fault(taken, Kind::TwiceNamed, name.span)
}

fn is_scope(scope: Option<&[u8]>, name: &[u8]) -> bool
    ensures { result ≡ is_scope (text_of scope.entry) name.now }
{
    match scope {
        Some(scope) => name == scope,
        None => false,
    }
}

pub fn marks(name: &Name, scope: Option<&[u8]>) -> Option<Fault>
    ensures { result ≡ rule (Marks name.now (text_of scope.entry)) }
{
    fault(
        !is_scope(scope, name.text.as_slice()),
        Kind::MarkOutsideItsScope,
        name.span,
    )
}

pub fn crosses(name: &Name, scope: Option<&[u8]>, closed: bool) -> Option<Fault>
    ensures { result ≡ rule (Crosses name.now (text_of scope.entry) closed) }
{
    match scope {
        Some(_) => fault(closed, Kind::MarkOfAnOuterScope, name.span),
        None => None,
    }
}

fn greatest_width(role: Role) -> u64
    ensures { result ≡ most role }
{
    match role {
        Role::In => 16,
        Role::Out => 16,
        Role::State => 4096,
        Role::Local => 4096,
    }
}

pub fn widths(role: Role, width: Option<RawNumber>) -> Option<Fault>
    ensures { result ≡ rule (Widths role width) }
{
    match width {
        Some(width) => fault(
            width.value < 1 || greatest_width(role) < width.value,
            Kind::WrongWidth,
            width.span,
        ),
        None => None,
    }
}

pub fn adds(name: &Name, limit: u64, before: u64, more: u64) -> Option<Fault>
    ensures { result ≡ rule (Adds name.now limit before more) }
{
    fault(
        before <= limit && limit - before < more,
        Kind::TooMany,
        name.span,
    )
}

pub fn ends(end: u32) -> Option<Fault>
    ensures { result ≡ rule (Ends end) }
{
    fault(true, Kind::NoBody, Span { from: end, to: end })
}
