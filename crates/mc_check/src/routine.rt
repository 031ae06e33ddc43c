//! Declarations, functions and the task.
ghost use Rattle.std.specs.Prelude.{◌≡◌, IfOk, OnOk, None, map, [], length};
ghost use Rattle.mc_check.specs.View.{table};
ghost use Rattle.mc_tree.specs.Symbols.{declare};
ghost use Rattle.mc_tree.specs.RawPlain.{plain_expr, plain_list, plain_func};
ghost use Rattle.mc_tree.specs.Raw.{span_of as spans};
ghost use Rattle.mc_tree.specs.Rules.{first};
ghost use Rattle.mc_tree.specs.TaskSites.{width_of as widths_of, ports_of as ports_by, decl_sites, decl_after, decls_sites, decls_after, param_of, fn_sites, fn_after};
ghost use Rattle.mc_check.specs.View.{outside, sofar};

use crate::expression::{expression, need};
use crate::names::{Globals, Locals, Surroundings, add, meaning};
use crate::statement::block;
use mars_base::{Memory, Role, Span};
use mc_rules::{adds, declares, earlier, needs, widths};
use mc_tree::{Fault, Name, RawDecl, RawExpr, RawFunc, RawNumber, Symbol};

pub(crate) fn width_of(width: Option<RawNumber>) -> u64
    ensures { result ≡ widths_of width }
{
    match width {
        Some(width) => width.value,
        None => 1,
    }
}

fn ports_of(role: Role) -> u64
    ensures { result ≡ ports_by role }
{
    match role {
        Role::In => 1,
        Role::Out => 1,
        Role::State => 0,
        Role::Local => 0,
    }
}

/// One declaration.
#[tactic(auto, using(mc_rules::proofs::First::first_rules))]
pub(crate) fn declaration<'a>(
    globals: &Globals<'a>,
    locals: &mut Locals<'a>,
    name: &'a Name,
    role: Role,
    width: Option<RawNumber>,
) -> Result<Option<Fault>, Memory>
    ensures first { IfOk result (λ f. f ≡ first (decl_sites (outside globals.now) (sofar locals.old) (record { role = role; name = name.now; width = width }))) }
    ensures after { IfOk result (λ f. sofar locals.new ≡ decl_after (record { role = role; name = name.now; width = width }) (sofar locals.old)) }
{
    let twice = declares(name, meaning(globals, locals, name).is_some());
    let wide = widths(role, width);
    let large = adds(name, 4096, locals.words, width_of(width));
    let many = adds(name, 16, locals.ports, ports_of(role));
    add(
        &mut locals.names,
        name.text.as_slice(),
        Symbol::Cell {
            number: locals.cells,
            width: width_of(width),
        },
    )?;
    locals.cells = locals.cells.saturating_add(1).min(4097);
    locals.words = locals.words.saturating_add(width_of(width)).min(4097);
    locals.ports = locals.ports.saturating_add(ports_of(role)).min(17);
    Ok(earlier(twice, earlier(wide, earlier(large, many))))
}

pub(crate) fn declarations<'a>(
    globals: &Globals<'a>,
    locals: &mut Locals<'a>,
    decls: &'a [RawDecl],
) -> Result<Option<Fault>, Memory>
    ensures first { IfOk result (λ f. f ≡ first (decls_sites (outside globals.now) (sofar locals.old) decls.now)) }
    ensures after { IfOk result (λ f. sofar locals.new ≡ decls_after decls.now (sofar locals.old)) }
{
    let mut best = None;
    for d in decls {
        let fault = declaration(globals, locals, &d.name, d.role, d.width)?;
        best = earlier(best, fault);
    }
    Ok(best)
}

fn parameters<'a>(
    globals: &Globals<'a>,
    locals: &mut Locals<'a>,
    names: &'a [Name],
) -> Result<Option<Fault>, Memory>
    ensures first { IfOk result (λ f. f ≡ first (decls_sites (outside globals.now) (sofar locals.old) (map param_of names.now))) }
    ensures after { IfOk result (λ f. sofar locals.new ≡ decls_after (map param_of names.now) (sofar locals.old)) }
{
    let mut best = None;
    for n in names {
        let fault = declaration(globals, locals, n, Role::Local, None)?;
        best = earlier(best, fault);
    }
    Ok(best)
}

/// Where an expression stands.
#[tactic(auto, using(mc_tree::proofs::RawPlain::raw_rules))]
fn span_of(e: &RawExpr) -> Span
    ensures { result ≡ spans (plain_expr e.now) }
{
    match e {
        RawExpr::Number(number) => number.span,
        RawExpr::Cell(name) => name.span,
        RawExpr::At {
            cell: _,
            index: _,
            span,
        } => *span,
        RawExpr::Unary {
            op: _,
            arg: _,
            span,
        } => *span,
        RawExpr::Binary {
            op: _,
            left: _,
            right: _,
            span,
        } => *span,
    }
}

/// A function, in names of its own.
#[tactic(auto, using(mc_rules::proofs::First::first_rules))]
pub(crate) fn function<'a>(
    globals: &Globals<'a>,
    locals: &mut Locals<'a>,
    f: &'a RawFunc,
) -> Result<Option<Fault>, Memory>
    ensures first { IfOk result (λ r. r ≡ first (fn_sites (outside globals.now) (sofar locals.old) (plain_func f.now))) }
    ensures after { IfOk result (λ r. sofar locals.new ≡ fn_after (plain_func f.now) (sofar locals.old)) }
{
    let params = parameters(globals, locals, f.params.as_slice())?;
    let cells = declarations(globals, locals, f.locals.as_slice())?;
    let nothing = Surroundings {
        scope: None,
        closed: false,
        direct: false,
    };
    let body = block(globals, nothing, locals, f.body.as_slice())?;
    let deep = needs(span_of(&f.answer), need(&f.answer));
    let answer = expression(globals, locals, &f.answer);
    Ok(earlier(params, earlier(cells, earlier(body, earlier(deep, answer)))))
}
