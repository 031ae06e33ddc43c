//! The task as a whole.
ghost use Rattle.std.specs.Prelude.{◌≡◌, IfOk, IfErr, OnOk, None, Some, map, [], length};
ghost use Rattle.mc_check.specs.View.{table};
ghost use Rattle.mc_tree.specs.Symbols.{declare};
ghost use Rattle.mc_tree.specs.RawPlain.{plain_func, plain_body, plain_task};
ghost use Rattle.mc_tree.specs.Rules.{first};
ghost use Rattle.mc_tree.specs.TaskSites.{named_fn_sites, fn_after, fns_sites, fns_after, enter as entered, with_functions, callees_from, body_sites, routine_sites, first_fault as first_of_task};
ghost use Rattle.mc_check.specs.View.{outside, sofar};
ghost use Rattle.mc_tree.specs.Numbered.{numbered};
ghost use Rattle.mc_tree.specs.CheckedTask.{IsCheckedTask};
ghost use Rattle.mc_tree.specs.Spellable.{IsSpellable};
ghost use Rattle.mc_check.specs.Outcome.{IsFault};

use crate::names::{Globals, Locals, Surroundings, add, find};
use crate::number::number;
use crate::routine::{declarations, function};
use crate::statement::block;
use indexmap::IndexMap;
use mars_base::{Memory, Span};
use mc_rules::{adds, declares, earlier, ends};
use mc_tree::{Callee, Fault, Kind, RawBody, RawFunc, RawTask, Symbol, Task};
use std::alloc::Global;

/// The functions of a file by their names.
pub(crate) fn callees<'a>(
    alloc: Global,
    funcs: &'a [RawFunc],
) -> Result<IndexMap<&'a [u8], Callee>, Memory>
    ensures { IfOk result (λ m. table m ≡ callees_from 0 (map plain_func funcs.now) []) }
{
    let mut callees: IndexMap<&'a [u8], Callee> = IndexMap::new(alloc);
    for (i, f) in funcs.iter().enumerate() {
        let callee = Callee {
            number: i,
            params: f.params.len(),
        };
        add(&mut callees, f.name.text.as_slice(), callee)?;
    }
    Ok(callees)
}

impl<'a> Locals<'a> {
    /// A routine begins.
    pub(crate) fn enter(&mut self)
        ensures { sofar self.new ≡ entered (sofar self.old) }
    {
        self.names.clear();
    }
}

/// A function with its name.
#[tactic(auto, using(mc_rules::proofs::First::first_rules))]
fn named_function<'a>(
    globals: &mut Globals<'a>,
    locals: &mut Locals<'a>,
    i: usize,
    f: &'a RawFunc,
) -> Result<Option<Fault>, Memory>
    ensures first { IfOk result (λ r. r ≡ first (named_fn_sites (table globals.old.callees) (table globals.old.names) i (sofar locals.old) (plain_func f.now))) }
    ensures after { IfOk result (λ r. sofar locals.new ≡ fn_after (plain_func f.now) (entered (sofar locals.old))) }
    ensures names { IfOk result (λ r. table globals.new.names ≡ declare f.now.name.text Symbol.Func (table globals.old.names)) }
    ensures callees { IfOk result (λ r. table globals.new.callees ≡ table globals.old.callees) }
{
    let twice = declares(
        &f.name,
        find(&globals.names, f.name.text.as_slice()).is_some(),
    );
    let many = adds(&f.name, 16, i as u64, 1);
    add(&mut globals.names, f.name.text.as_slice(), Symbol::Func)?;
    globals.current = i;
    locals.enter();
    let inner = function(globals, locals, f)?;
    Ok(earlier(twice, earlier(many, inner)))
}

fn functions<'a>(
    globals: &mut Globals<'a>,
    locals: &mut Locals<'a>,
    funcs: &'a [RawFunc],
) -> Result<Option<Fault>, Memory>
    ensures first { IfOk result (λ r. r ≡ first (fns_sites (table globals.old.callees) (table globals.old.names) 0 (sofar locals.old) (map plain_func funcs.now))) }
    ensures after { IfOk result (λ r. sofar locals.new ≡ fns_after (map plain_func funcs.now) (sofar locals.old)) }
    ensures names { IfOk result (λ r. table globals.new.names ≡ with_functions (map plain_func funcs.now) (table globals.old.names)) }
    ensures callees { IfOk result (λ r. table globals.new.callees ≡ table globals.old.callees) }
{
    let mut best = None;
    for (i, f) in funcs.iter().enumerate() {
        let fault = named_function(globals, locals, i, f)?;
        best = earlier(best, fault);
    }
    Ok(best)
}

#[tactic(auto, using(mc_rules::proofs::First::first_rules))]
fn body<'a>(
    globals: &Globals<'a>,
    locals: &mut Locals<'a>,
    end: u32,
    body: &'a Option<RawBody>,
) -> Result<Option<Fault>, Memory>
    ensures { IfOk result (λ r. r ≡ first (body_sites (outside globals.now) (sofar locals.old) end (plain_body body.now))) }
{
    match body {
        Some(body) => {
            let cells = declarations(globals, locals, body.locals.as_slice())?;
            let nothing = Surroundings {
                scope: None,
                closed: false,
                direct: false,
            };
            let inner = block(globals, nothing, locals, body.body.as_slice())?;
            Ok(earlier(cells, inner))
        }
        None => Ok(ends(end)),
    }
}

/// The first fault of the functions and the body.
#[tactic(auto, using(mc_rules::proofs::First::first_rules))]
fn routines<'a>(
    globals: &mut Globals<'a>,
    locals: &mut Locals<'a>,
    raw: &'a RawTask,
) -> Result<Option<Fault>, Memory>
    ensures { IfOk result (λ r. r ≡ first (routine_sites (table globals.old.callees) (table globals.old.names) (sofar locals.old) (plain_task raw.now))) }
{
    let inner = functions(globals, locals, raw.funcs.as_slice())?;
    globals.current = raw.funcs.len();
    locals.enter();
    let last = body(globals, locals, raw.end, &raw.body)?;
    Ok(earlier(inner, last))
}

/// The first fault of a task.
fn first_fault(alloc: Global, raw: &RawTask) -> Result<Option<Fault>, Memory>
    ensures { IfOk result (λ r. r ≡ first_of_task (plain_task raw.now)) }
{
    let nothing = Globals {
        names: IndexMap::new(alloc),
        callees: IndexMap::new(alloc),
        current: 0,
    };
    let mut top = Locals {
        names: IndexMap::new(alloc),
        cells: 0,
        words: 0,
        ports: 0,
        counters: 0,
    };
    let cells = declarations(&nothing, &mut top, raw.decls.as_slice())?;
    let callees = callees(alloc, raw.funcs.as_slice())?;
    let mut globals = Globals {
        names: top.names,
        callees,
        current: 0,
    };
    let mut locals = Locals {
        names: IndexMap::new(alloc),
        cells: top.cells,
        words: top.words,
        ports: top.ports,
        counters: top.counters,
    };
    let rest = routines(&mut globals, &mut locals, raw)?;
    Ok(earlier(cells, rest))
}

/// Why a task isn't checked.
#[derive(Clone, Copy, Debug, PartialEq, Eq)]
pub enum CheckFault {
    /// The first fault: no other starts before it, and none of a lower rank starts where it does.
    Bad { kind: Kind, span: Span },
    /// There was no memory.
    Memory,
}

/// The checked task of a raw tree, or its first fault. The answer is `Bad` exactly where some rule is
/// broken, with the fault of the least start and of the least kind there; else it is the tree with its
/// names as numbers, which is a checked task where the tree is one that a text can spell. The time grows
/// with the size of the tree. The language and its rules are this project's own.
pub fn check(alloc: Global, raw: &RawTask) -> Result<Task, CheckFault>
    ensures none { OnOk result (first_of_task (plain_task raw.now) ≡ None) }
    ensures task { IfOk result (λ t. t ≡ numbered (plain_task raw.now)) }
    ensures checked { IfOk result (λ t. IsSpellable (plain_task raw.now) → IsCheckedTask t) }
    ensures bad { IfErr result (IsFault (plain_task raw.now)) }
{
    match first_fault(alloc, raw) {
        Ok(Some(fault)) => Err(CheckFault::Bad {
            kind: fault.kind,
            span: fault.span,
        }),
        Ok(None) => match number(alloc, raw) {
            Ok(task) => Ok(task),
            Err(_) => Err(CheckFault::Memory),
        },
        Err(_) => Err(CheckFault::Memory),
    }
}
