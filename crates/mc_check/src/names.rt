//! Tables of names.
ghost use Rattle.std.specs.Prelude.{◌≡◌, IfOk, OnOk};
ghost use Rattle.mc_check.specs.View.{table};
ghost use Rattle.mc_tree.specs.Symbols.{look, declare};
ghost use Rattle.mc_check.specs.View.{outside, sofar};
ghost use Rattle.mc_tree.specs.Sites.{means};

use indexmap::IndexMap;
use mars_base::Memory;
use mc_tree::{Callee, Name, Symbol};

/// What stands fixed in a routine.
#[derive(Drop)]
pub struct Globals<'a> {
    pub names: IndexMap<&'a [u8], Symbol>,
    pub callees: IndexMap<&'a [u8], Callee>,
    pub current: usize,
}

/// What grows in a routine.
#[derive(Drop)]
pub struct Locals<'a> {
    pub names: IndexMap<&'a [u8], Symbol>,
    pub cells: u16,
    pub words: u64,
    pub ports: u64,
    pub counters: u32,
}

/// What stands around a statement.
#[derive(Clone, Copy)]
pub struct Surroundings<'a> {
    pub scope: Option<&'a [u8]>,
    pub closed: bool,
    pub direct: bool,
}

pub(crate) fn find<V: Copy>(names: &IndexMap<&[u8], V>, name: &[u8]) -> Option<V>
    ensures { result ≡ look name.now (table names.now) }
{
    names.get(name).copied()
}

/// What a name means.
pub(crate) fn meaning(globals: &Globals, locals: &Locals, name: &Name) -> Option<Symbol>
    ensures { result ≡ means (outside globals.now) (table locals.now.names) name.now }
{
    match find(&globals.names, name.text.as_slice()) {
        Some(what) => Some(what),
        None => find(&locals.names, name.text.as_slice()),
    }
}

/// One more declaration.
pub(crate) fn add<'a, V: Copy>(
    names: &mut IndexMap<&'a [u8], V>,
    name: &'a [u8],
    what: V,
) -> Result<(), Memory>
    ensures { OnOk result (table names.new ≡ declare name.now what (table names.old)) }
{
    match find(names, name) {
        Some(_) => Ok(()),
        None => {
            names.insert(name, what)?;
            Ok(())
        }
    }
}

/// The function that a name calls.
pub(crate) fn called(globals: &Globals, name: &Name) -> Option<Callee>
    ensures { result ≡ look name.now.text (outside globals.now).callees }
{
    find(&globals.callees, name.text.as_slice())
}
