//! The names of the entries of a section.
ghost use Rattle.std.specs.Prelude.{◌↔◌, IsTrue, IfOk, All};
ghost use Rattle.mars_base.specs.Name.{IsName};
ghost use Rattle.graph.specs.Name.{Differ, AreNames};

use crate::net::{NetTask, Plug, Transaction};
use distinct_names::{Named, first_repeat};
use mars_base::{Memory, is_name};
use std::alloc::Global;

impl Named for NetTask {
    ghost name_of = { λ t. t.name };

    fn name(&self) -> &[u8] {
        self.name.as_slice()
    }
}

impl Named for Transaction {
    ghost name_of = { λ t. t.name };

    fn name(&self) -> &[u8] {
        self.name.as_slice()
    }
}

impl Named for Plug {
    ghost name_of = { λ p. p.name };

    fn name(&self) -> &[u8] {
        self.name.as_slice()
    }
}

fn all_names<T: Named>(entries: &[T]) -> bool
    ensures { IsTrue result ↔ All (λ e. IsName (T.name_of e)) entries.now }
{
    entries.iter().all(|entry| is_name(entry.name()))
}

/// Whether no two entries have the same name.
fn differ<T: Named>(alloc: Global, entries: &[T]) -> Result<bool, Memory>
    ensures { IfOk result (λ answer. IsTrue answer ↔ Differ T.name_of entries.now) }
{
    let found = first_repeat(alloc, entries)?;
    Ok(found.is_none())
}

/// Whether each entry's name has its form and no two are the same.
pub(crate) fn are_names<T: Named>(alloc: Global, entries: &[T]) -> Result<bool, Memory>
    ensures { IfOk result (λ answer. IsTrue answer ↔ AreNames T.name_of entries.now) }
{
    Ok(all_names(entries) && differ(alloc, entries)?)
}
