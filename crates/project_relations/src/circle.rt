//! Edges that go in a circle.
ghost use Rattle.std.specs.Prelude.{◌≡◌, ◌==◌, ◌<◌, true, false, IfOk, Bool, filter, map, length, position, bytes_eq};
ghost use Rattle.std.specs.List.{list_any};
ghost use Rattle.project_relations.specs.declared.circle.Link.{Link};
ghost use Rattle.project_sheet.specs.First.{IsFirstPlace, IsLeast};
ghost use Rattle.project_sheet.specs.Sheet.{plain_sheet};
ghost use Rattle.project_rows.specs.Rules.{task_half};
ghost use Rattle.project_relations.specs.Relations.{task_number, link_of, belongs, links_of, CanRank, IsEdgesInCircle};

use crate::relate::{has_name, same_number, transaction_at};
use mars_base::{Memory, Text};
use project_rows::name::task_half;
use project_sheet::first::{Found, first_place};
use project_sheet::place::Place;
use project_sheet::sheet::{EdgeRow, Sheet};
use std::alloc::Global;

/// An edge by the numbers of its tasks.
#[derive(Clone, Copy)]
pub struct Link {
    pub from: usize,
    pub to: usize,
}

fn find_task(sheet: &Sheet, name: &[u8]) -> Option<usize>
    ensures { result ≡ position (λ t. bytes_eq t.name name.now) sheet.now.tasks.items }
{
    sheet.tasks.iter().position(|task| has_name(task, name))
}

/// The number of the first task of a name; 0 where there is none.
fn task_number(sheet: &Sheet, name: &[u8]) -> usize
    ensures { result ≡ task_number sheet.now.tasks.items name.now }
{
    match find_task(sheet, name) {
        Some(number) => number,
        None => 0,
    }
}

/// The number of the first task of the name before a reference's dot; 0 where there is none.
pub fn task_at(sheet: &Sheet, reference: &Text) -> usize
    ensures { result ≡ task_number sheet.now.tasks.items (task_half reference.now) }
{
    task_number(sheet, task_half(reference.as_slice()))
}

fn link_of(sheet: &Sheet, edge: &EdgeRow) -> Link
    ensures { result ≡ link_of (plain_sheet sheet.now) edge.now }
{
    Link {
        from: task_at(sheet, &edge.from),
        to: task_at(sheet, &edge.to),
    }
}

fn belongs(sheet: &Sheet, transaction: usize, edge: &EdgeRow) -> bool
    ensures { result ≡ belongs (plain_sheet sheet.now) transaction edge.now }
{
    same_number(transaction_at(sheet, &edge.from), Some(transaction))
}

fn links_of(alloc: Global, sheet: &Sheet, transaction: usize) -> Result<Vec<Link>, Memory>
    ensures { IfOk result (λ links. links.items ≡ links_of (plain_sheet sheet.now) transaction) }
{
    Ok(
        sheet
            .edges
            .iter()
            .filter(|edge| belongs(sheet, transaction, edge))
            .map(|edge| link_of(sheet, edge))
            .collect(alloc)?,
    )
}

/// Whether an edge goes to the task.
fn is_fed(links: &[Link], task: usize) -> bool
    ensures { result ≡ list_any (λ l. l.to == task) links.now }
{
    links.iter().any(|link| link.to == task)
}

/// The edges that begin where another one ends.
fn fed_links(alloc: Global, links: &[Link]) -> Result<Vec<Link>, Memory>
    ensures { IfOk result (λ rest. rest.items ≡ filter (λ l. list_any (λ m. m.to == l.from) links.now) links.now) }
{
    Ok(
        links
            .iter()
            .filter(|link| is_fed(links, link.from))
            .copied()
            .collect(alloc)?,
    )
}

/// Whether edges go in a circle: those that don't are taken away round by round.
fn has_circle(alloc: Global, links: Vec<Link>) -> Result<bool, Memory>
    ensures circle { IfOk result (λ circle. circle ≡ true → CanRank links.items → ⊥) }
    ensures ranked { IfOk result (λ circle. circle ≡ false → CanRank links.items) }
{
    let mut left = links;
    'rounds: while left.len() > 0 {
        let rest = fed_links(alloc, left.as_slice())?;
        if rest.len() == left.len() {
            return Ok(true);
        }
        left = rest;
    }
    Ok(false)
}

/// The first transaction whose edges go in a circle.
fn first_circle(alloc: Global, sheet: &Sheet) -> Result<Option<usize>, Memory>
    ensures { IfOk result (IsLeast (λ t. (t < length sheet.now.transactions.items) × (CanRank (links_of (plain_sheet sheet.now) t) → ⊥))) }
{
    for transaction in 0..sheet.transactions.as_slice().len() {
        let links = links_of(alloc, sheet, transaction)?;
        if has_circle(alloc, links)? {
            return Ok(Some(transaction));
        }
    }
    Ok(None)
}

/// The first place of edges in a circle.
pub fn edges_in_circle(alloc: Global, sheet: &Sheet) -> Result<Option<Place>, Memory>
    ensures { IfOk result (IsFirstPlace (IsEdgesInCircle (plain_sheet sheet.now))) }
{
    let transaction = first_circle(alloc, sheet)?;
    first_place(Found {
        top: None,
        cluster: None,
        task: None,
        transaction,
        edge: None,
        sensor: None,
        actuator: None,
    })
}
