//! The form of names and references.
ghost use Rattle.std.specs.Prelude.{◌≡◌, ◌≤◌, ◌==◌, IfOk, length, position, not};
ghost use Rattle.std.specs.List.{list_any};
ghost use Rattle.mars_base.specs.Name.{is_name};
ghost use Rattle.project_sheet.specs.First.{IsFirstPlace};
ghost use Rattle.project_sheet.specs.Sheet.{plain_sheet};
ghost use Rattle.project_rows.specs.Rules.{dot_place, task_half, port_half, is_reference, task_misnamed, transaction_misnamed, edge_misnamed, outlet_misnamed, IsBadName};

use mars_base::{Memory, Text, is_name};
use project_sheet::first::{Found, first_place};
use project_sheet::place::Place;
use project_sheet::sheet::{EdgeRow, OutletRow, Sheet, TaskRow, TransactionRow};

fn find_dot(reference: &[u8]) -> Option<usize>
    ensures { result ≡ position (λ b. b == 46) reference.now }
{
    reference.iter().position(|byte| *byte == 46)
}

/// The place of the first dot, or the length.
fn dot_place(reference: &[u8]) -> usize
    ensures place { result ≡ dot_place reference.now }
    ensures within { result ≤ length reference.now }
{
    match find_dot(reference) {
        Some(dot) => dot,
        None => reference.len(),
    }
}

/// What stands before the first dot, or all of it.
pub fn task_half(reference: &[u8]) -> &[u8]
    ensures { result.now ≡ task_half reference.now }
{
    &reference[..dot_place(reference)]
}

/// What stands after the first dot, or nothing.
pub fn port_half(reference: &[u8]) -> &[u8]
    ensures { result.now ≡ port_half reference.now }
{
    let dot = dot_place(reference);
    if dot < reference.len() {
        &reference[dot + 1..]
    } else {
        &[]
    }
}

fn is_reference(reference: &[u8]) -> bool
    ensures { result ≡ is_reference reference.now }
{
    is_name(task_half(reference)) && is_name(port_half(reference))
}

fn task_misnamed(task: &TaskRow) -> bool
    ensures { result ≡ task_misnamed task.now }
{
    !is_name(task.name.as_slice())
}

fn any_misnamed(names: &[Text]) -> bool
    ensures { result ≡ list_any (λ name. not (is_name name)) names.now }
{
    names.iter().any(|name| !is_name(name.as_slice()))
}

fn transaction_misnamed(transaction: &TransactionRow) -> bool
    ensures { result ≡ transaction_misnamed transaction.now }
{
    !is_name(transaction.name.as_slice()) || any_misnamed(transaction.tasks.as_slice())
}

fn edge_misnamed(edge: &EdgeRow) -> bool
    ensures { result ≡ edge_misnamed edge.now }
{
    !is_reference(edge.from.as_slice()) || !is_reference(edge.to.as_slice())
}

fn outlet_misnamed(outlet: &OutletRow) -> bool
    ensures { result ≡ outlet_misnamed outlet.now }
{
    !is_name(outlet.name.as_slice()) || !is_reference(outlet.port.as_slice())
}

fn first_task(sheet: &Sheet) -> Option<usize>
    ensures { result ≡ position task_misnamed sheet.now.tasks.items }
{
    sheet.tasks.iter().position(|task| task_misnamed(task))
}

fn first_transaction(sheet: &Sheet) -> Option<usize>
    ensures { result ≡ position transaction_misnamed sheet.now.transactions.items }
{
    sheet
        .transactions
        .iter()
        .position(|transaction| transaction_misnamed(transaction))
}

fn first_edge(sheet: &Sheet) -> Option<usize>
    ensures { result ≡ position edge_misnamed sheet.now.edges.items }
{
    sheet.edges.iter().position(|edge| edge_misnamed(edge))
}

fn first_sensor(sheet: &Sheet) -> Option<usize>
    ensures { result ≡ position outlet_misnamed sheet.now.sensors.items }
{
    sheet
        .sensors
        .iter()
        .position(|outlet| outlet_misnamed(outlet))
}

fn first_actuator(sheet: &Sheet) -> Option<usize>
    ensures { result ≡ position outlet_misnamed sheet.now.actuators.items }
{
    sheet
        .actuators
        .iter()
        .position(|outlet| outlet_misnamed(outlet))
}

/// The first place with a name or half of a reference without its form.
pub fn bad_name(sheet: &Sheet) -> Result<Option<Place>, Memory>
    ensures { IfOk result (IsFirstPlace (IsBadName (plain_sheet sheet.now))) }
{
    first_place(Found {
        top: None,
        cluster: None,
        task: first_task(sheet),
        transaction: first_transaction(sheet),
        edge: first_edge(sheet),
        sensor: first_sensor(sheet),
        actuator: first_actuator(sheet),
    })
}
