//! The entries of a project, from the rows of a document.
ghost use Rattle.std.specs.Prelude.{◌≡◌, false, IfOk, map};
ghost use Rattle.project_sheet.specs.Sheet.{plain_sheet};
ghost use Rattle.project_rows.specs.Rules.{cluster_out};
ghost use Rattle.project_reader.specs.ProjectOf.{small_of, half_of, word_of, shape_of, task_entry, transaction_entry, port_ref, wire_of, outlet_of, project_of};

use crate::mask::mask_of;
use crate::project::{Outlet, PortRef, Project, TaskEntry, Wire};
use graph::Transaction;
use mars_base::{ClusterShape, Memory, Text};
use project_relations::circle::task_at;
use project_relations::relate::{byte_of, least_round_in, transaction_of};
use project_rows::name::port_half;
use project_sheet::Sheet;
use project_sheet::sheet::{ClusterRow, EdgeRow, OutletRow, TaskRow, TransactionRow};
use sqlite_items::Items;
use std::alloc::Global;

/// A number that fits a byte; 0 for any other.
fn small_of(number: usize) -> u8
    ensures { result ≡ small_of number }
{
    if number <= 255 { number as u8 } else { 0 }
}

/// A number that fits two bytes; 0 for any other.
fn half_of(number: i64) -> u16
    ensures { result ≡ half_of number }
{
    if 0 <= number && number <= 65_535 {
        number as u16
    } else {
        0
    }
}

/// A number that fits four bytes; 0 for any other.
fn word_of(number: i64) -> u32
    ensures { result ≡ word_of number }
{
    if 0 <= number && number <= 4_294_967_295 {
        number as u32
    } else {
        0
    }
}

fn round_of(cluster: &ClusterRow) -> u32
    requires { cluster_out cluster.now ≡ false }
    ensures { result ≡ (shape_of cluster.now).round }
{
    match cluster.round {
        Some(round) => word_of(round),
        None => least_round_in(cluster),
    }
}

/// The cluster of a row. Its round is the least one where the row has none.
fn shape_of(cluster: &ClusterRow) -> ClusterShape
    requires { cluster_out cluster.now ≡ false }
    ensures { result ≡ shape_of cluster.now }
{
    ClusterShape {
        units: byte_of(cluster.units),
        slot_words: byte_of(cluster.slot_words),
        precision: byte_of(cluster.precision),
        cycles_per_tick: half_of(cluster.cycles_per_tick),
        round: round_of(cluster),
    }
}

fn copy(alloc: Global, text: &Text) -> Result<Text, Memory>
    ensures { IfOk result (λ other. other ≡ text.now) }
{
    Text::from_slice(alloc, text.as_slice())
}

/// The number of a task's transaction; 0 where there is none.
fn transaction_number(sheet: &Sheet, task: &TaskRow) -> u8
    ensures { result ≡ (task_entry (plain_sheet sheet.now) task.now).transaction }
{
    match transaction_of(sheet, task.name.as_slice()) {
        Some(number) => small_of(number),
        None => 0,
    }
}

fn task_entry(alloc: Global, sheet: &Sheet, task: &TaskRow) -> Result<TaskEntry, Memory>
    ensures { IfOk result (λ entry. entry ≡ task_entry (plain_sheet sheet.now) task.now) }
{
    Ok(TaskEntry {
        name: copy(alloc, &task.name)?,
        file: copy(alloc, &task.file)?,
        units: mask_of(byte_of(sheet.cluster.units), &task.units),
        transaction: transaction_number(sheet, task),
    })
}

fn transaction_entry(alloc: Global, transaction: &TransactionRow) -> Result<Transaction, Memory>
    ensures { IfOk result (λ entry. entry ≡ transaction_entry transaction.now) }
{
    Ok(Transaction {
        name: copy(alloc, &transaction.name)?,
        period: word_of(transaction.period),
        deadline: word_of(transaction.deadline),
    })
}

fn port_ref(alloc: Global, sheet: &Sheet, reference: &Text) -> Result<PortRef, Memory>
    ensures { IfOk result (λ port. port ≡ port_ref (plain_sheet sheet.now) reference.now) }
{
    Ok(PortRef {
        task: small_of(task_at(sheet, reference)),
        port: Text::from_slice(alloc, port_half(reference.as_slice()))?,
    })
}

fn wire_of(alloc: Global, sheet: &Sheet, edge: &EdgeRow) -> Result<Wire, Memory>
    ensures { IfOk result (λ wire. wire ≡ wire_of (plain_sheet sheet.now) edge.now) }
{
    Ok(Wire {
        from: port_ref(alloc, sheet, &edge.from)?,
        to: port_ref(alloc, sheet, &edge.to)?,
    })
}

fn outlet_of(alloc: Global, sheet: &Sheet, outlet: &OutletRow) -> Result<Outlet, Memory>
    ensures { IfOk result (λ entry. entry ≡ outlet_of (plain_sheet sheet.now) outlet.now) }
{
    Ok(Outlet {
        name: copy(alloc, &outlet.name)?,
        port: port_ref(alloc, sheet, &outlet.port)?,
    })
}

fn tasks_of(alloc: Global, sheet: &Sheet, rows: &[TaskRow]) -> Result<Items<TaskEntry>, Memory>
    ensures { IfOk result (λ list. list ≡ map (task_entry (plain_sheet sheet.now)) rows.now) }
{
    let mut list = Items::new(alloc);
    for row in rows {
        list.push(task_entry(alloc, sheet, row)?)?;
    }
    Ok(list)
}

fn transactions_of(alloc: Global, rows: &[TransactionRow]) -> Result<Items<Transaction>, Memory>
    ensures { IfOk result (λ list. list ≡ map transaction_entry rows.now) }
{
    let mut list = Items::new(alloc);
    for row in rows {
        list.push(transaction_entry(alloc, row)?)?;
    }
    Ok(list)
}

fn wires_of(alloc: Global, sheet: &Sheet, rows: &[EdgeRow]) -> Result<Items<Wire>, Memory>
    ensures { IfOk result (λ list. list ≡ map (wire_of (plain_sheet sheet.now)) rows.now) }
{
    let mut list = Items::new(alloc);
    for row in rows {
        list.push(wire_of(alloc, sheet, row)?)?;
    }
    Ok(list)
}

fn outlets_of(alloc: Global, sheet: &Sheet, rows: &[OutletRow]) -> Result<Items<Outlet>, Memory>
    ensures { IfOk result (λ list. list ≡ map (outlet_of (plain_sheet sheet.now)) rows.now) }
{
    let mut list = Items::new(alloc);
    for row in rows {
        list.push(outlet_of(alloc, sheet, row)?)?;
    }
    Ok(list)
}

/// The project of a document's rows. What hasn't its form gives 0: the rules come first.
pub(crate) fn project_of(alloc: Global, sheet: &Sheet) -> Result<Project, Memory>
    requires { cluster_out sheet.now.cluster ≡ false }
    ensures { IfOk result (λ project. project ≡ project_of (plain_sheet sheet.now)) }
{
    Ok(Project {
        shape: shape_of(&sheet.cluster),
        tasks: tasks_of(alloc, sheet, sheet.tasks.as_slice())?,
        transactions: transactions_of(alloc, sheet.transactions.as_slice())?,
        edges: wires_of(alloc, sheet, sheet.edges.as_slice())?,
        sensors: outlets_of(alloc, sheet, sheet.sensors.as_slice())?,
        actuators: outlets_of(alloc, sheet, sheet.actuators.as_slice())?,
    })
}
