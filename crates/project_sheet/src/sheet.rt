//! A document as plain rows of typed fields.
ghost use Rattle.std.specs.Prelude.{◌≡◌, ◌++◌, ◌∷◌, [], All, IfOk, IsUtf8, OnOk, map};
ghost use Rattle.toml.specs.Data.{get_member};
ghost use Rattle.toml.specs.View.{view, table_view};
ghost use Rattle.project_sheet.specs.Sheet.{number_in, text_in, number_at, text_at, texts_at, maybe_number, maybe_numbers, task_row, transaction_row, edge_row, outlet_row, cluster_row, cluster_of, rows_of, sheet_of, plain_sheet, HasUtf8File};

use crate::document::array_at;
use crate::form::get;
use mars_base::{Memory, Text};
use std::alloc::Global;
use std::marker::Model;
use toml::{Table, Value};

/// Numbers, which contracts see as their list.
#[derive(Drop)]
pub struct Numbers {
    numbers: Vec<i64>,
}

impl Model for Numbers {
    ghost use Rattle.std.specs.Prelude.{List, ℤ};

    ghost Value = { List ℤ };

    ghost view = { λ list. list.numbers.items };
}

impl Numbers {
    fn from_vec(numbers: Vec<i64>) -> Numbers
        ensures { result ≡ numbers.items }
    {
        Numbers { numbers }
    }

    pub fn as_slice(&self) -> &[i64]
        ensures { result.now ≡ self.now }
    {
        self.numbers.as_slice()
    }
}

/// Texts, which contracts see as their list.
#[derive(Drop)]
pub struct Texts {
    texts: Vec<Text>,
}

impl Model for Texts {
    ghost use Rattle.std.specs.Prelude.{List, ℕ};

    ghost Value = { List (List ℕ) };

    ghost view = { λ list. list.texts.items };
}

impl Texts {
    fn from_vec(texts: Vec<Text>) -> Texts
        ensures { result ≡ texts.items }
    {
        Texts { texts }
    }

    pub fn as_slice(&self) -> &[Text]
        ensures { result.now ≡ self.now }
    {
        self.texts.as_slice()
    }
}

#[derive(Clone, Copy)]
pub struct ClusterRow {
    pub units: i64,
    pub slot_words: i64,
    pub precision: i64,
    pub cycles_per_tick: i64,
    pub round: Option<i64>,
}

#[derive(Drop)]
pub struct TaskRow {
    pub name: Text,
    pub file: Text,
    pub units: Option<Numbers>,
}

#[derive(Drop)]
pub struct TransactionRow {
    pub name: Text,
    pub period: i64,
    pub deadline: i64,
    pub tasks: Texts,
}

#[derive(Drop)]
pub struct EdgeRow {
    pub from: Text,
    pub to: Text,
}

#[derive(Drop)]
pub struct OutletRow {
    pub name: Text,
    pub port: Text,
}

/// The rows of a document.
#[derive(Drop)]
pub struct Sheet {
    pub cluster: ClusterRow,
    pub tasks: Vec<TaskRow>,
    pub transactions: Vec<TransactionRow>,
    pub edges: Vec<EdgeRow>,
    pub sensors: Vec<OutletRow>,
    pub actuators: Vec<OutletRow>,
}

/// The number that a value is; 0 where it's none.
fn number_of(value: &Value) -> i64
    ensures { result ≡ number_in (view value.now) }
{
    match value.as_integer() {
        Some(number) => number,
        None => 0,
    }
}

/// A copy of the text that a value is; empty where it's none.
fn text_of(alloc: Global, value: &Value) -> Result<Text, Memory>
    ensures text { IfOk result (λ text. text ≡ text_in (view value.now)) }
    ensures utf8 { IfOk result (λ text. IsUtf8 text) }
{
    match value.as_str() {
        Some(text) => Text::from_slice(alloc, text.as_bytes()),
        None => Text::from_slice(alloc, &[]),
    }
}

fn numbers_of(alloc: Global, items: &[Value]) -> Result<Numbers, Memory>
    ensures { IfOk result (λ numbers. numbers ≡ map number_in (map view items.now)) }
{
    let mut numbers = Vec::new(alloc);
    for item in items {
        numbers.push(number_of(item))?;
    }
    Ok(Numbers::from_vec(numbers))
}

fn texts_of(alloc: Global, items: &[Value]) -> Result<Texts, Memory>
    ensures { IfOk result (λ texts. texts ≡ map text_in (map view items.now)) }
{
    let mut texts = Vec::new(alloc);
    for item in items {
        texts.push(text_of(alloc, item)?)?;
    }
    Ok(Texts::from_vec(texts))
}

fn number_at(table: &Table, key: &str) -> i64
    ensures { result ≡ number_at key.now (table_view table.now) }
{
    match get(table, key) {
        Some(value) => number_of(value),
        None => 0,
    }
}

fn maybe_number(table: &Table, key: &str) -> Option<i64>
    ensures { result ≡ maybe_number (get_member key.now (table_view table.now)) }
{
    match get(table, key) {
        Some(value) => Some(number_of(value)),
        None => None,
    }
}

fn text_at(alloc: Global, table: &Table, key: &str) -> Result<Text, Memory>
    ensures text { IfOk result (λ text. text ≡ text_at key.now (table_view table.now)) }
    ensures utf8 { IfOk result (λ text. IsUtf8 text) }
{
    match get(table, key) {
        Some(value) => text_of(alloc, value),
        None => Text::from_slice(alloc, &[]),
    }
}

fn texts_at(alloc: Global, table: &Table, key: &str) -> Result<Texts, Memory>
    ensures { IfOk result (λ texts. texts ≡ texts_at key.now (table_view table.now)) }
{
    texts_of(alloc, array_at(table, key))
}

fn maybe_numbers(alloc: Global, table: &Table, key: &str) -> Result<Option<Numbers>, Memory>
    ensures { IfOk result (λ numbers. numbers ≡ maybe_numbers key.now (table_view table.now)) }
{
    match get(table, key) {
        Some(_) => Ok(Some(numbers_of(alloc, array_at(table, key))?)),
        None => Ok(None),
    }
}

fn task_row(alloc: Global, table: &Table) -> Result<TaskRow, Memory>
    ensures row { IfOk result (λ row. row ≡ task_row (table_view table.now)) }
    ensures utf8 { IfOk result (λ row. IsUtf8 row.file) }
{
    Ok(TaskRow {
        name: text_at(alloc, table, "name")?,
        file: text_at(alloc, table, "file")?,
        units: maybe_numbers(alloc, table, "units")?,
    })
}

fn transaction_row(alloc: Global, table: &Table) -> Result<TransactionRow, Memory>
    ensures { IfOk result (λ row. row ≡ transaction_row (table_view table.now)) }
{
    Ok(TransactionRow {
        name: text_at(alloc, table, "name")?,
        period: number_at(table, "period"),
        deadline: number_at(table, "deadline"),
        tasks: texts_at(alloc, table, "tasks")?,
    })
}

fn edge_row(alloc: Global, table: &Table) -> Result<EdgeRow, Memory>
    ensures { IfOk result (λ row. row ≡ edge_row (table_view table.now)) }
{
    Ok(EdgeRow {
        from: text_at(alloc, table, "from")?,
        to: text_at(alloc, table, "to")?,
    })
}

fn outlet_row(alloc: Global, table: &Table, key: &str) -> Result<OutletRow, Memory>
    ensures { IfOk result (λ row. row ≡ outlet_row key.now (table_view table.now)) }
{
    Ok(OutletRow {
        name: text_at(alloc, table, "name")?,
        port: text_at(alloc, table, key)?,
    })
}

fn cluster_row(table: &Table) -> ClusterRow
    ensures { result ≡ cluster_row (table_view table.now) }
{
    ClusterRow {
        units: number_at(table, "units"),
        slot_words: number_at(table, "slot_words"),
        precision: number_at(table, "precision"),
        cycles_per_tick: number_at(table, "cycles_per_tick"),
        round: maybe_number(table, "round"),
    }
}

/// The row of the cluster.
fn read_cluster(doc: &Table) -> ClusterRow
    ensures { result ≡ cluster_of (table_view doc.now) }
{
    match get(doc, "cluster") {
        Some(value) => match value.as_table() {
            Some(table) => cluster_row(table),
            None => NO_CLUSTER,
        },
        None => NO_CLUSTER,
    }
}

const NO_CLUSTER: ClusterRow = ClusterRow {
    units: 0,
    slot_words: 0,
    precision: 0,
    cycles_per_tick: 0,
    round: None,
};

/// Appends the row of an entry that is a table.
fn push_task(alloc: Global, rows: &mut Vec<TaskRow>, entry: &Value) -> Result<(), Memory>
    ensures rows { OnOk result (rows.new.items ≡ rows.old.items ++ rows_of task_row (view entry.now ∷ [])) }
    ensures utf8 { OnOk result (All HasUtf8File rows.old.items → All HasUtf8File rows.new.items) }
{
    match entry.as_table() {
        Some(table) => {
            rows.push(task_row(alloc, table)?)?;
            Ok(())
        }
        None => Ok(()),
    }
}

fn read_tasks(alloc: Global, entries: &[Value]) -> Result<Vec<TaskRow>, Memory>
    ensures rows { IfOk result (λ rows. rows.items ≡ rows_of task_row (map view entries.now)) }
    ensures utf8 { IfOk result (λ rows. All HasUtf8File rows.items) }
{
    let mut rows = Vec::new(alloc);
    for entry in entries {
        push_task(alloc, &mut rows, entry)?;
    }
    Ok(rows)
}

/// Appends the row of an entry that is a table.
fn push_transaction(
    alloc: Global,
    rows: &mut Vec<TransactionRow>,
    entry: &Value,
) -> Result<(), Memory>
    ensures { OnOk result (rows.new.items ≡ rows.old.items ++ rows_of transaction_row (view entry.now ∷ [])) }
{
    match entry.as_table() {
        Some(table) => {
            rows.push(transaction_row(alloc, table)?)?;
            Ok(())
        }
        None => Ok(()),
    }
}

fn read_transactions(alloc: Global, entries: &[Value]) -> Result<Vec<TransactionRow>, Memory>
    ensures { IfOk result (λ rows. rows.items ≡ rows_of transaction_row (map view entries.now)) }
{
    let mut rows = Vec::new(alloc);
    for entry in entries {
        push_transaction(alloc, &mut rows, entry)?;
    }
    Ok(rows)
}

/// Appends the row of an entry that is a table.
fn push_edge(alloc: Global, rows: &mut Vec<EdgeRow>, entry: &Value) -> Result<(), Memory>
    ensures { OnOk result (rows.new.items ≡ rows.old.items ++ rows_of edge_row (view entry.now ∷ [])) }
{
    match entry.as_table() {
        Some(table) => {
            rows.push(edge_row(alloc, table)?)?;
            Ok(())
        }
        None => Ok(()),
    }
}

fn read_edges(alloc: Global, entries: &[Value]) -> Result<Vec<EdgeRow>, Memory>
    ensures { IfOk result (λ rows. rows.items ≡ rows_of edge_row (map view entries.now)) }
{
    let mut rows = Vec::new(alloc);
    for entry in entries {
        push_edge(alloc, &mut rows, entry)?;
    }
    Ok(rows)
}

/// Appends the row of an entry that is a table.
fn push_outlet(
    alloc: Global,
    rows: &mut Vec<OutletRow>,
    entry: &Value,
    key: &str,
) -> Result<(), Memory>
    ensures { OnOk result (rows.new.items ≡ rows.old.items ++ rows_of (outlet_row key.now) (view entry.now ∷ [])) }
{
    match entry.as_table() {
        Some(table) => {
            rows.push(outlet_row(alloc, table, key)?)?;
            Ok(())
        }
        None => Ok(()),
    }
}

fn read_outlets(alloc: Global, entries: &[Value], key: &str) -> Result<Vec<OutletRow>, Memory>
    ensures { IfOk result (λ rows. rows.items ≡ rows_of (outlet_row key.now) (map view entries.now)) }
{
    let mut rows = Vec::new(alloc);
    for entry in entries {
        push_outlet(alloc, &mut rows, entry, key)?;
    }
    Ok(rows)
}

/// The rows of a document. What hasn't its form gives 0 or nothing: the rules for form come first.
pub fn read_sheet(alloc: Global, doc: &Table) -> Result<Sheet, Memory>
    ensures rows { IfOk result (λ sheet. plain_sheet sheet ≡ sheet_of (table_view doc.now)) }
    ensures utf8 { IfOk result (λ sheet. All HasUtf8File sheet.tasks.items) }
{
    Ok(Sheet {
        cluster: read_cluster(doc),
        tasks: read_tasks(alloc, array_at(doc, "task"))?,
        transactions: read_transactions(alloc, array_at(doc, "transaction"))?,
        edges: read_edges(alloc, array_at(doc, "edge"))?,
        sensors: read_outlets(alloc, array_at(doc, "sensor"), "to")?,
        actuators: read_outlets(alloc, array_at(doc, "actuator"), "from")?,
    })
}
