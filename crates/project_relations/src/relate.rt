//! The rules that relate a project's numbers and names.
ghost use Rattle.std.specs.Prelude.{◌≡◌, ◌∷◌, [], false, IfOk, count_by, position, not, bytes_eq, int_le};
ghost use Rattle.std.specs.List.{list_any};
ghost use Rattle.project_sheet.specs.First.{IsFirstPlace};
ghost use Rattle.project_sheet.specs.Sheet.{plain_sheet};
ghost use Rattle.project_rows.specs.Rules.{task_half, cluster_out};
ghost use Rattle.project_relations.specs.Relations.{byte_of, least_round_in, round_short, is_late, maybe_past, is_elsewhere, is_task, transaction_strays, edge_strays, outlet_strays, lists, lists_twice, is_outside, is_shared, transaction_of, same_number, is_across, IsRoundTooShort, IsDeadlineAbovePeriod, IsUnknownUnit, IsUnknownTask, IsTaskNotInTransaction, IsTaskInTwoTransactions, IsEdgeBetweenTransactions};

use mars_base::{Memory, Text, least_round};
use project_rows::name::task_half;
use project_sheet::first::{Found, first_place};
use project_sheet::place::Place;
use project_sheet::sheet::{
    ClusterRow, EdgeRow, Numbers, OutletRow, Sheet, TaskRow, TransactionRow,
};

/// A number that fits a byte; 0 for any other.
pub fn byte_of(number: i64) -> u8
    ensures { result ≡ byte_of number }
{
    if 0 <= number && number <= 255 {
        number as u8
    } else {
        0
    }
}

fn units_of(cluster: &ClusterRow) -> u8
    ensures { result ≡ byte_of cluster.now.units }
{
    byte_of(cluster.units)
}

fn slot_words_of(cluster: &ClusterRow) -> u8
    ensures { result ≡ byte_of cluster.now.slot_words }
{
    byte_of(cluster.slot_words)
}

fn precision_of(cluster: &ClusterRow) -> u8
    ensures { result ≡ byte_of cluster.now.precision }
{
    byte_of(cluster.precision)
}

/// The least round of the cluster.
pub fn least_round_in(cluster: &ClusterRow) -> u32
    requires { cluster_out cluster.now ≡ false }
    ensures { result ≡ least_round_in cluster.now }
{
    least_round(
        units_of(cluster),
        slot_words_of(cluster),
        precision_of(cluster),
    )
}

fn round_short(cluster: &ClusterRow) -> bool
    requires { cluster_out cluster.now ≡ false }
    ensures { result ≡ round_short cluster.now }
{
    match cluster.round {
        Some(round) => round < i64::from(least_round_in(cluster)),
        None => false,
    }
}

fn first_round_short(cluster: &ClusterRow) -> Option<usize>
    requires { cluster_out cluster.now ≡ false }
    ensures { result ≡ position round_short (cluster.now ∷ []) }
{
    if round_short(cluster) { Some(0) } else { None }
}

/// The cluster, where its round is shorter than the least round.
pub fn round_too_short(sheet: &Sheet) -> Result<Option<Place>, Memory>
    requires { cluster_out sheet.now.cluster ≡ false }
    ensures { IfOk result (IsFirstPlace (IsRoundTooShort (plain_sheet sheet.now))) }
{
    first_place(Found {
        top: None,
        cluster: first_round_short(&sheet.cluster),
        task: None,
        transaction: None,
        edge: None,
        sensor: None,
        actuator: None,
    })
}

fn is_late(transaction: &TransactionRow) -> bool
    ensures { result ≡ is_late transaction.now }
{
    transaction.period < transaction.deadline
}

fn first_late(sheet: &Sheet) -> Option<usize>
    ensures { result ≡ position is_late sheet.now.transactions.items }
{
    sheet
        .transactions
        .iter()
        .position(|transaction| is_late(transaction))
}

/// The first transaction whose deadline is above its period.
pub fn deadline_above_period(sheet: &Sheet) -> Result<Option<Place>, Memory>
    ensures { IfOk result (IsFirstPlace (IsDeadlineAbovePeriod (plain_sheet sheet.now))) }
{
    first_place(Found {
        top: None,
        cluster: None,
        task: None,
        transaction: first_late(sheet),
        edge: None,
        sensor: None,
        actuator: None,
    })
}

fn any_past(units: i64, numbers: &[i64]) -> bool
    ensures { result ≡ list_any (λ z. int_le units z) numbers.now }
{
    numbers.iter().any(|number| units <= *number)
}

fn maybe_past(units: i64, numbers: &Option<Numbers>) -> bool
    ensures { result ≡ maybe_past units numbers.now }
{
    match numbers {
        Some(numbers) => any_past(units, numbers.as_slice()),
        None => false,
    }
}

fn is_elsewhere(units: i64, task: &TaskRow) -> bool
    ensures { result ≡ is_elsewhere units task.now }
{
    maybe_past(units, &task.units)
}

fn first_elsewhere(sheet: &Sheet) -> Option<usize>
    ensures { result ≡ position (is_elsewhere sheet.now.cluster.units) sheet.now.tasks.items }
{
    let units = sheet.cluster.units;
    sheet
        .tasks
        .iter()
        .position(|task| is_elsewhere(units, task))
}

/// The first task with a unit that the cluster hasn't.
pub fn unknown_unit(sheet: &Sheet) -> Result<Option<Place>, Memory>
    ensures { IfOk result (IsFirstPlace (IsUnknownUnit (plain_sheet sheet.now))) }
{
    first_place(Found {
        top: None,
        cluster: None,
        task: first_elsewhere(sheet),
        transaction: None,
        edge: None,
        sensor: None,
        actuator: None,
    })
}

pub fn has_name(task: &TaskRow, name: &[u8]) -> bool
    ensures { result ≡ bytes_eq task.now.name name.now }
{
    task.name.as_slice() == name
}

fn is_task(sheet: &Sheet, name: &[u8]) -> bool
    ensures { result ≡ is_task sheet.now.tasks.items name.now }
{
    sheet.tasks.iter().any(|task| has_name(task, name))
}

fn any_stray(sheet: &Sheet, names: &[Text]) -> bool
    ensures { result ≡ list_any (λ name. not (is_task sheet.now.tasks.items name)) names.now }
{
    names.iter().any(|name| !is_task(sheet, name.as_slice()))
}

fn transaction_strays(sheet: &Sheet, transaction: &TransactionRow) -> bool
    ensures { result ≡ transaction_strays sheet.now.tasks.items transaction.now }
{
    any_stray(sheet, transaction.tasks.as_slice())
}

fn edge_strays(sheet: &Sheet, edge: &EdgeRow) -> bool
    ensures { result ≡ edge_strays sheet.now.tasks.items edge.now }
{
    !is_task(sheet, task_half(edge.from.as_slice()))
        || !is_task(sheet, task_half(edge.to.as_slice()))
}

fn outlet_strays(sheet: &Sheet, outlet: &OutletRow) -> bool
    ensures { result ≡ outlet_strays sheet.now.tasks.items outlet.now }
{
    !is_task(sheet, task_half(outlet.port.as_slice()))
}

fn first_stray_transaction(sheet: &Sheet) -> Option<usize>
    ensures { result ≡ position (transaction_strays sheet.now.tasks.items) sheet.now.transactions.items }
{
    sheet
        .transactions
        .iter()
        .position(|transaction| transaction_strays(sheet, transaction))
}

fn first_stray_edge(sheet: &Sheet) -> Option<usize>
    ensures { result ≡ position (edge_strays sheet.now.tasks.items) sheet.now.edges.items }
{
    sheet.edges.iter().position(|edge| edge_strays(sheet, edge))
}

fn first_stray_sensor(sheet: &Sheet) -> Option<usize>
    ensures { result ≡ position (outlet_strays sheet.now.tasks.items) sheet.now.sensors.items }
{
    sheet
        .sensors
        .iter()
        .position(|outlet| outlet_strays(sheet, outlet))
}

fn first_stray_actuator(sheet: &Sheet) -> Option<usize>
    ensures { result ≡ position (outlet_strays sheet.now.tasks.items) sheet.now.actuators.items }
{
    sheet
        .actuators
        .iter()
        .position(|outlet| outlet_strays(sheet, outlet))
}

/// The first entry that names a task that there isn't.
pub fn unknown_task(sheet: &Sheet) -> Result<Option<Place>, Memory>
    ensures { IfOk result (IsFirstPlace (IsUnknownTask (plain_sheet sheet.now))) }
{
    first_place(Found {
        top: None,
        cluster: None,
        task: None,
        transaction: first_stray_transaction(sheet),
        edge: first_stray_edge(sheet),
        sensor: first_stray_sensor(sheet),
        actuator: first_stray_actuator(sheet),
    })
}

fn lists(name: &[u8], transaction: &TransactionRow) -> bool
    ensures { result ≡ lists name.now transaction.now }
{
    any_equal(name, transaction.tasks.as_slice())
}

fn any_equal(name: &[u8], names: &[Text]) -> bool
    ensures { result ≡ list_any (bytes_eq name.now) names.now }
{
    names.iter().any(|other| name == other.as_slice())
}

fn count_equal(name: &[u8], names: &[Text]) -> usize
    ensures { result ≡ count_by (bytes_eq name.now) names.now }
{
    names
        .iter()
        .filter(|other| name == other.as_slice())
        .count()
}

fn lists_twice(name: &[u8], transaction: &TransactionRow) -> bool
    ensures { result ≡ lists_twice name.now transaction.now }
{
    2 <= count_equal(name, transaction.tasks.as_slice())
}

fn is_listed(sheet: &Sheet, name: &[u8]) -> bool
    ensures { result ≡ list_any (lists name.now) sheet.now.transactions.items }
{
    sheet
        .transactions
        .iter()
        .any(|transaction| lists(name, transaction))
}

fn is_listed_twice(sheet: &Sheet, name: &[u8]) -> bool
    ensures { result ≡ list_any (lists_twice name.now) sheet.now.transactions.items }
{
    sheet
        .transactions
        .iter()
        .any(|transaction| lists_twice(name, transaction))
}

fn count_listing(sheet: &Sheet, name: &[u8]) -> usize
    ensures { result ≡ count_by (lists name.now) sheet.now.transactions.items }
{
    sheet
        .transactions
        .iter()
        .filter(|transaction| lists(name, transaction))
        .count()
}

fn is_outside(sheet: &Sheet, task: &TaskRow) -> bool
    ensures { result ≡ is_outside sheet.now.transactions.items task.now }
{
    !is_listed(sheet, task.name.as_slice())
}

fn is_shared(sheet: &Sheet, task: &TaskRow) -> bool
    ensures { result ≡ is_shared sheet.now.transactions.items task.now }
{
    2 <= count_listing(sheet, task.name.as_slice()) || is_listed_twice(sheet, task.name.as_slice())
}

fn first_outside(sheet: &Sheet) -> Option<usize>
    ensures { result ≡ position (is_outside sheet.now.transactions.items) sheet.now.tasks.items }
{
    sheet.tasks.iter().position(|task| is_outside(sheet, task))
}

fn first_shared(sheet: &Sheet) -> Option<usize>
    ensures { result ≡ position (is_shared sheet.now.transactions.items) sheet.now.tasks.items }
{
    sheet.tasks.iter().position(|task| is_shared(sheet, task))
}

/// The first task that no transaction names.
pub fn task_not_in_transaction(sheet: &Sheet) -> Result<Option<Place>, Memory>
    ensures { IfOk result (IsFirstPlace (IsTaskNotInTransaction (plain_sheet sheet.now))) }
{
    first_place(Found {
        top: None,
        cluster: None,
        task: first_outside(sheet),
        transaction: None,
        edge: None,
        sensor: None,
        actuator: None,
    })
}

/// The first task that two transactions name, or one twice.
pub fn task_in_two_transactions(sheet: &Sheet) -> Result<Option<Place>, Memory>
    ensures { IfOk result (IsFirstPlace (IsTaskInTwoTransactions (plain_sheet sheet.now))) }
{
    first_place(Found {
        top: None,
        cluster: None,
        task: first_shared(sheet),
        transaction: None,
        edge: None,
        sensor: None,
        actuator: None,
    })
}

/// The number of the first transaction that names a task.
pub fn transaction_of(sheet: &Sheet, name: &[u8]) -> Option<usize>
    ensures { result ≡ transaction_of sheet.now.transactions.items name.now }
{
    sheet
        .transactions
        .iter()
        .position(|transaction| lists(name, transaction))
}

/// The number of the first transaction that names a reference's task.
pub fn transaction_at(sheet: &Sheet, reference: &Text) -> Option<usize>
    ensures { result ≡ transaction_of sheet.now.transactions.items (task_half reference.now) }
{
    transaction_of(sheet, task_half(reference.as_slice()))
}

pub fn same_number(a: Option<usize>, b: Option<usize>) -> bool
    ensures { result ≡ same_number a b }
{
    match (a, b) {
        (None, None) => true,
        (None, Some(_)) => false,
        (Some(_), None) => false,
        (Some(i), Some(j)) => i == j,
    }
}

fn is_across(sheet: &Sheet, edge: &EdgeRow) -> bool
    ensures { result ≡ is_across sheet.now.transactions.items edge.now }
{
    !same_number(
        transaction_at(sheet, &edge.from),
        transaction_at(sheet, &edge.to),
    )
}

fn first_across(sheet: &Sheet) -> Option<usize>
    ensures { result ≡ position (is_across sheet.now.transactions.items) sheet.now.edges.items }
{
    sheet.edges.iter().position(|edge| is_across(sheet, edge))
}

/// The first edge between two transactions.
pub fn edge_between_transactions(sheet: &Sheet) -> Result<Option<Place>, Memory>
    ensures { IfOk result (IsFirstPlace (IsEdgeBetweenTransactions (plain_sheet sheet.now))) }
{
    first_place(Found {
        top: None,
        cluster: None,
        task: None,
        transaction: None,
        edge: first_across(sheet),
        sensor: None,
        actuator: None,
    })
}
