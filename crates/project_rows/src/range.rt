//! Numbers and lengths against their limits.
ghost use Rattle.std.specs.Prelude.{◌≡◌, ◌∷◌, [], IfOk, position};
ghost use Rattle.project_sheet.specs.First.{IsFirstPlace};
ghost use Rattle.project_sheet.specs.Sheet.{plain_sheet};
ghost use Rattle.project_rows.specs.Rules.{is_within, maybe_out, cluster_out, units_out, task_out, transaction_out, IsOutOfRange};
ghost use Rattle.std.specs.List.{list_any};
ghost use Rattle.std.specs.Prelude.{not};

use mars_base::Memory;
use project_sheet::first::{Found, first_place};
use project_sheet::place::Place;
use project_sheet::sheet::{ClusterRow, Numbers, Sheet, TaskRow, TransactionRow};

fn is_within(low: u32, high: u32, number: i64) -> bool
    ensures { result ≡ is_within low high number }
{
    i64::from(low) <= number && number <= i64::from(high)
}

fn maybe_out(low: u32, high: u32, number: Option<i64>) -> bool
    ensures { result ≡ maybe_out low high number }
{
    match number {
        Some(number) => !is_within(low, high, number),
        None => false,
    }
}

fn cluster_out(cluster: &ClusterRow) -> bool
    ensures { result ≡ cluster_out cluster.now }
{
    !is_within(1, 8, cluster.units)
        || !is_within(2, 64, cluster.slot_words)
        || !is_within(1, 8, cluster.precision)
        || !is_within(1, 10_000, cluster.cycles_per_tick)
        || maybe_out(1, 65_536, cluster.round)
}

fn any_out(units: &[i64]) -> bool
    ensures { result ≡ list_any (λ z. not (is_within 0 7 z)) units.now }
{
    units.iter().any(|unit| !is_within(0, 7, *unit))
}

fn units_out(units: &Option<Numbers>) -> bool
    ensures { result ≡ units_out units.now }
{
    match units {
        Some(units) => units.as_slice().is_empty() || any_out(units.as_slice()),
        None => false,
    }
}

fn task_out(task: &TaskRow) -> bool
    ensures { result ≡ task_out task.now }
{
    !(1 <= task.file.len() && task.file.len() <= 255) || units_out(&task.units)
}

fn transaction_out(transaction: &TransactionRow) -> bool
    ensures { result ≡ transaction_out transaction.now }
{
    !is_within(1, 65_536, transaction.period) || !is_within(1, 65_536, transaction.deadline)
}

fn first_cluster_out(cluster: &ClusterRow) -> Option<usize>
    ensures { result ≡ position cluster_out (cluster.now ∷ []) }
{
    if cluster_out(cluster) { Some(0) } else { None }
}

fn first_task_out(sheet: &Sheet) -> Option<usize>
    ensures { result ≡ position task_out sheet.now.tasks.items }
{
    sheet.tasks.iter().position(|task| task_out(task))
}

fn first_transaction_out(sheet: &Sheet) -> Option<usize>
    ensures { result ≡ position transaction_out sheet.now.transactions.items }
{
    sheet
        .transactions
        .iter()
        .position(|transaction| transaction_out(transaction))
}

/// The first place with a number or a length out of its limits.
pub fn out_of_range(sheet: &Sheet) -> Result<Option<Place>, Memory>
    ensures { IfOk result (IsFirstPlace (IsOutOfRange (plain_sheet sheet.now))) }
{
    first_place(Found {
        top: None,
        cluster: first_cluster_out(&sheet.cluster),
        task: first_task_out(sheet),
        transaction: first_transaction_out(sheet),
        edge: None,
        sensor: None,
        actuator: None,
    })
}
