//! How many entries a section has.
ghost use Rattle.std.specs.Prelude.{◌≡◌, IfOk, length, position};
ghost use Rattle.project_sheet.specs.First.{IsFirstPlace, IsLeast};
ghost use Rattle.project_sheet.specs.Sheet.{plain_sheet};
ghost use Rattle.project_rows.specs.Rules.{Crowded, has_no_task, IsTooMany};

use mars_base::Memory;
use project_sheet::first::{Found, first_place, least};
use project_sheet::place::Place;
use project_sheet::sheet::{Sheet, TransactionRow};

/// Entry 0, where there are too few entries or too many.
fn crowded<T>(fewest: usize, most: usize, entries: &[T]) -> Option<usize>
    ensures { IsLeast (Crowded fewest most (length entries.now)) result }
{
    if fewest <= entries.len() && entries.len() <= most {
        None
    } else {
        Some(0)
    }
}

fn has_no_task(transaction: &TransactionRow) -> bool
    ensures { result ≡ has_no_task transaction.now }
{
    transaction.tasks.as_slice().is_empty()
}

fn first_without_task(sheet: &Sheet) -> Option<usize>
    ensures { result ≡ position has_no_task sheet.now.transactions.items }
{
    sheet
        .transactions
        .iter()
        .position(|transaction| has_no_task(transaction))
}

/// The first place with too many entries, or with too few.
pub fn too_many(sheet: &Sheet) -> Result<Option<Place>, Memory>
    ensures { IfOk result (IsFirstPlace (IsTooMany (plain_sheet sheet.now))) }
{
    first_place(Found {
        top: None,
        cluster: None,
        task: crowded(1, 64, &sheet.tasks),
        transaction: least(
            crowded(1, 32, &sheet.transactions),
            first_without_task(sheet),
        ),
        edge: crowded(0, 1024, &sheet.edges),
        sensor: crowded(0, 1024, &sheet.sensors),
        actuator: crowded(0, 1024, &sheet.actuators),
    })
}
