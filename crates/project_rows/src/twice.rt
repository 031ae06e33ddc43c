//! Names and units that stand twice.
ghost use Rattle.std.specs.Prelude.{◌≡◌, IfOk, pos, count_by, position};
ghost use Rattle.std.specs.Ordering.{int_eq};
ghost use Rattle.std.specs.List.{list_any};
ghost use Rattle.project_sheet.specs.First.{IsFirstPlace};
ghost use Rattle.project_sheet.specs.Sheet.{plain_sheet};
ghost use Rattle.project_rows.specs.Rules.{all_units, is_twice, has_unit_twice, unit_twice, IsTwiceNamed};

use distinct_names::first_repeat;
use mars_base::Memory;
use project_sheet::first::{Found, first_place, least};
use project_sheet::place::Place;
use project_sheet::sheet::{Numbers, Sheet, TaskRow};
use std::alloc::Global;

fn count_unit(units: &[i64], unit: u8) -> usize
    ensures { result ≡ count_by (λ z. int_eq z (pos unit)) units.now }
{
    let unit = i64::from(unit);
    units.iter().filter(|number| **number == unit).count()
}

fn is_twice(units: &[i64], unit: u8) -> bool
    ensures { result ≡ is_twice units.now unit }
{
    2 <= count_unit(units, unit)
}

fn has_twice(units: &[i64]) -> bool
    ensures { result ≡ list_any (is_twice units.now) all_units }
{
    [0, 1, 2, 3, 4, 5, 6, 7]
        .iter()
        .any(|unit| is_twice(units, *unit))
}

fn has_unit_twice(units: &Option<Numbers>) -> bool
    ensures { result ≡ has_unit_twice units.now }
{
    match units {
        Some(units) => has_twice(units.as_slice()),
        None => false,
    }
}

fn unit_twice(task: &TaskRow) -> bool
    ensures { result ≡ unit_twice task.now }
{
    has_unit_twice(&task.units)
}

fn first_unit_twice(sheet: &Sheet) -> Option<usize>
    ensures { result ≡ position unit_twice sheet.now.tasks.items }
{
    sheet.tasks.iter().position(|task| unit_twice(task))
}

/// The first place with a name or a unit that stands before it too.
pub fn twice_named(alloc: Global, sheet: &Sheet) -> Result<Option<Place>, Memory>
    ensures { IfOk result (IsFirstPlace (IsTwiceNamed (plain_sheet sheet.now))) }
{
    let task = first_repeat(alloc, &sheet.tasks)?;
    let transaction = first_repeat(alloc, &sheet.transactions)?;
    let sensor = first_repeat(alloc, &sheet.sensors)?;
    let actuator = first_repeat(alloc, &sheet.actuators)?;
    first_place(Found {
        top: None,
        cluster: None,
        task: least(task, first_unit_twice(sheet)),
        transaction,
        edge: None,
        sensor,
        actuator,
    })
}
