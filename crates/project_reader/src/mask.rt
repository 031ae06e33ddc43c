//! The units of a task as a mask.
ghost use Rattle.std.specs.Prelude.{◌≡◌, ◌<◌, ◌≤◌, ◌^◌, if◌then◌else◌, pos};
ghost use Rattle.std.specs.Ordering.{int_eq};
ghost use Rattle.std.specs.List.{list_any};
ghost use Rattle.project_reader.specs.Mask.{has_unit, mask_below};

use project_sheet::sheet::Numbers;

fn any_is(units: &[i64], unit: u8) -> bool
    ensures { result ≡ list_any (λ z. int_eq z (pos unit)) units.now }
{
    let unit = i64::from(unit);
    units.iter().any(|number| *number == unit)
}

fn has_unit(cluster: u8, units: &Option<Numbers>, unit: u8) -> bool
    ensures { result ≡ has_unit cluster units.now unit }
{
    match units {
        Some(units) => any_is(units.as_slice(), unit),
        None => unit < cluster,
    }
}

/// Two to the unit's power.
fn power_of(unit: u8) -> u16
    requires { unit < 8 }
    ensures value { result ≡ 2 ^ unit }
    ensures small { result ≤ 128 }
{
    match unit {
        0 => 1,
        1 => 2,
        2 => 4,
        3 => 8,
        4 => 16,
        5 => 32,
        6 => 64,
        _ => 128,
    }
}

/// The power, where the unit is there.
fn part_of(there: bool, power: u16) -> u16
    ensures { result ≡ (if there then power else 0) }
{
    if there { power } else { 0 }
}

/// The mask of a task's units.
pub fn mask_of(cluster: u8, units: &Option<Numbers>) -> u8
    ensures { result ≡ mask_below cluster units.now 8 }
{
    let mut mask = 0u16;
    for unit in 0..8u8 {
        mask += part_of(has_unit(cluster, units, unit), power_of(unit));
    }
    mask as u8
}
