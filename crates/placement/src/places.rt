//! Decisions by their places.
ghost use Rattle.std.specs.Prelude.{◌≡◌, ◌==◌, ◌<◌, is_some, slice_get};
ghost use Rattle.std.specs.Option.{option_copied};
ghost use Rattle.std.specs.Int.{bit_at};
ghost use Rattle.placement.specs.Feeding.{flat, place_in, spot_of, is_unit as agrees};

use crate::pending::Spot;
use decisions::Placed;

/// Whether a table has a place for a number.
pub(crate) fn has_place(table: &[Option<u16>], number: usize) -> bool
    ensures { result ≡ is_some (flat (slice_get table.now number)) }
{
    match table.get(number) {
        Some(place) => place.is_some(),
        None => false,
    }
}

/// The decision at the place that a table has for a number.
pub(crate) fn find<'a>(
    placed: &'a [Placed],
    table: &[Option<u16>],
    number: usize,
) -> Option<&'a Placed>
    ensures { option_copied result ≡ place_in placed.now table.now number }
{
    match table.get(number) {
        Some(Some(place)) => placed.get(usize::from(*place)),
        Some(None) | None => None,
    }
}

/// Where that decision puts its job.
pub(crate) fn spot(placed: &[Placed], table: &[Option<u16>], number: usize) -> Option<Spot>
    ensures { result ≡ spot_of (place_in placed.now table.now number) }
{
    match find(placed, table, number) {
        Some(placed) => Some(Spot {
            unit: placed.unit(),
            end: placed.end(),
        }),
        None => None,
    }
}

/// Whether a mask has the unit.
pub(crate) fn has_unit(mask: u8, unit: u8) -> bool
    requires { unit < 8 }
    ensures { result ≡ (bit_at mask unit == 1) }
{
    mask >> unit & 1 == 1
}

/// Whether a unit is the one that is given, where one is.
pub(crate) fn is_unit(home: Option<u8>, unit: u8) -> bool
    ensures { result ≡ agrees unit home }
{
    match home {
        Some(home) => home == unit,
        None => true,
    }
}
