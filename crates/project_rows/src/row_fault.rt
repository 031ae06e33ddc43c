//! The first fault of the rows by themselves.
ghost use Rattle.std.specs.Prelude.{IfOk};
ghost use Rattle.project_sheet.specs.Sheet.{plain_sheet};
ghost use Rattle.project_sheet.specs.Kind.{IsFirstIn};
ghost use Rattle.project_rows.specs.RowFails.{RowFails};

use crate::count::too_many;
use crate::name::bad_name;
use crate::range::out_of_range;
use crate::twice::twice_named;
use mars_base::Memory;
use project_sheet::{Fault, Kind, Sheet};
use std::alloc::Global;

/// The first fault of the entries by themselves.
pub fn row_fault(alloc: Global, sheet: &Sheet) -> Result<Option<Fault>, Memory>
    ensures { IfOk result (IsFirstIn (RowFails (plain_sheet sheet.now)) 5 9) }
{
    match out_of_range(sheet)? {
        Some(place) => {
            return Ok(Some(Fault {
                kind: Kind::OutOfRange,
                place,
            }));
        }
        None => {}
    }
    match bad_name(sheet)? {
        Some(place) => {
            return Ok(Some(Fault {
                kind: Kind::BadName,
                place,
            }));
        }
        None => {}
    }
    match twice_named(alloc, sheet)? {
        Some(place) => {
            return Ok(Some(Fault {
                kind: Kind::TwiceNamed,
                place,
            }));
        }
        None => {}
    }
    match too_many(sheet)? {
        Some(place) => {
            return Ok(Some(Fault {
                kind: Kind::TooMany,
                place,
            }));
        }
        None => {}
    }
    Ok(None)
}
