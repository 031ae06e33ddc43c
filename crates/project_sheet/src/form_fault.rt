//! The first fault of a document's form.
ghost use Rattle.std.specs.Prelude.{IfOk};
ghost use Rattle.toml.specs.View.{table_view};
ghost use Rattle.project_sheet.specs.Kind.{IsFirstIn};
ghost use Rattle.project_sheet.specs.FormFails.{FormFails};

use crate::document::first_break;
use crate::form::Rule;
use crate::kind::{Fault, Kind};
use mars_base::Memory;
use toml::Table;

/// The first fault of form.
pub fn form_fault(doc: &Table) -> Result<Option<Fault>, Memory>
    ensures { IfOk result (IsFirstIn (FormFails (table_view doc.now)) 2 5) }
{
    match first_break(Rule::UnknownKey, doc)? {
        Some(place) => {
            return Ok(Some(Fault {
                kind: Kind::UnknownKey,
                place,
            }));
        }
        None => {}
    }
    match first_break(Rule::MissingKey, doc)? {
        Some(place) => {
            return Ok(Some(Fault {
                kind: Kind::MissingKey,
                place,
            }));
        }
        None => {}
    }
    match first_break(Rule::WrongType, doc)? {
        Some(place) => {
            return Ok(Some(Fault {
                kind: Kind::WrongType,
                place,
            }));
        }
        None => {}
    }
    Ok(None)
}
