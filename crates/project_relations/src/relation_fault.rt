//! The first fault of the rules that relate the rows.
ghost use Rattle.std.specs.Prelude.{◌≡◌, false, IfOk};
ghost use Rattle.project_sheet.specs.Sheet.{plain_sheet};
ghost use Rattle.project_sheet.specs.Kind.{IsFirstIn};
ghost use Rattle.project_rows.specs.Rules.{cluster_out};
ghost use Rattle.project_relations.specs.RelationFails.{RelationFails};

use crate::circle::edges_in_circle;
use crate::relate::{
    deadline_above_period, edge_between_transactions, round_too_short, task_in_two_transactions,
    task_not_in_transaction, unknown_task, unknown_unit,
};
use mars_base::Memory;
use project_sheet::{Fault, Kind, Sheet};
use std::alloc::Global;

/// The first fault of the rules that relate the entries.
pub fn relation_fault(alloc: Global, sheet: &Sheet) -> Result<Option<Fault>, Memory>
    requires { cluster_out sheet.now.cluster ≡ false }
    ensures { IfOk result (IsFirstIn (RelationFails (plain_sheet sheet.now)) 9 17) }
{
    match round_too_short(sheet)? {
        Some(place) => {
            return Ok(Some(Fault {
                kind: Kind::RoundTooShort,
                place,
            }));
        }
        None => {}
    }
    match deadline_above_period(sheet)? {
        Some(place) => {
            return Ok(Some(Fault {
                kind: Kind::DeadlineAbovePeriod,
                place,
            }));
        }
        None => {}
    }
    match unknown_unit(sheet)? {
        Some(place) => {
            return Ok(Some(Fault {
                kind: Kind::UnknownUnit,
                place,
            }));
        }
        None => {}
    }
    match unknown_task(sheet)? {
        Some(place) => {
            return Ok(Some(Fault {
                kind: Kind::UnknownTask,
                place,
            }));
        }
        None => {}
    }
    match task_not_in_transaction(sheet)? {
        Some(place) => {
            return Ok(Some(Fault {
                kind: Kind::TaskNotInTransaction,
                place,
            }));
        }
        None => {}
    }
    match task_in_two_transactions(sheet)? {
        Some(place) => {
            return Ok(Some(Fault {
                kind: Kind::TaskInTwoTransactions,
                place,
            }));
        }
        None => {}
    }
    match edge_between_transactions(sheet)? {
        Some(place) => {
            return Ok(Some(Fault {
                kind: Kind::EdgeBetweenTransactions,
                place,
            }));
        }
        None => {}
    }
    match edges_in_circle(alloc, sheet)? {
        Some(place) => {
            return Ok(Some(Fault {
                kind: Kind::EdgesInCircle,
                place,
            }));
        }
        None => {}
    }
    Ok(None)
}
