//! The tasks of an image taken apart.
ghost use Rattle.std.specs.Prelude.{◌≡◌, IfOk, All, map};
ghost use Rattle.word_code.specs.Cells.{is_in, is_out};
ghost use Rattle.image_tasks.specs.declared.parts.TaskPart.{TaskPart};
ghost use Rattle.image_sides.specs.Sides.{widths_of, IsNarrow, net_task, code_of, maxt_of};

use graph::NetTask;
use image_tasks::TaskPart;
use mars_base::{Memory, Role};
use sqlite_items::Items;
use std::alloc::Global;
use word_code::{CellShape, Code};

/// The tasks of the net, the codes and the bounds.
#[derive(Debug, Drop)]
pub struct Sides {
    /// The tasks of the net.
    pub tasks: Items<NetTask>,
    /// Their codes.
    pub codes: Vec<Code>,
    /// Their greatest numbers of cycles.
    pub maxts: Items<u32>,
}

fn in_widths(alloc: Global, cells: &[CellShape]) -> Result<Items<u8>, Memory>
    requires { IsNarrow cells.now }
    ensures { IfOk result (λ widths. widths ≡ widths_of is_in cells.now) }
{
    let mut widths = Items::new(alloc);
    for cell in cells {
        if let Role::In = cell.role {
            widths.push(cell.width as u8)?;
        }
    }
    Ok(widths)
}

fn out_widths(alloc: Global, cells: &[CellShape]) -> Result<Items<u8>, Memory>
    requires { IsNarrow cells.now }
    ensures { IfOk result (λ widths. widths ≡ widths_of is_out cells.now) }
{
    let mut widths = Items::new(alloc);
    for cell in cells {
        if let Role::Out = cell.role {
            widths.push(cell.width as u8)?;
        }
    }
    Ok(widths)
}

/// Takes the tasks apart. A task's in cells are its in ports, its out cells its out ports, in order.
pub fn split(alloc: Global, parts: Vec<TaskPart>) -> Result<Sides, Memory>
    requires { All (λ (t : TaskPart). IsNarrow t.code.cells) parts.items }
    ensures tasks { IfOk result (λ sides. sides.tasks ≡ map net_task parts.items) }
    ensures codes { IfOk result (λ sides. sides.codes.items ≡ map code_of parts.items) }
    ensures maxts { IfOk result (λ sides. sides.maxts ≡ map maxt_of parts.items) }
{
    let mut tasks = Items::new(alloc);
    let mut codes = Vec::new(alloc);
    let mut maxts = Items::new(alloc);
    for part in parts {
        let TaskPart {
            name,
            transaction,
            units,
            maxt,
            code,
        } = part;
        let ins = in_widths(alloc, code.cells.as_slice())?;
        let outs = out_widths(alloc, code.cells.as_slice())?;
        tasks.push(NetTask {
            name,
            transaction,
            units,
            ins,
            outs,
        })?;
        codes.push(code)?;
        maxts.push(maxt)?;
    }
    Ok(Sides {
        tasks,
        codes,
        maxts,
    })
}
