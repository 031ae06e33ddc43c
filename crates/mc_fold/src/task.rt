//! Folded tasks.
ghost use Rattle.std.specs.Prelude.{◌≡◌, map, IfOk, List, ℤ};
ghost use Rattle.mc_tree.specs.CheckedTask.{IsCheckedTask};
ghost use Rattle.mc_tree.specs.Instance.{instance_of};
ghost use Rattle.mc_tree.specs.Plain.{plain_task};
ghost use Rattle.mc_fold.specs.Folded.{folded_func, folded_task};

use crate::expression::folded_expr;
use crate::statement::folded_block;
use mars_base::{Memory, Text};
use mc_tree::{Cell, Func, Task};
use sqlite_items::Items;
use std::alloc::Global;

// A copy of a cell.
fn copied_cell(alloc: Global, cell: &Cell) -> Result<Cell, Memory>
    ensures { IfOk result (λ copy. copy ≡ cell.now) }
{
    let name = Text::from_slice(alloc, cell.name.as_slice())?;
    Ok(Cell {
        role: cell.role,
        name,
        place: cell.place,
        width: cell.width,
    })
}

// A copy of cells.
fn copied_cells(alloc: Global, cells: &[Cell]) -> Result<Items<Cell>, Memory>
    ensures { IfOk result (λ copy. copy ≡ cells.now) }
{
    let mut copy = Items::new(alloc);
    for cell in cells {
        let cell = copied_cell(alloc, cell)?;
        copy.push(cell)?;
    }
    Ok(copy)
}

// A function with its constants folded.
fn folded_func(alloc: Global, func: &Func) -> Result<Func, Memory>
    ensures { IfOk result (λ folded. folded ≡ folded_func func.now) }
{
    let params = Items::from_slice(alloc, func.params.as_slice())?;
    let body = folded_block(alloc, func.body.as_slice())?;
    let answer = folded_expr(alloc, &func.answer)?;
    Ok(Func {
        params,
        body,
        answer,
    })
}

// Functions, each with its constants folded.
fn folded_funcs(alloc: Global, funcs: &[Func]) -> Result<Items<Func>, Memory>
    ensures { IfOk result (λ folded. folded ≡ map folded_func funcs.now) }
{
    let mut folded = Items::new(alloc);
    for func in funcs {
        let func = folded_func(alloc, func)?;
        folded.push(func)?;
    }
    Ok(folded)
}

// A task with its constants folded.
fn folded_task(alloc: Global, task: &Task) -> Result<Task, Memory>
    ensures { IfOk result (λ folded. folded ≡ folded_task task.now) }
{
    let name = Text::from_slice(alloc, task.name.as_slice())?;
    let cells = copied_cells(alloc, task.cells.as_slice())?;
    let funcs = folded_funcs(alloc, task.funcs.as_slice())?;
    let body = folded_block(alloc, task.body.as_slice())?;
    Ok(Task {
        name,
        cells,
        funcs,
        body,
        counters: task.counters,
    })
}

/// Answers a checked task with its constants folded: each operator whose operands, folded themselves, are numbers and
/// which has a word for them is that word, and nothing else changes. `1 / 0` stays, and still breaks.
///
/// The answer is a checked task, and from every state and all inputs it does what the task does. The only error is
/// want of memory.
pub fn fold(alloc: Global, task: &Task) -> Result<Task, Memory>
    requires { IsCheckedTask task.now }
    ensures folded { IfOk result (λ folded. folded ≡ folded_task task.now) }
    ensures checked { IfOk result (λ folded. IsCheckedTask folded) }
    ensures same { IfOk result (λ folded. (state ins : List ℤ) → instance_of (plain_task folded) state ins ≡ instance_of (plain_task task.now) state ins) }
{
    folded_task(alloc, task)
}
