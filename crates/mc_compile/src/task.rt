//! The code of a whole task.
ghost use Rattle.std.specs.Prelude.{◌≡◌, ◌<◌, ◌≤◌, ◌^◌, ℕ, ◌∷◌, All, Err, IfOk, OnOk};
ghost use Rattle.mc_compile.specs.Correct.{IsRight};
ghost use Rattle.mc_compile.specs.Emit.{IsLowB, IsLowF, params_of, body_of, length_of, firsts_of, slots_of};
ghost use Rattle.mc_compile.specs.Whole.{shapes_of, translate, code_len};
ghost use Rattle.mc_compile.specs.Widths.{HasWidths};
ghost use Rattle.mc_tree.specs.Checked.{words_in};
ghost use Rattle.mc_tree.specs.CheckedTask.{IsCheckedTask};
ghost use Rattle.mc_tree.specs.Plain.{plain_func, plain_task};

use crate::CompileFault;
use crate::expression::put;
use crate::measure::{block_len, func_len};
use crate::statement::{emit_block, emit_func};
use mars_base::{Memory, Role};
use mc_tree::{Cell, Task};
use sqlite_items::Items;
use std::alloc::Global;
use word_code::{CellShape, Code, Instr, Slot, Verified};

// Where the routines begin, and how long the code is.
#[derive(Drop)]
struct Layout {
    // The first instruction of the body, and of each function.
    starts: Vec<u16>,
    // How many instructions there are.
    length: u64,
}

// The layout of a task's code, before any instruction is made. A start above 65,535 is kept as 65,535.
fn lay_out(alloc: Global, task: &Task) -> Result<Layout, Memory>
    requires { length_of task.now < 2 ^ 64 }
    ensures length { IfOk result (λ layout. layout.length ≡ length_of task.now) }
    ensures starts { IfOk result (λ layout. length_of task.now ≤ 65535 → layout.starts.items ≡ 0 ∷ firsts_of task.now) }
{
    let functions = task.funcs.as_slice();
    let mut starts = Vec::new(alloc);
    starts.push(0u16)?;
    let mut next = block_len(task, task.body.as_slice()).saturating_add(1);
    for function in functions {
        starts.push(next.min(65_535) as u16)?;
        next = next.saturating_add(func_len(task, function));
    }
    Ok(Layout {
        starts,
        length: next,
    })
}

// All instructions, in one vector of their number.
fn instructions(
    alloc: Global,
    task: &Task,
    firsts: &[u16],
    size: usize,
) -> Result<Vec<Slot>, Memory>
    requires body { IsLowB (params_of task.now) (body_of task.now) }
    requires functions { All (λ f. IsLowF (params_of task.now) (plain_func task.now.cells f)) task.now.funcs }
    requires size { size ≡ length_of task.now }
    requires most { size ≤ 65535 }
    ensures { IfOk result (λ code. code.items ≡ slots_of task.now firsts.now) }
{
    let mut code = Vec::with_capacity(alloc, size)?;
    emit_block(&mut code, task, firsts, task.body.as_slice());
    put(&mut code, Instr::Halt, 0);
    for function in task.funcs.as_slice() {
        emit_func(&mut code, task, firsts, function);
    }
    Ok(code)
}

// The cells that have their words from the outside or give them to it.
fn shapes(alloc: Global, cells: &[Cell]) -> Result<Items<CellShape>, Memory>
    ensures { IfOk result (λ shapes. shapes ≡ shapes_of cells.now) }
{
    let mut shapes = Items::new(alloc);
    for cell in cells {
        if cell.role != Role::Local {
            shapes.push(CellShape {
                role: cell.role,
                width: cell.width,
            })?;
        }
    }
    Ok(shapes)
}

// How many words the cells have together.
fn words(cells: &[Cell]) -> u16
    requires { words_in cells.now ≤ 4096 }
    ensures { result ≡ words_in cells.now }
{
    let mut total = 0u16;
    for cell in cells {
        total += cell.width;
    }
    total
}

// The code, once its layout is known and short enough.
fn assemble(alloc: Global, task: &Task, layout: Layout) -> Result<Code, Memory>
    requires checked { IsCheckedTask task.now }
    requires length { layout.length ≡ length_of task.now }
    requires starts { layout.starts.items ≡ 0 ∷ firsts_of task.now }
    requires short { layout.length ≤ 65535 }
    ensures { IfOk result (λ code. code ≡ translate (plain_task task.now)) }
{
    let Layout { starts, length } = layout;
    let instrs = instructions(alloc, task, &starts[1..], length as usize)?;
    let cells = shapes(alloc, task.cells.as_slice())?;
    Ok(Code {
        starts: Items::from_vec(starts),
        instrs: Items::from_vec(instrs),
        places: words(task.cells.as_slice()),
        counters: task.counters,
        cells,
    })
}

/// The code of a checked task: its translation, which from each state and all in words halts with the state
/// and the outs that the task's instance gives, or breaks where the instance breaks. `CodeTooLong(n)` comes
/// exactly where the translation has more than 65,535 instructions, and n is their number; want of memory may
/// come in place of each answer.
pub fn compile(alloc: Global, task: &Task) -> Result<Verified, CompileFault>
    requires { IsCheckedTask task.now }
    ensures code { IfOk result (λ code. code ≡ translate (plain_task task.now)) }
    ensures short { OnOk result (code_len (plain_task task.now) ≤ 65535) }
    ensures too_long { (n : ℕ) → result ≡ Err (CompileFault.CodeTooLong n) → (n ≡ code_len (plain_task task.now)) × (65535 < n) }
    ensures right { IfOk result (λ code. IsRight (plain_task task.now) code) }
    ensures widths { IfOk result (λ code. HasWidths (plain_task task.now) code) }
{
    let layout = lay_out(alloc, task)?;
    if layout.length > 65_535 {
        return Err(CompileFault::CodeTooLong(layout.length));
    }
    let code = assemble(alloc, task, layout)?;
    Ok(Verified::from_code(code))
}
