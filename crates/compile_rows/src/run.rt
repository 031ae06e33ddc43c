//! A text's task on the machine.
ghost use Rattle.std.specs.Prelude.{◌≡◌, ◌<◌, ◌≤◌, ◌^◌, length};
ghost use Rattle.processor.specs.Ends.{cycles_in};
ghost use Rattle.processor.specs.Results.{turn_of, outs_in, state_in};

use maxt_rows::task_of;
use mc_compile::{CompileFault, compile};
use processor::{Cpu, Turn};
use std::alloc::{AllocError, Global};
use task_run::width::{in_words, out_words, state_words, zeros};
use word_machine::Machine;

/// What an execution came to.
#[derive(Debug, Drop)]
pub struct Ran {
    /// How it stands.
    pub turn: Turn,
    /// The outputs, where it halted.
    pub outs: Vec<i32>,
    /// The state that it leaves, where it halted.
    pub state: Vec<i32>,
    /// Its cycles.
    pub cycles: u32,
}

/// Why there was no execution.
#[derive(Debug, Drop)]
pub enum RowFault {
    /// The text has a fault.
    NoTask,
    /// The task has no code.
    NoCode(CompileFault),
    /// The task takes another number of words.
    OtherWidths,
    /// There is no memory.
    Memory,
}

impl From<AllocError> for RowFault {
    fn from(_error: AllocError) -> RowFault {
        RowFault::Memory
    }
}

impl From<mars_base::Memory> for RowFault {
    fn from(_memory: mars_base::Memory) -> RowFault {
        RowFault::Memory
    }
}

// Runs a program once under a limit. Outputs and state come where it halts.
fn execute<C: Cpu>(
    cpu: &mut C,
    program: &C::Program,
    state: &mut [i32],
    ins: &[i32],
    limit: u32,
    outs: &mut [i32],
) -> (Turn, u32)
    requires state { length state.old ≡ C.states_of program.now }
    requires ins { length ins.now ≡ C.ins_of program.now }
    requires outs { length outs.old ≡ C.outs_of program.now }
    requires limit { limit < 2 ^ 31 }
    ensures turn { result.0 ≡ turn_of (C.execution program.now limit state.old ins.now) }
    ensures cycles { result.1 ≡ cycles_in (C.execution program.now limit state.old ins.now) }
    ensures outs { result.0 ≡ Turn.Halted
        → outs.new ≡ outs_in (C.execution program.now limit state.old ins.now) }
    ensures state { result.0 ≡ Turn.Halted
        → state.new ≡ state_in (C.execution program.now limit state.old ins.now) }
{
    cpu.load(program, state, ins);
    let turn = cpu.advance(program, limit);
    if turn == Turn::Halted {
        cpu.outs(program, outs);
        cpu.state(program, state);
    }
    (turn, cpu.cycles())
}

/// Compiles the task of a text and runs its code once on a machine, under a limit of a million cycles.
pub fn run_text(alloc: Global, text: &[u8], state: &[i32], ins: &[i32]) -> Result<Ran, RowFault>
    requires { length text.now ≤ 65536 }
{
    let Some(task) = task_of(alloc, text) else {
        return Err(RowFault::NoTask);
    };
    let program = match compile(alloc, &task) {
        Ok(program) => program,
        Err(fault) => return Err(RowFault::NoCode(fault)),
    };
    let cells = task.cells.as_slice();
    if cells.len() > 4096 || in_words(cells) != ins.len() || state_words(cells) != state.len() {
        return Err(RowFault::OtherWidths);
    }
    let mut machine = Machine::new(alloc)?;
    let mut outs = zeros(alloc, out_words(cells))?;
    let mut left = Vec::from_slice(alloc, state)?;
    let (turn, cycles) = execute(&mut machine, &program, &mut left, ins, 1_000_000, &mut outs);
    Ok(Ran {
        turn,
        outs,
        state: left,
        cycles,
    })
}
