//! A task's run over the lines of an input.
ghost use Rattle.std.specs.Prelude.{◌≡◌, ◌<◌, ◌≤◌, ◌^◌, [], length, Ok, Err, false};
ghost use Rattle.mars_base.specs.Causes.{Rose};
ghost use Rattle.mc_tree.specs.Instance.{is_in, is_out, is_state, width_of};
ghost use Rattle.mc_tree.specs.Plain.{plain_task};
ghost use Rattle.std.specs.Io.KnownBytes.{IsAtEnd};
ghost use Rattle.std.specs.Option.{option_map};
ghost use Rattle.mc_compile.specs.Follows.{RunsAs};
ghost use Rattle.task_run.specs.Progress.{HasAnswered, RunAnswers};
ghost use Rattle.lines.specs.Lines.{lines_of};
ghost use Rattle.lines.specs.Reader.{kept_of, count_of, is_over};
ghost use Rattle.task_run.specs.Text.{first_state};

use crate::closing::{finish, send_before_reading, stop_bad, stop_broken};
use crate::execute::execute;
use crate::fault::RunFault;
use crate::text::write_outs;
use crate::width::{in_words, out_words, state_words, zeros};
use lines::{LineBuf, LineFault, LineReader, Next};
use mars_base::{Sink, Source};
use mc_tree::Task;
use processor::Cpu;
use std::alloc::Global;

/// Runs a task over the lines of an input, one at a time, and writes its text. `maxt` is the bound that
/// each execution keeps and that the last line prints. Each answer goes out before more input is asked
/// for, so where a read fails, all lines that were taken whole have their answers. Memory is taken before
/// the first line alone: where there is none, nothing was read or put.
pub fn run_lines<C: Cpu, I: Source, O: Sink>(
    alloc: Global,
    cpu: &mut C,
    task: &Task,
    program: &C::Program,
    maxt: u32,
    input: &mut I,
    out: &mut O,
) -> Result<(), RunFault>
    requires cells { length (plain_task task.now).cells < 2 ^ 40 }
    requires few { width_of is_out (plain_task task.now).cells ≤ 256 }
    requires small { maxt < 2 ^ 31 }
    requires follows { RunsAs (plain_task task.now) maxt (C.execution program.now maxt) }
    requires in_words { C.ins_of program.now ≡ width_of is_in (plain_task task.now).cells }
    requires out_words { C.outs_of program.now ≡ width_of is_out (plain_task task.now).cells }
    requires state_words { C.states_of program.now ≡ width_of is_state (plain_task task.now).cells }
    ensures answer { RunAnswers (plain_task task.now) maxt (C.execution program.now maxt)
        (option_map (lines_of (width_of is_in (plain_task task.now).cells)) (I.left input.old)) (O.holds out.old) (O.holds out.new) result }
    ensures at_end { result ≡ Ok tt → IsAtEnd (I.left input.new) }
    ensures answered { result ≡ Err RunFault.Read → HasAnswered (plain_task task.now) (width_of is_in (plain_task task.now).cells) (I.left input.old) (I.left input.new) (O.holds out.old) (O.holds out.new) }
    ensures read { result ≡ Err RunFault.Read → Rose (I.faults input.old) (I.faults input.new) }
    ensures write { result ≡ Err RunFault.Write → Rose (O.faults out.old) (O.faults out.new) }
    ensures memory { result ≡ Err RunFault.Memory → (input.new ≡ input.old) × (out.new ≡ out.old) }
    ensures later_in { I.faults input.old ≤ I.faults input.new }
    ensures later_out { O.faults out.old ≤ O.faults out.new }
{
    let cells = task.cells.as_slice();
    let Ok(mut ins) = zeros(alloc, in_words(cells)) else {
        return Err(RunFault::Memory);
    };
    let Ok(mut outs) = zeros(alloc, out_words(cells)) else {
        return Err(RunFault::Memory);
    };
    let Ok(mut state) = zeros(alloc, state_words(cells)) else {
        return Err(RunFault::Memory);
    };
    let Ok(mut reader) = LineReader::new(alloc) else {
        return Err(RunFault::Memory);
    };
    let Ok(mut buffer) = LineBuf::new(alloc) else {
        return Err(RunFault::Memory);
    };
    run_each(
        cpu,
        task,
        program,
        maxt,
        input,
        out,
        &mut ins,
        &mut outs,
        &mut state,
        &mut reader,
        &mut buffer,
    )
}

// The same, in the memory that was taken.
#[allow(clippy::too_many_arguments)]
fn run_each<C: Cpu, I: Source, O: Sink>(
    cpu: &mut C,
    task: &Task,
    program: &C::Program,
    maxt: u32,
    input: &mut I,
    out: &mut O,
    ins: &mut [i32],
    outs: &mut [i32],
    state: &mut [i32],
    reader: &mut LineReader,
    buffer: &mut LineBuf,
) -> Result<(), RunFault>
    requires few { width_of is_out (plain_task task.now).cells ≤ 256 }
    requires small { maxt < 2 ^ 31 }
    requires follows { RunsAs (plain_task task.now) maxt (C.execution program.now maxt) }
    requires in_words { C.ins_of program.now ≡ width_of is_in (plain_task task.now).cells }
    requires out_words { C.outs_of program.now ≡ width_of is_out (plain_task task.now).cells }
    requires state_words { C.states_of program.now ≡ width_of is_state (plain_task task.now).cells }
    requires ins { length ins.old ≡ width_of is_in (plain_task task.now).cells }
    requires outs { length outs.old ≡ width_of is_out (plain_task task.now).cells }
    requires state { state.old ≡ first_state (plain_task task.now) }
    requires kept { kept_of reader.old ≡ [] }
    requires count { count_of reader.old ≡ 0 }
    requires over { is_over reader.old ≡ false }
    requires waiting { buffer.old ≡ [] }
    ensures answer { RunAnswers (plain_task task.now) maxt (C.execution program.now maxt)
        (option_map (lines_of (width_of is_in (plain_task task.now).cells)) (I.left input.old)) (O.holds out.old) (O.holds out.new) result }
    ensures at_end { result ≡ Ok tt → IsAtEnd (I.left input.new) }
    ensures answered { result ≡ Err RunFault.Read → HasAnswered (plain_task task.now) (width_of is_in (plain_task task.now).cells) (I.left input.old) (I.left input.new) (O.holds out.old) (O.holds out.new) }
    ensures read { result ≡ Err RunFault.Read → Rose (I.faults input.old) (I.faults input.new) }
    ensures write { result ≡ Err RunFault.Write → Rose (O.faults out.old) (O.faults out.new) }
    ensures memory { result ≡ Err RunFault.Memory → ⊥ }
    ensures later_in { I.faults input.old ≤ I.faults input.new }
    ensures later_out { O.faults out.old ≤ O.faults out.new }
{
    let name = task.name.as_slice();
    let mut line = 0u64;
    let mut seen = 0u32;
    'lines: loop {
        if let Err(_fault) = send_before_reading(reader, buffer, out) {
            return Err(RunFault::Write);
        }
        match reader.next(input, buffer, ins) {
            Ok(Next::Line) => {}
            Ok(Next::End) => return finish(buffer, out, name, maxt, seen),
            Err(LineFault::Bad(number)) => return stop_bad(buffer, out, number),
            Err(LineFault::Read) => return Err(RunFault::Read),
        }
        let Some(cycles) = execute(cpu, task, program, maxt, state, ins, outs) else {
            return stop_broken(buffer, out, line, name);
        };
        seen = seen.max(cycles);
        line += 1;
        if let Err(_fault) = write_outs(buffer, out, outs) {
            return Err(RunFault::Write);
        }
    }
}
