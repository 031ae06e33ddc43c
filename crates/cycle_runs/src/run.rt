//! A run over the lines of an input, cycle by cycle.
ghost use Rattle.std.specs.Prelude.{◌≡◌, ◌≤◌, [], length, Ok, Err, IfOk, false};
ghost use Rattle.std.specs.Io.KnownBytes.{IsAtEnd};
ghost use Rattle.std.specs.Option.{option_map};
ghost use Rattle.mars_base.specs.Causes.{Rose};
ghost use Rattle.lines.specs.Lines.{lines_of};
ghost use Rattle.lines.specs.Reader.{kept_of, count_of, is_over};
ghost use Rattle.cycle_runs.specs.Progress.{HasAnswered, RunAnswers, RunLeaves};

use crate::closing::{finish, send_before_reading, stop};
use crate::cycles::Cycles;
use crate::ended::CycleEnd;
use crate::fault::RunFault;
use lines::{LineBuf, LineFault, LineReader, Next};
use mars_base::{Memory, Sink, Source};
use std::alloc::Global;

/// Runs a cycle for each line of an input, one at a time, and writes their text, up to the end of the lines, a bad line,
/// or a cycle that isn't clean. Each cycle's text goes out before more input is asked for, so where a read fails, all
/// lines that were taken whole have their text. Memory is taken before the first line alone: where there is none,
/// nothing was read or put, and no cycle ran.
pub fn run_cycles<C: Cycles, I: Source, O: Sink>(
    alloc: Global,
    cycles: &mut C,
    input: &mut I,
    out: &mut O,
) -> Result<(), RunFault>
    requires ready { C.is_ready cycles.old }
    requires number { C.number cycles.old ≡ 0 }
    ensures answer { RunAnswers (C.cycling cycles.old) (C.now cycles.old) (option_map (lines_of (C.width cycles.old)) (I.left input.old)) (O.holds out.old) (O.holds out.new) result }
    ensures state { RunLeaves (C.cycling cycles.old) (C.now cycles.old) (option_map (lines_of (C.width cycles.old)) (I.left input.old)) (C.now cycles.new) result }
    ensures at_end { result ≡ Ok tt → IsAtEnd (I.left input.new) }
    ensures answered { result ≡ Err RunFault.Read → HasAnswered (C.cycling cycles.old) (C.now cycles.old) (C.width cycles.old) (I.left input.old) (I.left input.new) (O.holds out.old) (O.holds out.new) }
    ensures read { result ≡ Err RunFault.Read → Rose (I.faults input.old) (I.faults input.new) }
    ensures write { result ≡ Err RunFault.Write → Rose (O.faults out.old) (O.faults out.new) }
    ensures memory { result ≡ Err RunFault.Memory → (input.new ≡ input.old) × (out.new ≡ out.old) × (cycles.new ≡ cycles.old) }
    ensures later_in { I.faults input.old ≤ I.faults input.new }
    ensures later_out { O.faults out.old ≤ O.faults out.new }
{
    let Ok(mut line) = line_of(alloc, cycles.width()) else {
        return Err(RunFault::Memory);
    };
    let Ok(mut reader) = LineReader::new(alloc) else {
        return Err(RunFault::Memory);
    };
    let Ok(mut buffer) = LineBuf::new(alloc) else {
        return Err(RunFault::Memory);
    };
    run_each(cycles, input, out, &mut line, &mut reader, &mut buffer)
}

// The places of a line's words.
fn line_of(alloc: Global, width: u32) -> Result<Vec<i32>, Memory>
    ensures { IfOk result (λ line. length line.items ≡ width) }
{
    Ok(vec![in alloc; 0i32; width as usize]?)
}

// The same, in the memory that was taken.
fn run_each<C: Cycles, I: Source, O: Sink>(
    cycles: &mut C,
    input: &mut I,
    out: &mut O,
    line: &mut [i32],
    reader: &mut LineReader,
    buffer: &mut LineBuf,
) -> Result<(), RunFault>
    requires ready { C.is_ready cycles.old }
    requires number { C.number cycles.old ≡ 0 }
    requires line { length line.old ≡ C.width cycles.old }
    requires kept { kept_of reader.old ≡ [] }
    requires count { count_of reader.old ≡ 0 }
    requires over { is_over reader.old ≡ false }
    requires waiting { buffer.old ≡ [] }
    ensures answer { RunAnswers (C.cycling cycles.old) (C.now cycles.old) (option_map (lines_of (C.width cycles.old)) (I.left input.old)) (O.holds out.old) (O.holds out.new) result }
    ensures state { RunLeaves (C.cycling cycles.old) (C.now cycles.old) (option_map (lines_of (C.width cycles.old)) (I.left input.old)) (C.now cycles.new) result }
    ensures at_end { result ≡ Ok tt → IsAtEnd (I.left input.new) }
    ensures answered { result ≡ Err RunFault.Read → HasAnswered (C.cycling cycles.old) (C.now cycles.old) (C.width cycles.old) (I.left input.old) (I.left input.new) (O.holds out.old) (O.holds out.new) }
    ensures read { result ≡ Err RunFault.Read → Rose (I.faults input.old) (I.faults input.new) }
    ensures write { result ≡ Err RunFault.Write → Rose (O.faults out.old) (O.faults out.new) }
    ensures memory { result ≡ Err RunFault.Memory → ⊥ }
    ensures later_in { I.faults input.old ≤ I.faults input.new }
    ensures later_out { O.faults out.old ≤ O.faults out.new }
{
    'lines: loop {
        if let Err(_fault) = send_before_reading(reader, buffer, out) {
            return Err(RunFault::Write);
        }
        match reader.next(input, buffer, line) {
            Ok(Next::Line) => {}
            Ok(Next::End) => return finish(cycles, buffer, out),
            Err(LineFault::Bad(number)) => return stop(buffer, out, RunFault::BadLine(number)),
            Err(LineFault::Read) => return Err(RunFault::Read),
        }
        match cycles.cycle(line, buffer, out) {
            Ok(CycleEnd::Clean) => {}
            Ok(CycleEnd::Broken) => return stop(buffer, out, RunFault::Broken),
            Ok(CycleEnd::Lost) => return stop(buffer, out, RunFault::Lost),
            Err(_fault) => return Err(RunFault::Write),
        }
    }
}
