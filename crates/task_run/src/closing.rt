//! The end of a run.
ghost use Rattle.std.specs.Prelude.{◌≡◌, ◌≤◌, ◌⊎◌, [], Ok, Err, OnOk};
ghost use Rattle.lines.specs.Found.{HoldsFeed};
ghost use Rattle.lines.specs.Gathered.{Writes};
ghost use Rattle.lines.specs.Reader.{kept_of};
ghost use Rattle.mars_base.specs.Causes.{HasCause};
ghost use Rattle.task_run.specs.Closing.{Closes};
ghost use Rattle.task_run.specs.Text.{broken_line, task_line};

use crate::fault::RunFault;
use crate::text::{write_broken, write_task};
use lines::{LineBuf, LineReader};
use mars_base::{Sink, SinkFault};

/// Ends a run at the end of its lines.
pub fn finish<O: Sink>(
    buffer: &mut LineBuf,
    out: &mut O,
    name: &[u8],
    maxt: u32,
    seen: u32,
) -> Result<(), RunFault>
    ensures closes { Closes (O.holds out.old) buffer.old (task_line name.now maxt seen) (O.holds out.new) (O.faults out.old) (O.faults out.new) result (Ok tt) }
    ensures later { O.faults out.old ≤ O.faults out.new }
{
    if let Err(_fault) = write_task(buffer, out, name, maxt, seen) {
        return Err(RunFault::Write);
    }
    if let Err(_fault) = buffer.flush(out) {
        return Err(RunFault::Write);
    }
    Ok(())
}

/// Ends a run at a broken instance, by its line's number from 0.
pub fn stop_broken<O: Sink>(
    buffer: &mut LineBuf,
    out: &mut O,
    line: u64,
    name: &[u8],
) -> Result<(), RunFault>
    ensures closes { Closes (O.holds out.old) buffer.old (broken_line line name.now) (O.holds out.new) (O.faults out.old) (O.faults out.new) result (Err RunFault.Broken) }
    ensures later { O.faults out.old ≤ O.faults out.new }
{
    if let Err(_fault) = write_broken(buffer, out, line, name) {
        return Err(RunFault::Write);
    }
    if let Err(_fault) = buffer.flush(out) {
        return Err(RunFault::Write);
    }
    Err(RunFault::Broken)
}

/// Ends a run at a bad line, by its number from 1.
pub fn stop_bad<O: Sink>(buffer: &mut LineBuf, out: &mut O, number: u64) -> Result<(), RunFault>
    ensures closes { Closes (O.holds out.old) buffer.old [] (O.holds out.new) (O.faults out.old) (O.faults out.new) result (Err (RunFault.BadLine number)) }
    ensures later { O.faults out.old ≤ O.faults out.new }
{
    if let Err(_fault) = buffer.flush(out) {
        return Err(RunFault::Write);
    }
    Err(RunFault::BadLine(number))
}

/// Sends what waits before more input is asked for.
pub fn send_before_reading<O: Sink>(
    reader: &LineReader,
    buffer: &mut LineBuf,
    out: &mut O,
) -> Result<(), SinkFault>
    ensures bytes { Writes (O.holds out.old) buffer.old [] (O.holds out.new) buffer.new result }
    ensures sent { OnOk result (HoldsFeed (kept_of reader.now) ⊎ (buffer.new ≡ [])) }
    ensures cause { HasCause (O.faults out.old) (O.faults out.new) result }
{
    if reader.holds_line() {
        return Ok(());
    }
    buffer.flush(out)
}
