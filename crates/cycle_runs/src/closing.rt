//! The end of a run.
ghost use Rattle.std.specs.Prelude.{◌≡◌, ◌≤◌, ◌⊎◌, [], Ok, Err, OnOk};
ghost use Rattle.lines.specs.Found.{HoldsFeed};
ghost use Rattle.lines.specs.Gathered.{Writes};
ghost use Rattle.lines.specs.Reader.{kept_of};
ghost use Rattle.mars_base.specs.Causes.{HasCause};
ghost use Rattle.cycle_runs.specs.Closing.{Closes};

use crate::cycles::Cycles;
use crate::fault::RunFault;
use lines::{LineBuf, LineReader};
use mars_base::{Sink, SinkFault};

/// Ends a run at the end of its lines.
pub fn finish<C: Cycles, O: Sink>(
    cycles: &C,
    buffer: &mut LineBuf,
    out: &mut O,
) -> Result<(), RunFault>
    ensures closes { Closes (O.holds out.old) buffer.old ((C.cycling cycles.now).closing (C.now cycles.now)) (O.holds out.new) (O.faults out.old) (O.faults out.new) result (Ok tt) }
    ensures later { O.faults out.old ≤ O.faults out.new }
{
    if let Err(_fault) = cycles.finish(buffer, out) {
        return Err(RunFault::Write);
    }
    if let Err(_fault) = buffer.flush(out) {
        return Err(RunFault::Write);
    }
    Ok(())
}

/// Ends a run before the end of its lines, with this fault.
pub fn stop<O: Sink>(buffer: &mut LineBuf, out: &mut O, fault: RunFault) -> Result<(), RunFault>
    ensures closes { Closes (O.holds out.old) buffer.old [] (O.holds out.new) (O.faults out.old) (O.faults out.new) result (Err fault) }
    ensures later { O.faults out.old ≤ O.faults out.new }
{
    if let Err(_fault) = buffer.flush(out) {
        return Err(RunFault::Write);
    }
    Err(fault)
}

/// Sends what waits before more input is asked for.
pub fn send_before_reading<O: Sink>(
    reader: &LineReader,
    buffer: &mut LineBuf,
    out: &mut O,
) -> Result<(), SinkFault>
    ensures bytes { Writes (O.holds out.old) buffer.old [] (O.holds out.new) buffer.new result }
    ensures sent { OnOk result (HoldsFeed (kept_of reader.now) ⊎ (buffer.new ≡ [])) }
    ensures cause { HasCause (O.faults out.old) (O.faults out.new) result }
{
    if reader.holds_line() {
        return Ok(());
    }
    buffer.flush(out)
}
