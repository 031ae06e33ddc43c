//! Lost units, and their lines.
ghost use Rattle.std.specs.Prelude.{◌≡◌, ◌+◌, ◌*◌, ◌<◌, length};
ghost use Rattle.cycle_text.specs.Lines.{numbered};
ghost use Rattle.lines.specs.Gathered.{Writes};
ghost use Rattle.mars_base.specs.Causes.{HasCause};
ghost use Rattle.lost_units.specs.Lost.{is_lost_by, line_of_lost, some_lost_by};

use first_silence::{Moment, is_reached};
use lines::LineBuf;
use mars_base::{Sink, SinkFault};
use run_text::write_lost;

/// Whether a unit is lost in a cycle of so many ticks: both its replicas are silent at the last of them. `firsts` has
/// the first silence of each replica, by its number.
pub fn is_lost(firsts: &[Option<Moment>], unit: u8, cycle: u32, ticks: u32) -> bool
    requires ticks { 0 < ticks }
    requires unit { 2 * unit + 1 < length firsts.now }
    ensures { result ≡ is_lost_by firsts.now ticks cycle unit }
{
    let a = 2 * usize::from(unit);
    is_reached(firsts[a], cycle, ticks - 1) && is_reached(firsts[a + 1], cycle, ticks - 1)
}

/// Whether any of so many units is lost in a cycle of so many ticks.
pub fn some_lost(firsts: &[Option<Moment>], units: u8, cycle: u32, ticks: u32) -> bool
    requires ticks { 0 < ticks }
    requires units { length firsts.now ≡ 2 * units }
    ensures { result ≡ some_lost_by firsts.now ticks cycle units }
{
    for unit in 0..units {
        if is_lost(firsts, unit, cycle, ticks) {
            return true;
        }
    }
    false
}

/// Writes the line of each lost unit of a cycle, by number. An `Err` comes only where a put failed, and then a front
/// of the lines was put.
pub fn write_lost_units<O: Sink>(
    buffer: &mut LineBuf,
    out: &mut O,
    firsts: &[Option<Moment>],
    units: u8,
    cycle: u32,
    ticks: u32,
) -> Result<(), SinkFault>
    requires ticks { 0 < ticks }
    requires units { length firsts.now ≡ 2 * units }
    ensures bytes { Writes (O.holds out.old) buffer.old (numbered (line_of_lost firsts.now ticks cycle) units) (O.holds out.new) buffer.new result }
    ensures cause { HasCause (O.faults out.old) (O.faults out.new) result }
{
    for unit in 0..units {
        if let Err(fault) = write_if_lost(buffer, out, firsts, unit, cycle, ticks) {
            return Err(fault);
        }
    }
    Ok(())
}

// Writes the line of a unit where it is lost.
fn write_if_lost<O: Sink>(
    buffer: &mut LineBuf,
    out: &mut O,
    firsts: &[Option<Moment>],
    unit: u8,
    cycle: u32,
    ticks: u32,
) -> Result<(), SinkFault>
    requires ticks { 0 < ticks }
    requires unit { 2 * unit + 1 < length firsts.now }
    ensures bytes { Writes (O.holds out.old) buffer.old (line_of_lost firsts.now ticks cycle unit) (O.holds out.new) buffer.new result }
    ensures cause { HasCause (O.faults out.old) (O.faults out.new) result }
{
    if !is_lost(firsts, unit, cycle, ticks) {
        return Ok(());
    }
    write_lost(buffer, out, cycle, unit)
}
