//! Text in several pieces, put without taking memory.
ghost use Rattle.std.specs.Prelude.{◌≡◌};
ghost use Rattle.lines.specs.Gathered.{joined, Writes};
ghost use Rattle.mars_base.specs.Causes.{HasCause};
ghost use Rattle.mars_base.specs.Outside.{Puts};

use crate::LineBuf;
use mars_base::{Sink, SinkFault};

/// Puts the pieces one after another.
pub fn put_pieces<O: Sink>(out: &mut O, pieces: &[&[u8]]) -> Result<(), SinkFault>
    ensures bytes { Puts (O.holds out.old) (O.holds out.new) result (joined pieces.now) }
    ensures cause { HasCause (O.faults out.old) (O.faults out.new) result }
{
    for piece in pieces {
        if let Err(fault) = out.put(piece) {
            return Err(fault);
        }
    }
    Ok(())
}

/// Writes the pieces one after another through a buffer.
pub fn write_pieces<O: Sink>(
    buffer: &mut LineBuf,
    out: &mut O,
    pieces: &[&[u8]],
) -> Result<(), SinkFault>
    ensures bytes { Writes (O.holds out.old) buffer.old (joined pieces.now) (O.holds out.new) buffer.new result }
    ensures cause { HasCause (O.faults out.old) (O.faults out.new) result }
{
    for piece in pieces {
        if let Err(fault) = buffer.write(out, piece) {
            return Err(fault);
        }
    }
    Ok(())
}
