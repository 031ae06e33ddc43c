//! The lines of the text.
ghost use Rattle.std.specs.Prelude.{◌≡◌};
ghost use Rattle.lines.specs.Gathered.{Writes};
ghost use Rattle.mars_base.specs.Causes.{HasCause};
ghost use Rattle.tables_text.specs.Text.{cluster_line, cluster_text, task_line, job_line, message_line, message_text};

use itoa::Buffer;
use lines::{LineBuf, write_pieces};
use mars_base::{ClusterShape, Sink, SinkFault};
use tables::{JobEntry, Message};

/// Writes the line of a cluster whose cycle has so many ticks.
pub fn write_cluster<O: Sink>(
    buffer: &mut LineBuf,
    out: &mut O,
    shape: &ClusterShape,
    cycle: u32,
) -> Result<(), SinkFault>
    ensures bytes { Writes (O.holds out.old) buffer.old (cluster_line shape.now cycle) (O.holds out.new) buffer.new result }
    ensures cause { HasCause (O.faults out.old) (O.faults out.new) result }
{
    let mut units = Buffer::new();
    let units = units.format(shape.units).as_bytes();
    let mut slot_words = Buffer::new();
    let slot_words = slot_words.format(shape.slot_words).as_bytes();
    let mut precision = Buffer::new();
    let precision = precision.format(shape.precision).as_bytes();
    let mut cycles_per_tick = Buffer::new();
    let cycles_per_tick = cycles_per_tick.format(shape.cycles_per_tick).as_bytes();
    let mut round = Buffer::new();
    let round = round.format(shape.round).as_bytes();
    let mut ticks = Buffer::new();
    let ticks = ticks.format(cycle).as_bytes();
    put_cluster(
        buffer,
        out,
        units,
        slot_words,
        precision,
        cycles_per_tick,
        round,
        ticks,
    )
}

/// Writes the line of a task.
pub fn write_task<O: Sink>(
    buffer: &mut LineBuf,
    out: &mut O,
    name: &[u8],
    unit: u8,
    maxt: u32,
) -> Result<(), SinkFault>
    ensures bytes { Writes (O.holds out.old) buffer.old (task_line name.now unit maxt) (O.holds out.new) buffer.new result }
    ensures cause { HasCause (O.faults out.old) (O.faults out.new) result }
{
    let mut unit_digits = Buffer::new();
    let unit = unit_digits.format(unit).as_bytes();
    let mut maxt_digits = Buffer::new();
    let maxt = maxt_digits.format(maxt).as_bytes();
    write_pieces(
        buffer,
        out,
        &[
            &b"task "[..],
            name,
            &b" unit "[..],
            unit,
            &b" maxt "[..],
            maxt,
            &b"\n"[..],
        ],
    )
}

/// Writes the line of an entry, for the name of its job's task and its instance.
pub fn write_job<O: Sink>(
    buffer: &mut LineBuf,
    out: &mut O,
    name: &[u8],
    instance: u32,
    entry: JobEntry,
) -> Result<(), SinkFault>
    ensures bytes { Writes (O.holds out.old) buffer.old (job_line name.now instance entry) (O.holds out.new) buffer.new result }
    ensures cause { HasCause (O.faults out.old) (O.faults out.new) result }
{
    let mut instance_digits = Buffer::new();
    let instance = instance_digits.format(instance).as_bytes();
    let mut unit = Buffer::new();
    let unit = unit.format(entry.unit).as_bytes();
    let mut start = Buffer::new();
    let start = start.format(entry.start).as_bytes();
    let mut end = Buffer::new();
    let end = end.format(entry.end).as_bytes();
    write_pieces(
        buffer,
        out,
        &[
            &b"job "[..],
            name,
            &b" "[..],
            instance,
            &b" unit "[..],
            unit,
            &b" start "[..],
            start,
            &b" end "[..],
            end,
            &b"\n"[..],
        ],
    )
}

/// Writes the line of a message.
pub fn write_message<O: Sink>(
    buffer: &mut LineBuf,
    out: &mut O,
    message: Message,
) -> Result<(), SinkFault>
    ensures bytes { Writes (O.holds out.old) buffer.old (message_line message) (O.holds out.new) buffer.new result }
    ensures cause { HasCause (O.faults out.old) (O.faults out.new) result }
{
    let mut edge = Buffer::new();
    let edge = edge.format(message.edge).as_bytes();
    let mut instance = Buffer::new();
    let instance = instance.format(message.instance).as_bytes();
    let mut unit = Buffer::new();
    let unit = unit.format(message.unit).as_bytes();
    let mut round = Buffer::new();
    let round = round.format(message.round).as_bytes();
    let mut offset = Buffer::new();
    let offset = offset.format(message.offset).as_bytes();
    put_message(buffer, out, edge, instance, unit, round, offset)
}

/// Writes the line of a cluster from the digits of its numbers.
fn put_cluster<'a, O: Sink>(
    buffer: &mut LineBuf,
    out: &mut O,
    units: &'a [u8],
    slot_words: &'a [u8],
    precision: &'a [u8],
    cycles_per_tick: &'a [u8],
    round: &'a [u8],
    cycle: &'a [u8],
) -> Result<(), SinkFault>
    ensures bytes { Writes (O.holds out.old) buffer.old (cluster_text units.now slot_words.now precision.now cycles_per_tick.now round.now cycle.now) (O.holds out.new) buffer.new result }
    ensures cause { HasCause (O.faults out.old) (O.faults out.new) result }
{
    write_pieces(
        buffer,
        out,
        &[
            &b"cluster units "[..],
            units,
            &b" slot_words "[..],
            slot_words,
            &b" precision "[..],
            precision,
            &b" cycles_per_tick "[..],
            cycles_per_tick,
            &b" round "[..],
            round,
            &b" cycle "[..],
            cycle,
            &b"\n"[..],
        ],
    )
}

/// Writes the line of a message from the digits of its numbers.
fn put_message<'a, O: Sink>(
    buffer: &mut LineBuf,
    out: &mut O,
    edge: &'a [u8],
    instance: &'a [u8],
    unit: &'a [u8],
    round: &'a [u8],
    offset: &'a [u8],
) -> Result<(), SinkFault>
    ensures bytes { Writes (O.holds out.old) buffer.old (message_text edge.now instance.now unit.now round.now offset.now) (O.holds out.new) buffer.new result }
    ensures cause { HasCause (O.faults out.old) (O.faults out.new) result }
{
    write_pieces(
        buffer,
        out,
        &[
            &b"message "[..],
            edge,
            &b" "[..],
            instance,
            &b" unit "[..],
            unit,
            &b" round "[..],
            round,
            &b" offset "[..],
            offset,
            &b"\n"[..],
        ],
    )
}
