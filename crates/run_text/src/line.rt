//! The lines of run text.
ghost use Rattle.std.specs.Prelude.{◌≡◌, ◌+◌, ◌*◌, ◌≤◌, ◌++◌, [], length, OnOk};
ghost use Rattle.lines.specs.Gathered.{Writes};
ghost use Rattle.mars_base.specs.Causes.{HasCause};
ghost use Rattle.run_text.specs.Helpers.{out_head, out_tail, lost_parts};
ghost use Rattle.run_texts.specs.Lines.{spaced, out_line, lost_line, broken_line, task_line};

use itoa::Buffer;
use lines::{LineBuf, write_pieces};
use mars_base::{Sink, SinkFault};

// How many bytes a word takes at most: a blank, a minus and ten digits.
const WORD: usize = 12;

/// Writes the line of what an actuator gets in a cycle for an instance, at the tick at which its job has ended: at
/// most 16 words. An `Err` comes only where a put failed, and then a front of the line was put.
pub fn write_out<O: Sink>(
    buffer: &mut LineBuf,
    out: &mut O,
    cycle: u32,
    name: &[u8],
    instance: u32,
    tick: u32,
    words: &[i32],
) -> Result<(), SinkFault>
    requires { length words.now ≤ 16 }
    ensures bytes { Writes (O.holds out.old) buffer.old (out_line cycle name.now instance tick words.now) (O.holds out.new) buffer.new result }
    ensures cause { HasCause (O.faults out.old) (O.faults out.new) result }
{
    if let Err(fault) = write_head(buffer, out, cycle, name, instance, tick) {
        return Err(fault);
    }
    write_spaced(buffer, out, words)
}

// Writes the line before its words.
fn write_head<O: Sink>(
    buffer: &mut LineBuf,
    out: &mut O,
    cycle: u32,
    name: &[u8],
    instance: u32,
    tick: u32,
) -> Result<(), SinkFault>
    ensures bytes { Writes (O.holds out.old) buffer.old (out_head cycle name.now instance tick) (O.holds out.new) buffer.new result }
    ensures cause { HasCause (O.faults out.old) (O.faults out.new) result }
{
    let mut cycle_digits = Buffer::new();
    let cycle = cycle_digits.format(cycle).as_bytes();
    let mut instance_digits = Buffer::new();
    let instance = instance_digits.format(instance).as_bytes();
    let mut tick_digits = Buffer::new();
    let tick = tick_digits.format(tick).as_bytes();
    write_pieces(
        buffer,
        out,
        &[
            &b"out "[..],
            cycle,
            &b" "[..],
            name,
            &b" "[..],
            instance,
            &b" "[..],
            tick,
        ],
    )
}

// Writes words, each behind a blank, and the end of the line.
fn write_spaced<O: Sink>(buffer: &mut LineBuf, out: &mut O, words: &[i32]) -> Result<(), SinkFault>
    requires { length words.now ≤ 16 }
    ensures bytes { Writes (O.holds out.old) buffer.old (out_tail words.now) (O.holds out.new) buffer.new result }
    ensures cause { HasCause (O.faults out.old) (O.faults out.new) result }
{
    if let Err(fault) = make_room(buffer, out, WORD * words.len() + 1) {
        return Err(fault);
    }
    append_tail(buffer, words);
    Ok(())
}

// Sends what waits where so many bytes don't fit behind it.
fn make_room<O: Sink>(buffer: &mut LineBuf, out: &mut O, need: usize) -> Result<(), SinkFault>
    requires { need ≤ 65536 }
    ensures bytes { Writes (O.holds out.old) buffer.old [] (O.holds out.new) buffer.new result }
    ensures room { OnOk result (length buffer.new + need ≤ 65536) }
    ensures cause { HasCause (O.faults out.old) (O.faults out.new) result }
{
    if buffer.room() < need {
        return buffer.flush(out);
    }
    Ok(())
}

// Appends words that fit and the end of the line.
fn append_tail(buffer: &mut LineBuf, words: &[i32])
    requires { length buffer.old + 12 * length words.now + 1 ≤ 65536 }
    ensures { buffer.new ≡ buffer.old ++ out_tail words.now }
{
    append_spaced(buffer, words);
    buffer.byte(b'\n');
}

// Appends a blank and a word, for each.
fn append_spaced(buffer: &mut LineBuf, words: &[i32])
    requires { length buffer.old + 12 * length words.now ≤ 65536 }
    ensures text { buffer.new ≡ buffer.old ++ spaced words.now }
    ensures room { length buffer.new ≤ length buffer.old + 12 * length words.now }
{
    for word in words {
        buffer.byte(b' ');
        buffer.word(*word);
    }
}

/// Writes the line of a unit that is lost in a cycle.
pub fn write_lost<O: Sink>(
    buffer: &mut LineBuf,
    out: &mut O,
    cycle: u32,
    unit: u8,
) -> Result<(), SinkFault>
    ensures bytes { Writes (O.holds out.old) buffer.old (lost_line cycle unit) (O.holds out.new) buffer.new result }
    ensures cause { HasCause (O.faults out.old) (O.faults out.new) result }
{
    let mut cycle_digits = Buffer::new();
    let cycle = cycle_digits.format(cycle).as_bytes();
    let mut unit_digits = Buffer::new();
    let unit = unit_digits.format(unit).as_bytes();
    put_lost(buffer, out, cycle, unit)
}

// Writes the line of a lost unit from the digits of its numbers.
fn put_lost<'a, O: Sink>(
    buffer: &mut LineBuf,
    out: &mut O,
    cycle: &'a [u8],
    unit: &'a [u8],
) -> Result<(), SinkFault>
    ensures bytes { Writes (O.holds out.old) buffer.old (lost_parts cycle.now unit.now) (O.holds out.new) buffer.new result }
    ensures cause { HasCause (O.faults out.old) (O.faults out.new) result }
{
    write_pieces(
        buffer,
        out,
        &[&b"lost "[..], cycle, &b" u"[..], unit, &b"\n"[..]],
    )
}

/// Writes the line of a job that is broken in a cycle, by its task's name and its instance.
pub fn write_broken<O: Sink>(
    buffer: &mut LineBuf,
    out: &mut O,
    cycle: u32,
    name: &[u8],
    instance: u32,
) -> Result<(), SinkFault>
    ensures bytes { Writes (O.holds out.old) buffer.old (broken_line cycle name.now instance) (O.holds out.new) buffer.new result }
    ensures cause { HasCause (O.faults out.old) (O.faults out.new) result }
{
    let mut cycle_digits = Buffer::new();
    let cycle = cycle_digits.format(cycle).as_bytes();
    let mut instance_digits = Buffer::new();
    let instance = instance_digits.format(instance).as_bytes();
    write_pieces(
        buffer,
        out,
        &[
            &b"broken "[..],
            cycle,
            &b" "[..],
            name,
            &b" "[..],
            instance,
            &b"\n"[..],
        ],
    )
}

/// Writes the closing line of a task: its bound, and the most cycles that an execution of it took.
pub fn write_task<O: Sink>(
    buffer: &mut LineBuf,
    out: &mut O,
    name: &[u8],
    maxt: u32,
    seen: u32,
) -> Result<(), SinkFault>
    ensures bytes { Writes (O.holds out.old) buffer.old (task_line name.now maxt seen) (O.holds out.new) buffer.new result }
    ensures cause { HasCause (O.faults out.old) (O.faults out.new) result }
{
    let mut maxt_digits = Buffer::new();
    let maxt = maxt_digits.format(maxt).as_bytes();
    let mut seen_digits = Buffer::new();
    let seen = seen_digits.format(seen).as_bytes();
    write_pieces(
        buffer,
        out,
        &[
            &b"task "[..],
            name,
            &b" maxt "[..],
            maxt,
            &b" seen "[..],
            seen,
            &b"\n"[..],
        ],
    )
}
