//! The lines of frames, words and silences, and what each line begins with.
ghost use Rattle.std.specs.Prelude.{◌≡◌, codes};
ghost use Rattle.lines.specs.Gathered.{Writes, joined};
ghost use Rattle.mars_base.specs.Causes.{HasCause};
ghost use Rattle.run_agreement.specs.Trace.{side_text};
ghost use Rattle.trace_text.specs.Helpers.{head_parts, own_head, own_text, miss_parts, word_parts};
ghost use Rattle.trace_text.specs.Lines.{take_line, miss_line, put_line, bare_line};

use crate::Place;
use itoa::Buffer;
use lines::{LineBuf, write_pieces};
use mars_base::{Side, Sink, SinkFault};

/// Writes the line of a frame that is taken from a unit and a side.
pub fn write_take<O: Sink>(
    buffer: &mut LineBuf,
    out: &mut O,
    place: Place,
    from: u8,
    side: Side,
    round: u32,
) -> Result<(), SinkFault>
    ensures bytes { Writes (O.holds out.old) buffer.old (take_line place from side round) (O.holds out.new) buffer.new result }
    ensures cause { HasCause (O.faults out.old) (O.faults out.new) result }
{
    let mut from_digits = Buffer::new();
    let from = from_digits.format(from).as_bytes();
    let mut round_digits = Buffer::new();
    let round = round_digits.format(round).as_bytes();
    write_own(
        buffer,
        out,
        place,
        b"take".as_slice(),
        place.tick,
        &[
            &b" u"[..],
            from,
            &b" "[..],
            side_text(side),
            &b" "[..],
            round,
            &b"\n"[..],
        ],
    )
}

/// Writes the line of a unit's round of which neither frame is whole.
pub fn write_miss<O: Sink>(
    buffer: &mut LineBuf,
    out: &mut O,
    place: Place,
    from: u8,
    round: u32,
) -> Result<(), SinkFault>
    ensures bytes { Writes (O.holds out.old) buffer.old (miss_line place from round) (O.holds out.new) buffer.new result }
    ensures cause { HasCause (O.faults out.old) (O.faults out.new) result }
{
    let mut from_digits = Buffer::new();
    let from = from_digits.format(from).as_bytes();
    let mut round_digits = Buffer::new();
    let round = round_digits.format(round).as_bytes();
    put_miss(buffer, out, place, from, round)
}

/// Writes the line of a word that is put.
pub fn write_put<O: Sink>(
    buffer: &mut LineBuf,
    out: &mut O,
    place: Place,
    word: i32,
) -> Result<(), SinkFault>
    ensures bytes { Writes (O.holds out.old) buffer.old (put_line place word) (O.holds out.new) buffer.new result }
    ensures cause { HasCause (O.faults out.old) (O.faults out.new) result }
{
    let mut digits = Buffer::new();
    let word = digits.format(word).as_bytes();
    put_word(buffer, out, place, word)
}

/// Writes the line of a replica that falls silent.
pub fn write_silent<O: Sink>(
    buffer: &mut LineBuf,
    out: &mut O,
    place: Place,
) -> Result<(), SinkFault>
    ensures bytes { Writes (O.holds out.old) buffer.old (bare_line place (codes "silent")) (O.holds out.new) buffer.new result }
    ensures cause { HasCause (O.faults out.old) (O.faults out.new) result }
{
    let end = [&b"\n"[..]];
    write_own(buffer, out, place, b"silent".as_slice(), place.tick, &end)
}

/// Writes the line of a slot that is cut while its replica sends.
pub fn write_cut<O: Sink>(buffer: &mut LineBuf, out: &mut O, place: Place) -> Result<(), SinkFault>
    ensures bytes { Writes (O.holds out.old) buffer.old (bare_line place (codes "cut")) (O.holds out.new) buffer.new result }
    ensures cause { HasCause (O.faults out.old) (O.faults out.new) result }
{
    let end = [&b"\n"[..]];
    write_own(buffer, out, place, b"cut".as_slice(), place.tick, &end)
}

// Writes a line of a replica at a tick: its word, cycle, tick, unit and side, and then the pieces.
pub(crate) fn write_own<O: Sink>(
    buffer: &mut LineBuf,
    out: &mut O,
    place: Place,
    word: &[u8],
    at: u32,
    pieces: &[&[u8]],
) -> Result<(), SinkFault>
    ensures bytes { Writes (O.holds out.old) buffer.old (own_text place word.now at (joined pieces.now)) (O.holds out.new) buffer.new result }
    ensures cause { HasCause (O.faults out.old) (O.faults out.new) result }
{
    if let Err(fault) = write_head(buffer, out, place, word, at) {
        return Err(fault);
    }
    write_pieces(buffer, out, pieces)
}

// Writes a line up to its replica's side.
fn write_head<O: Sink>(
    buffer: &mut LineBuf,
    out: &mut O,
    place: Place,
    word: &[u8],
    at: u32,
) -> Result<(), SinkFault>
    ensures bytes { Writes (O.holds out.old) buffer.old (own_head place word.now at) (O.holds out.new) buffer.new result }
    ensures cause { HasCause (O.faults out.old) (O.faults out.new) result }
{
    let mut cycle_digits = Buffer::new();
    let cycle = cycle_digits.format(place.cycle).as_bytes();
    let mut tick_digits = Buffer::new();
    let tick = tick_digits.format(at).as_bytes();
    let mut unit_digits = Buffer::new();
    let unit = unit_digits.format(place.unit).as_bytes();
    let side = side_text(place.side);
    put_head(buffer, out, word, cycle, tick, unit, side)
}

// Writes a line up to its replica's side from the digits of its numbers.
fn put_head<'a, O: Sink>(
    buffer: &mut LineBuf,
    out: &mut O,
    word: &'a [u8],
    cycle: &'a [u8],
    tick: &'a [u8],
    unit: &'a [u8],
    side: &'a [u8],
) -> Result<(), SinkFault>
    ensures bytes { Writes (O.holds out.old) buffer.old (head_parts word.now cycle.now tick.now unit.now side.now) (O.holds out.new) buffer.new result }
    ensures cause { HasCause (O.faults out.old) (O.faults out.new) result }
{
    write_pieces(
        buffer,
        out,
        &[
            word,
            &b" "[..],
            cycle,
            &b" "[..],
            tick,
            &b" u"[..],
            unit,
            &b" "[..],
            side,
        ],
    )
}

// Writes the line of a missed frame from the digits of its numbers.
fn put_miss<'a, O: Sink>(
    buffer: &mut LineBuf,
    out: &mut O,
    place: Place,
    from: &'a [u8],
    round: &'a [u8],
) -> Result<(), SinkFault>
    ensures bytes { Writes (O.holds out.old) buffer.old (own_text place (codes "miss") place.tick (miss_parts from.now round.now)) (O.holds out.new) buffer.new result }
    ensures cause { HasCause (O.faults out.old) (O.faults out.new) result }
{
    let word = b"miss".as_slice();
    write_own(
        buffer,
        out,
        place,
        word,
        place.tick,
        &[&b" u"[..], from, &b" "[..], round, &b"\n"[..]],
    )
}

// Writes the line of a word from its digits.
fn put_word<'a, O: Sink>(
    buffer: &mut LineBuf,
    out: &mut O,
    place: Place,
    digits: &'a [u8],
) -> Result<(), SinkFault>
    ensures bytes { Writes (O.holds out.old) buffer.old (own_text place (codes "put") place.tick (word_parts digits.now)) (O.holds out.new) buffer.new result }
    ensures cause { HasCause (O.faults out.old) (O.faults out.new) result }
{
    let word = b"put".as_slice();
    write_own(
        buffer,
        out,
        place,
        word,
        place.tick,
        &[&b" "[..], digits, &b"\n"[..]],
    )
}

// The letter of a side.
fn side_text(side: Side) -> &'static [u8]
    ensures { result.now ≡ side_text side }
{
    match side {
        Side::A => b"A",
        Side::B => b"B",
    }
}
