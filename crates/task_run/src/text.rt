//! The lines that a run writes.
ghost use Rattle.std.specs.Prelude.{◌≡◌, ◌+◌, ◌*◌, ◌≤◌, ◌++◌, [], length, OnOk};
ghost use Rattle.std.specs.Fmt.{signed_decimal};
ghost use Rattle.lines.specs.Gathered.{Writes};
ghost use Rattle.mars_base.specs.Causes.{HasCause};
ghost use Rattle.task_run.specs.Text.{tail_text, words_text, out_line, broken_line, task_line};

use itoa::Buffer;
use lines::{LineBuf, write_pieces};
use mars_base::{Sink, SinkFault};

// How many bytes a word takes at most: a blank, a minus and ten digits.
const WORD: usize = 12;

/// Writes the line of an instance's outputs.
pub fn write_outs<O: Sink>(
    buffer: &mut LineBuf,
    out: &mut O,
    words: &[i32],
) -> Result<(), SinkFault>
    requires { length words.now ≤ 256 }
    ensures bytes { Writes (O.holds out.old) buffer.old (out_line words.now) (O.holds out.new) buffer.new result }
    ensures cause { HasCause (O.faults out.old) (O.faults out.new) result }
{
    if let Err(fault) = make_room(buffer, out, WORD * words.len() + 1) {
        return Err(fault);
    }
    append_outs(buffer, words);
    Ok(())
}

// Sends what waits where so many bytes don't fit behind it.
fn make_room<O: Sink>(buffer: &mut LineBuf, out: &mut O, need: usize) -> Result<(), SinkFault>
    requires { need ≤ 65536 }
    ensures bytes { Writes (O.holds out.old) buffer.old [] (O.holds out.new) buffer.new result }
    ensures room { OnOk result (length buffer.new + need ≤ 65536) }
    ensures cause { HasCause (O.faults out.old) (O.faults out.new) result }
{
    if buffer.room() < need {
        return buffer.flush(out);
    }
    Ok(())
}

// Appends the line of words that fit.
fn append_outs(buffer: &mut LineBuf, words: &[i32])
    requires { length buffer.old + 12 * length words.now + 1 ≤ 65536 }
    ensures { buffer.new ≡ buffer.old ++ out_line words.now }
{
    append_words(buffer, words);
    buffer.byte(b'\n');
}

// Appends words with single blanks between them.
fn append_words(buffer: &mut LineBuf, words: &[i32])
    requires { length buffer.old + 12 * length words.now ≤ 65536 }
    ensures text { buffer.new ≡ buffer.old ++ words_text words.now }
    ensures room { length buffer.new ≤ length buffer.old + 12 * length words.now }
{
    let Some((first, rest)) = words.split_first() else {
        return;
    };
    buffer.word(*first);
    append_tail(buffer, rest);
}

// Appends a blank and a word, for each.
fn append_tail(buffer: &mut LineBuf, words: &[i32])
    requires { length buffer.old + 12 * length words.now ≤ 65536 }
    ensures text { buffer.new ≡ buffer.old ++ tail_text words.now }
    ensures room { length buffer.new ≤ length buffer.old + 12 * length words.now }
{
    for word in words {
        buffer.byte(b' ');
        buffer.word(*word);
    }
}

/// Writes the line of a broken instance.
pub fn write_broken<O: Sink>(
    buffer: &mut LineBuf,
    out: &mut O,
    line: u64,
    name: &[u8],
) -> Result<(), SinkFault>
    ensures bytes { Writes (O.holds out.old) buffer.old (broken_line line name.now) (O.holds out.new) buffer.new result }
    ensures cause { HasCause (O.faults out.old) (O.faults out.new) result }
{
    let mut digits = Buffer::new();
    let line = digits.format(line).as_bytes();
    write_pieces(
        buffer,
        out,
        &[&b"broken "[..], line, &b" "[..], name, &b" 0\n"[..]],
    )
}

/// Writes the last line of a run.
pub fn write_task<O: Sink>(
    buffer: &mut LineBuf,
    out: &mut O,
    name: &[u8],
    maxt: u32,
    seen: u32,
) -> Result<(), SinkFault>
    ensures bytes { Writes (O.holds out.old) buffer.old (task_line name.now maxt seen) (O.holds out.new) buffer.new result }
    ensures cause { HasCause (O.faults out.old) (O.faults out.new) result }
{
    let mut maxt_digits = Buffer::new();
    let maxt = maxt_digits.format(maxt).as_bytes();
    let mut seen_digits = Buffer::new();
    let seen = seen_digits.format(seen).as_bytes();
    write_pieces(
        buffer,
        out,
        &[
            &b"task "[..],
            name,
            &b" maxt "[..],
            maxt,
            &b" seen "[..],
            seen,
            &b"\n"[..],
        ],
    )
}
