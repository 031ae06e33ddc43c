//! The line of a refusal on the error output.
ghost use Rattle.std.specs.Prelude.{◌++◌, decimal, codes};
ghost use Rattle.mars_base.specs.Causes.{HasCause};
ghost use Rattle.mars_base.specs.Outside.{Puts};
ghost use Rattle.refusals.specs.Said.{Said};
ghost use Rattle.refusals.specs.Status.{line_of, fault_line, image_line, rule_line, project_line, broken_line, name_or, naming, of_file, at_file};

use crate::fault::{Fault, kind_words};
use crate::project::{Place, ProjectKind};
use crate::refusal::{ImageBad, Refusal};
use itoa::Buffer;
use lines::put_pieces;
use mars_base::{Sink, SinkFault, Span, Text};
use mc_tree::Kind;

/// Says why an answer is a refusal: its line is put, without taking memory. That it can't be put
/// changes nothing. Of an answer that is no refusal nothing is said.
pub fn say<E: Sink>(err: &mut E, answer: &Result<(), Refusal>)
    ensures { Said (E.holds err.old) (E.holds err.new) (E.faults err.old) (E.faults err.new) answer.now }
{
    if let Err(refused) = answer {
        let _ = complain(err, refused);
    }
}

/// Puts the line of a refusal. It takes no memory.
pub fn complain<E: Sink>(err: &mut E, refusal: &Refusal) -> Result<(), SinkFault>
    ensures bytes { Puts (E.holds err.old) (E.holds err.new) result (line_of refusal.now) }
    ensures cause { HasCause (E.faults err.old) (E.faults err.new) result }
{
    match refusal {
        Refusal::Memory => err.put(b"mars: no memory\n"),
        Refusal::Usage => err.put(b"mars: usage\n"),
        Refusal::Fault(fault) => put_fault(err, fault),
        Refusal::Spent(budget) => put_number(err, b"mars: budget ", *budget as u64, b" spent\n"),
        Refusal::NoTable => err.put(b"mars: no table\n"),
        Refusal::ReadFault(name) => put_stream(err, b"read fault: ", b"input", name),
        Refusal::WriteFault(name) => put_stream(err, b"write fault: ", b"output", name),
        Refusal::BadInput(number) => put_number(err, b"mars: bad input line ", *number, b"\n"),
        Refusal::BadScript(number) => {
            put_number(err, b"mars: bad script line ", *number as u64, b"\n")
        }
        Refusal::BadImage(bad) => put_image(err, *bad),
        Refusal::Broken => err.put(b"mars: broken\n"),
        Refusal::Lost => err.put(b"mars: lost\n"),
        Refusal::TooLong(name) => put_stream(err, b"too long: ", b"image", name),
    }
}

// Puts the line of a fault.
fn put_fault<E: Sink>(err: &mut E, fault: &Fault) -> Result<(), SinkFault>
    ensures bytes { Puts (E.holds err.old) (E.holds err.new) result (fault_line fault.now) }
    ensures cause { HasCause (E.faults err.old) (E.faults err.new) result }
{
    match fault {
        Fault::BadByte { file, at } => put_at(err, file, b": ", *at as u64, b": bad byte\n"),
        Fault::Syntax { file, token } => {
            put_at(err, file, b": syntax at token ", *token as u64, b"\n")
        }
        Fault::Rule { file, span, kind } => put_rule(err, file, *span, *kind),
        Fault::NotBuilt { file } => put_file(err, file, b": not built\n"),
        Fault::CodeTooLong { file, length } => {
            put_at(err, file, b": code too long ", *length, b"\n")
        }
        Fault::NoPath { file } => put_file(err, file, b": no path\n"),
        Fault::MaxtTooLong { file } => put_file(err, file, b": maxt too long\n"),
        Fault::NotToml { project } => put_file(err, project, b": not toml\n"),
        Fault::Project {
            project,
            place,
            kind,
        } => put_project(err, project, *place, *kind),
        Fault::Cycle { project, ticks } => put_at(
            err,
            project,
            b": cycle of ",
            *ticks,
            b" ticks\n",
        ),
        Fault::Jobs { project, count } => put_at(err, project, b": ", *count, b" jobs\n"),
        Fault::SensorWords { project, count } => {
            put_at(err, project, b": ", *count, b" sensor words\n")
        }
    }
}

// Puts the line of a bad image.
fn put_image<E: Sink>(err: &mut E, bad: ImageBad) -> Result<(), SinkFault>
    ensures bytes { Puts (E.holds err.old) (E.holds err.new) result (image_line bad) }
    ensures cause { HasCause (E.faults err.old) (E.faults err.new) result }
{
    match bad {
        ImageBad::Byte(offset) => put_number(err, b"mars: bad image: byte ", offset as u64, b"\n"),
        ImageBad::Net => err.put(b"mars: bad image: net\n"),
        ImageBad::Code(task) => put_number(
            err,
            b"mars: bad image: code of task ",
            task as u64,
            b"\n",
        ),
        ImageBad::Table(rule) => put_number(
            err,
            b"mars: bad image: table rule ",
            rule as u64,
            b"\n",
        ),
    }
}

// Puts the line of a rule of the language that is broken.
fn put_rule<E: Sink>(err: &mut E, file: &Text, span: Span, kind: Kind) -> Result<(), SinkFault>
    ensures bytes { Puts (E.holds err.old) (E.holds err.new) result (rule_line file.now span kind) }
    ensures cause { HasCause (E.faults err.old) (E.faults err.new) result }
{
    let mut from = Buffer::new();
    let mut to = Buffer::new();
    put_broken(
        err,
        file.as_slice(),
        from.format(span.from).as_bytes(),
        b"-",
        to.format(span.to).as_bytes(),
        kind_words(kind),
    )
}

// Puts the line of a rule of projects that is broken.
fn put_project<E: Sink>(
    err: &mut E,
    project: &Text,
    place: Place,
    kind: ProjectKind,
) -> Result<(), SinkFault>
    ensures bytes { Puts (E.holds err.old) (E.holds err.new) result (project_line project.now place kind) }
    ensures cause { HasCause (E.faults err.old) (E.faults err.new) result }
{
    let mut entry = Buffer::new();
    put_broken(
        err,
        project.as_slice(),
        place.section.text(),
        b" ",
        entry.format(place.entry).as_bytes(),
        kind.text(),
    )
}

// Puts the line of a file in which a rule is broken, at a place of two parts.
fn put_broken<E: Sink>(
    err: &mut E,
    file: &[u8],
    first: &[u8],
    between: &[u8],
    second: &[u8],
    kind: &[u8],
) -> Result<(), SinkFault>
    ensures bytes { Puts (E.holds err.old) (E.holds err.new) result (broken_line file.now first.now between.now second.now kind.now) }
    ensures cause { HasCause (E.faults err.old) (E.faults err.new) result }
{
    put_pieces(
        err,
        &[
            &b"mars: "[..],
            file,
            &b": "[..],
            first,
            between,
            second,
            &b": "[..],
            kind,
            &b"\n"[..],
        ],
    )
}

// Puts a line of a file that ends in these words.
fn put_file<E: Sink>(err: &mut E, file: &Text, back: &[u8]) -> Result<(), SinkFault>
    ensures bytes { Puts (E.holds err.old) (E.holds err.new) result (of_file file.now back.now) }
    ensures cause { HasCause (E.faults err.old) (E.faults err.new) result }
{
    put_pieces(err, &[&b"mars: "[..], file.as_slice(), back])
}

// Puts a line of a file with a number between two texts.
fn put_at<E: Sink>(
    err: &mut E,
    file: &Text,
    front: &[u8],
    number: u64,
    back: &[u8],
) -> Result<(), SinkFault>
    ensures bytes { Puts (E.holds err.old) (E.holds err.new) result (at_file file.now front.now number back.now) }
    ensures cause { HasCause (E.faults err.old) (E.faults err.new) result }
{
    let mut digits = Buffer::new();
    put_text_at(
        err,
        file.as_slice(),
        front,
        digits.format(number).as_bytes(),
        back,
    )
}

// Puts a line of a file with a text between two others.
fn put_text_at<E: Sink>(
    err: &mut E,
    file: &[u8],
    front: &[u8],
    text: &[u8],
    back: &[u8],
) -> Result<(), SinkFault>
    ensures bytes { Puts (E.holds err.old) (E.holds err.new) result (codes "mars: " ++ (file.now ++ (front.now ++ (text.now ++ back.now)))) }
    ensures cause { HasCause (E.faults err.old) (E.faults err.new) result }
{
    put_pieces(err, &[&b"mars: "[..], file, front, text, back])
}

// Puts a line that names a file, or without one the stream.
fn put_stream<E: Sink>(
    err: &mut E,
    front: &[u8],
    stream: &[u8],
    name: &Option<Text>,
) -> Result<(), SinkFault>
    ensures bytes { Puts (E.holds err.old) (E.holds err.new) result (naming front.now (name_or stream.now name.now)) }
    ensures cause { HasCause (E.faults err.old) (E.faults err.new) result }
{
    match name {
        None => put_named(err, front, stream),
        Some(name) => put_named(err, front, name.as_slice()),
    }
}

// Puts a line that names something.
fn put_named<E: Sink>(err: &mut E, front: &[u8], name: &[u8]) -> Result<(), SinkFault>
    ensures bytes { Puts (E.holds err.old) (E.holds err.new) result (naming front.now name.now) }
    ensures cause { HasCause (E.faults err.old) (E.faults err.new) result }
{
    put_pieces(err, &[&b"mars: "[..], front, name, &b"\n"[..]])
}

// Puts a number between two texts.
fn put_number<E: Sink>(err: &mut E, front: &[u8], number: u64, back: &[u8]) -> Result<(), SinkFault>
    ensures bytes { Puts (E.holds err.old) (E.holds err.new) result (front.now ++ (decimal number ++ back.now)) }
    ensures cause { HasCause (E.faults err.old) (E.faults err.new) result }
{
    let mut digits = Buffer::new();
    put_framed(err, front, digits.format(number).as_bytes(), back)
}

// Puts a text between two others.
fn put_framed<E: Sink>(err: &mut E, front: &[u8], text: &[u8], back: &[u8]) -> Result<(), SinkFault>
    ensures bytes { Puts (E.holds err.old) (E.holds err.new) result (front.now ++ (text.now ++ back.now)) }
    ensures cause { HasCause (E.faults err.old) (E.faults err.new) result }
{
    put_pieces(err, &[front, text, back])
}
