//! The report of a build.
ghost use Rattle.std.specs.Prelude.{◌≡◌, ◌++◌, IfOk, OnOk, length};
ghost use Rattle.report_text.specs.Report.{maxt_line, maxt_lines, image_line, report_of};

use graph::NetTask;
use itoa::Buffer;
use mars_base::Memory;
use std::alloc::Global;

/// The report of an image of `size` bytes: a line `maxt NAME N` for each task in order, where N is its
/// bound in cycles, and then the line `image SIZE`. Refused only without memory.
pub fn report(alloc: Global, tasks: &[NetTask], maxts: &[u32], size: u64) -> Result<Vec<u8>, Memory>
    requires { length maxts.now ≡ length tasks.now }
    ensures { IfOk result (λ text. text.items ≡ report_of tasks.now maxts.now size) }
{
    let mut text = Vec::new(alloc);
    append_tasks(&mut text, tasks, maxts)?;
    append_image(&mut text, size)?;
    Ok(text)
}

// Appends the lines of tasks.
fn append_tasks(text: &mut Vec<u8>, tasks: &[NetTask], maxts: &[u32]) -> Result<(), Memory>
    requires { length maxts.now ≡ length tasks.now }
    ensures { OnOk result (text.new.items ≡ text.old.items ++ maxt_lines tasks.now maxts.now) }
{
    for place in 0..tasks.len() {
        append_maxt(text, tasks[place].name.as_slice(), maxts[place])?;
    }
    Ok(())
}

// Appends the line of a task.
fn append_maxt(text: &mut Vec<u8>, name: &[u8], maxt: u32) -> Result<(), Memory>
    ensures { OnOk result (text.new.items ≡ text.old.items ++ maxt_line name.now maxt) }
{
    let mut digits = Buffer::new();
    text.extend_from_slice(b"maxt ")?;
    text.extend_from_slice(name)?;
    text.extend_from_slice(b" ")?;
    text.extend_from_slice(digits.format(maxt).as_bytes())?;
    text.extend_from_slice(b"\n")?;
    Ok(())
}

// Appends the last line.
fn append_image(text: &mut Vec<u8>, size: u64) -> Result<(), Memory>
    ensures { OnOk result (text.new.items ≡ text.old.items ++ image_line size) }
{
    let mut digits = Buffer::new();
    text.extend_from_slice(b"image ")?;
    text.extend_from_slice(digits.format(size).as_bytes())?;
    text.extend_from_slice(b"\n")?;
    Ok(())
}
