//! The command `show IMAGE`.
ghost use Rattle.std.specs.Prelude.{ℕ, List, Option};
ghost use Rattle.image_plant.specs.Image.{IsImage};
ghost use Rattle.lines.specs.Gathered.{Writes};
ghost use Rattle.mars_base.specs.Causes.{HasCause};
ghost use Rattle.mars_base.specs.declared.file.File.{File};
ghost use Rattle.refusals.specs.Causes.{counts};
ghost use Rattle.show_command.specs.Show.{showing_image, text_of, ShowPromises};
ghost use Rattle.stages.specs.Stage.{Does};
ghost use Rattle.stages.specs.World.{held};
ghost use Rattle.tables_print.specs.Showing.{showing};

use image::Image;
use image_file::read_image;
use lines::LineBuf;
use mars_base::{Shelf, Sink, SinkFault};
use refusals::Refusal;
use std::alloc::Global;
use tables_print::print_tables;
use tables_text::write_tables;

/// Writes the text of an image's tables. It takes no memory.
pub fn show<O: Sink>(image: &Image, buffer: &mut LineBuf, out: &mut O) -> Result<(), SinkFault>
    requires { IsImage image.now }
    ensures bytes { Writes (O.holds out.old) buffer.old (text_of image.now) (O.holds out.new) buffer.new result }
    ensures cause { HasCause (O.faults out.old) (O.faults out.new) result }
{
    let plant = image.plant();
    write_tables(
        buffer,
        out,
        &plant.net,
        &plant.graph,
        &plant.tables,
        plant.maxts.as_slice(),
    )
}

/// Writes the tables of the image of a file to the output. It writes no file.
pub fn run_show<H: Shelf, O: Sink>(
    alloc: Global,
    file: &str,
    shelf: &mut H,
    out: &mut O,
) -> Result<(), Refusal>
    ensures answer { (left : Option (List ℕ)) (input : ℕ) → Does (showing_image file.now)
        (held (H.holds shelf.old) left (O.holds out.old)) (held (H.holds shelf.new) left (O.holds out.new))
        (counts (H.failed_reads shelf.old) (H.failed_writes shelf.old) input (O.faults out.old))
        (counts (H.failed_reads shelf.new) (H.failed_writes shelf.new) input (O.faults out.new))
        result }
    ensures promises { (left : Option (List ℕ)) (input : ℕ) → ShowPromises file.now
        (held (H.holds shelf.old) left (O.holds out.old)) (held (H.holds shelf.new) left (O.holds out.new))
        (counts (H.failed_reads shelf.old) (H.failed_writes shelf.old) input (O.faults out.old))
        (counts (H.failed_reads shelf.new) (H.failed_writes shelf.new) input (O.faults out.new))
        result }
{
    let image = match read_image(alloc, shelf, file) {
        Ok(image) => image,
        Err(refused) => return Err(refused),
    };
    put_image(alloc, &image, out)
}

// Puts the text of an image's tables.
fn put_image<O: Sink>(alloc: Global, image: &Image, out: &mut O) -> Result<(), Refusal>
    requires { IsImage image.now }
    ensures answer { (files : Option (List File)) (left : Option (List ℕ)) (reads writes input : ℕ) → Does (showing (text_of image.now))
        (held files left (O.holds out.old)) (held files left (O.holds out.new))
        (counts reads writes input (O.faults out.old)) (counts reads writes input (O.faults out.new))
        result }
{
    let plant = image.plant();
    print_tables(
        alloc,
        &plant.net,
        &plant.graph,
        &plant.tables,
        plant.maxts.as_slice(),
        out,
    )
}
