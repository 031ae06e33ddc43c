//! The tables of a project as a text.
ghost use Rattle.std.specs.Prelude.{◌≡◌, [], ℕ, List, Option};
ghost use Rattle.image_plant.specs.Image.{IsImage};
ghost use Rattle.mars_base.specs.declared.file.File.{File};
ghost use Rattle.plan_command.specs.Plan.{showing, shown, text_of};
ghost use Rattle.refusals.specs.Causes.{counts};
ghost use Rattle.stages.specs.Stage.{Does, printing};
ghost use Rattle.stages.specs.World.{held};

use image::Image;
use lines::LineBuf;
use mars_base::Sink;
use plant::Plant;
use project_image::image_bytes;
use refusals::Refusal;
use std::alloc::Global;
use tables_text::write_tables;
use word_code::Verified;

/// Puts the text of an image's tables to the output. Nothing is put where the image has more than 4,194,304 bytes: it
/// is too long, with the name that is given.
pub fn show_made<O: Sink>(
    alloc: Global,
    name: &str,
    made: &Image,
    out: &mut O,
) -> Result<(), Refusal>
    ensures answer { (files : Option (List File)) (left : Option (List ℕ)) (reads writes input : ℕ) → Does (shown name.now made.now)
        (held files left (O.holds out.old)) (held files left (O.holds out.new))
        (counts reads writes input (O.faults out.old)) (counts reads writes input (O.faults out.new))
        result }
{
    match image_bytes(alloc, name, made) {
        Ok(_bytes) => show_plant(alloc, made.plant(), out),
        Err(refused) => Err(refused),
    }
}

// Puts the text of a plant's tables to the output.
fn show_plant<O: Sink>(alloc: Global, plant: &Plant<Verified>, out: &mut O) -> Result<(), Refusal>
    requires { IsImage plant.now }
    ensures answer { (files : Option (List File)) (left : Option (List ℕ)) (reads writes input : ℕ) → Does (showing plant.now)
        (held files left (O.holds out.old)) (held files left (O.holds out.new))
        (counts reads writes input (O.faults out.old)) (counts reads writes input (O.faults out.new))
        result }
{
    let Ok(mut buffer) = LineBuf::new(alloc) else {
        return Err(Refusal::Memory);
    };
    write_plant(&mut buffer, plant, out)
}

// Puts the text by way of an empty buffer.
fn write_plant<O: Sink>(
    buffer: &mut LineBuf,
    plant: &Plant<Verified>,
    out: &mut O,
) -> Result<(), Refusal>
    requires image { IsImage plant.now }
    requires empty { buffer.old ≡ [] }
    ensures answer { (files : Option (List File)) (left : Option (List ℕ)) (reads writes input : ℕ) → Does (printing (text_of plant.now))
        (held files left (O.holds out.old)) (held files left (O.holds out.new))
        (counts reads writes input (O.faults out.old)) (counts reads writes input (O.faults out.new))
        result }
{
    let maxts = plant.maxts.as_slice();
    if let Err(_fault) = write_tables(buffer, out, &plant.net, &plant.graph, &plant.tables, maxts) {
        return Err(Refusal::WriteFault(None));
    }
    match buffer.send(out) {
        Ok(()) => Ok(()),
        Err(_fault) => Err(Refusal::WriteFault(None)),
    }
}
