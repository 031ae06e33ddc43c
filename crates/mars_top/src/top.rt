//! The top call.
ghost use Rattle.std.specs.Prelude.{◌≡◌, ◌↔◌, None, map, string_bytes};
ghost use Rattle.mars_top.specs.Asked.{plain_asked};
ghost use Rattle.mars_top.specs.Command.{command_of};
ghost use Rattle.mars_top.specs.Helpers.{Acts};
ghost use Rattle.mars_top.specs.Ran.{RanOf};
ghost use Rattle.mars_top.specs.Replies.{Replies};
ghost use Rattle.refusals.specs.Causes.{counts};
ghost use Rattle.stages.specs.World.{held, world};

use crate::asked::{Asked, read_words};
use build_command::run_build;
use mars_base::{Shelf, Sink, Source};
use plan_command::run_plan;
use refusals::{Refusal, say, status};
use show_command::run_show;
use std::alloc::Global;
use task_command::run_task;

/// All that the program does: the words after its name are the command, and the answer is its exit
/// status. A command writes to `out`; where the status isn't 0, one line on `err` says why.
///
/// | words | does |
/// |---|---|
/// | `task FILE` | runs the task of a file over the lines of the input |
/// | `plan PROJECT BUDGET` | prints the tables of a project, found within a budget of steps |
/// | `build PROJECT BUDGET IMAGE` | writes the image of a project and prints its report |
/// | `show IMAGE` | prints the tables of an image |
pub fn mars<H: Shelf, I: Source, O: Sink, E: Sink>(
    alloc: Global,
    words: &[String],
    shelf: &mut H,
    input: &mut I,
    out: &mut O,
    err: &mut E,
) -> u8
    ensures usage { (result ≡ 2) ↔ (command_of (map string_bytes words.now) ≡ None) }
    ensures replies { Replies (command_of (map string_bytes words.now))
        (world (held (H.holds shelf.old) (I.left input.old) (O.holds out.old))
        (counts (H.failed_reads shelf.old) (H.failed_writes shelf.old) (I.faults input.old) (O.faults out.old)) (E.holds err.old) (E.faults err.old))
        (world (held (H.holds shelf.new) (I.left input.new) (O.holds out.new))
        (counts (H.failed_reads shelf.new) (H.failed_writes shelf.new) (I.faults input.new) (O.faults out.new)) (E.holds err.new) (E.faults err.new))
        result }
    ensures ran { RanOf (command_of (map string_bytes words.now))
        (world (held (H.holds shelf.old) (I.left input.old) (O.holds out.old))
        (counts (H.failed_reads shelf.old) (H.failed_writes shelf.old) (I.faults input.old) (O.faults out.old)) (E.holds err.old) (E.faults err.old))
        (world (held (H.holds shelf.new) (I.left input.new) (O.holds out.new))
        (counts (H.failed_reads shelf.new) (H.failed_writes shelf.new) (I.faults input.new) (O.faults out.new)) (E.holds err.new) (E.faults err.new))
        result }
{
    let answer = perform(alloc, read_words(words), shelf, input, out);
    say(err, &answer);
    status(&answer)
}

// Performs what the words ask for.
fn perform<H: Shelf, I: Source, O: Sink>(
    alloc: Global,
    command: Asked<'_>,
    shelf: &mut H,
    input: &mut I,
    out: &mut O,
) -> Result<(), Refusal>
    ensures { Acts (plain_asked command.entry)
        (held (H.holds shelf.old) (I.left input.old) (O.holds out.old)) (held (H.holds shelf.new) (I.left input.new) (O.holds out.new))
        (counts (H.failed_reads shelf.old) (H.failed_writes shelf.old) (I.faults input.old) (O.faults out.old))
        (counts (H.failed_reads shelf.new) (H.failed_writes shelf.new) (I.faults input.new) (O.faults out.new))
        result }
{
    match command {
        Asked::Nothing => Err(Refusal::Usage),
        Asked::Task { file } => run_task(alloc, file, shelf, input, out),
        Asked::Plan { project, budget } => run_plan(alloc, project, budget, shelf, out),
        Asked::Build {
            project,
            budget,
            image,
        } => run_build(alloc, project, budget, image, shelf, out),
        Asked::Show { file } => run_show(alloc, file, shelf, out),
    }
}
