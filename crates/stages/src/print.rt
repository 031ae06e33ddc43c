//! Text for the output.
ghost use Rattle.std.specs.Prelude.{◌≡◌, ℕ, List, Option};
ghost use Rattle.mars_base.specs.declared.file.File.{File};
ghost use Rattle.stages.specs.Stage.{Does, printing};
ghost use Rattle.refusals.specs.Causes.{counts};
ghost use Rattle.stages.specs.World.{held};

use mars_base::Sink;
use refusals::Refusal;

/// Puts a text.
pub fn print_text<O: Sink>(out: &mut O, text: &[u8]) -> Result<(), Refusal>
    ensures answer { (files : Option (List File)) (left : Option (List ℕ)) (reads writes input : ℕ) → Does (printing text.now)
        (held files left (O.holds out.old)) (held files left (O.holds out.new))
        (counts reads writes input (O.faults out.old)) (counts reads writes input (O.faults out.new))
        result }
{
    match out.put(text) {
        Ok(()) => Ok(()),
        Err(_fault) => Err(Refusal::WriteFault(None)),
    }
}
