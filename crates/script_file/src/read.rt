//! Reads the script of a file, or tells its first bad line.
ghost use Rattle.std.specs.Prelude.{◌≡◌, ◌⊎◌, ◌≤◌, ℕ, List, Option, Err, length};
ghost use Rattle.refusals.specs.Causes.{counts};
ghost use Rattle.script_file.specs.Gives.{ScriptGives, script_stage, refusal_of};
ghost use Rattle.script_reader.specs.Reading.{events_of};
ghost use Rattle.stages.specs.Stage.{Does, given};
ghost use Rattle.stages.specs.World.{held};

use mars_base::Shelf;
use refusals::Refusal;
use script::Script;
use script_reader::{ScriptFault, read_script};
use stages::read_file;
use std::alloc::Global;

// How many bytes a script has at most.
const LONGEST: u64 = 1_048_576;

/// The script of a file of at most 1,048,576 bytes, for a cluster of so many units and a cycle of so many ticks.
/// Refused where the file can't be read, isn't there or is longer, where a line isn't in the grammar, with the number
/// of the first, and where there is no memory.
pub fn read_script_file<H: Shelf>(
    alloc: Global,
    shelf: &mut H,
    file: &str,
    units: u8,
    ticks: u32,
) -> Result<Script, Refusal>
    ensures answer { (left out : Option (List ℕ)) (input output : ℕ) → Does (script_stage file.now units ticks)
        (held (H.holds shelf.old) left out) (held (H.holds shelf.new) left out)
        (counts (H.failed_reads shelf.old) (H.failed_writes shelf.old) input output)
        (counts (H.failed_reads shelf.new) (H.failed_writes shelf.new) input output)
        (given events_of result) }
    ensures files { H.holds shelf.new ≡ H.holds shelf.old }
    ensures writes { H.failed_writes shelf.new ≡ H.failed_writes shelf.old }
{
    let bytes = match read_file(alloc, shelf, file, LONGEST) {
        Ok(bytes) => bytes,
        Err(refused) => return Err(refused),
    };
    judge_bytes(alloc, &bytes, units, ticks)
}

// The script of bytes, or its first bad line.
fn judge_bytes(alloc: Global, bytes: &[u8], units: u8, ticks: u32) -> Result<Script, Refusal>
    requires { length bytes.now ≤ 1048576 }
    ensures { ScriptGives units ticks bytes.now (given events_of result) ⊎ (given events_of result ≡ Err Refusal.Memory) }
{
    match read_script(alloc, bytes, units, ticks) {
        Ok(script) => Ok(script),
        Err(fault) => Err(refusal_of(fault)),
    }
}

// The refusal for a script that wasn't read.
fn refusal_of(fault: ScriptFault) -> Refusal
    ensures { result ≡ refusal_of fault }
{
    match fault {
        ScriptFault::Bad(line) => Refusal::BadScript(line),
        ScriptFault::Memory => Refusal::Memory,
    }
}
