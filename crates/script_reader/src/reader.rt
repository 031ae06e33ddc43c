//! A script, line by line.
ghost use Rattle.std.specs.Prelude.{◌≡◌, ◌≤◌, [], false, length, MatchOption, MatchResult, OnOk};
ghost use Rattle.lines.specs.Lines.{lines_in, without_return};
ghost use Rattle.script_reader.specs.FirstLine.{IsFirstLine, then_entry};
ghost use Rattle.script_reader.specs.Reads.{said};
ghost use Rattle.script_reader.specs.Reading.{Good, reading, events_of, IsFaultOf};

use crate::entry::{Line, line_of};
use mars_base::Memory;
use memchr::memchr;
use script::Script;
use std::alloc::Global;

/// Why a script wasn't read.
#[derive(Clone, Copy, Debug, PartialEq, Eq)]
pub enum ScriptFault {
    /// The first line that isn't in the grammar, counted from 1.
    Bad(u32),
    /// There was no memory.
    Memory,
}

impl From<Memory> for ScriptFault {
    ghost use Rattle.script_reader.specs.declared.reader.ScriptFault.TheVariants as script_fault;

    ghost from_gives = { λ _ e. e ≡ script_fault.Memory };

    fn from(_error: Memory) -> ScriptFault {
        ScriptFault::Memory
    }
}

/// A script by its bytes, at most a megabyte, for a cluster of so many units, 1 to 8, and a cycle of so many ticks,
/// 1 to 65,536: its silences and its paces in their order. `Bad` exactly at the first line that isn't in the grammar.
pub fn read_script(alloc: Global, text: &[u8], units: u8, ticks: u32) -> Result<Script, ScriptFault>
    requires { length text.now ≤ 1048576 }
    ensures { MatchResult result
        (λ s. reading false units ticks text.now ≡ Good (events_of s))
        (IsFaultOf (reading false units ticks text.now)) }
{
    let mut script = Script {
        silences: Vec::new(alloc),
        paces: Vec::new(alloc),
    };
    let mut number = 1;
    let mut rest = text;
    while let Some((line, behind)) = first_line(rest) {
        let Some(said) = line_of(line, units, ticks) else {
            return Err(ScriptFault::Bad(number));
        };
        add(&mut script, said)?;
        number += 1;
        rest = behind;
    }
    Ok(script)
}

// Adds what a line says.
fn add(script: &mut Script, line: Line) -> Result<(), Memory>
    ensures { OnOk result (events_of script.new ≡ then_entry (events_of script.old) (said line)) }
{
    match line {
        Line::Nothing => {}
        Line::Silence(silence) => script.silences.push(silence)?,
        Line::Pace(pace) => script.paces.push(pace)?,
    }
    Ok(())
}

// The first line of a text without its end, and the text behind it; None exactly where there is none.
fn first_line(text: &[u8]) -> Option<(&[u8], &[u8])>
    ensures { MatchOption result (lines_in text.now ≡ []) (λ r. IsFirstLine text.now r.0.now r.1.now) }
{
    if text.is_empty() {
        return None;
    }
    match memchr(b'\n', text) {
        Some(at) => Some((without_return(&text[..at]), &text[at + 1..])),
        None => Some((text, &text[text.len()..])),
    }
}

// A line without the carriage return at its end.
#[tactic(auto, using(crate::proofs::Lines::return_rules))]
fn without_return(line: &[u8]) -> &[u8]
    ensures { result.now ≡ without_return line.now }
{
    let count = line.len();
    if count == 0 {
        return line;
    }
    if line[count - 1] != b'\r' {
        return line;
    }
    &line[..count - 1]
}
