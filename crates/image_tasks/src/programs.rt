//! A task and its code as fields.
ghost use Rattle.std.specs.Prelude.{◌≡◌, ◌++◌, OnOk};
ghost use Rattle.formats.specs.Gives.{Gives};
ghost use Rattle.image_tasks.specs.Task.{code, task};

use crate::parts::TaskPart;
use formats::{Unread, put_u16, u8_in, u16_in, u32_in};
use image_parts::{Readable, list8_at, list16_at, name_at, put_list8, put_list16};
use mars_base::Memory;
use std::alloc::Global;
use word_code::Code;

/// Reads code.
#[tactic(auto, unfolding(crate::specs::Task::code))]
pub fn code_at(alloc: Global, bytes: &[u8]) -> Result<(Code, &[u8]), Unread>
    ensures { Gives (λ x. (x.0, x.1.now)) result (code.reads bytes.now) }
{
    let (places, rest) = u16_in(bytes, 0, 4096)?;
    let (counters, rest) = u16_in(rest, 0, 256)?;
    let (cells, rest) = list16_at(alloc, rest, 0, 4096)?;
    let (starts, rest) = list8_at(alloc, rest, 1, 17)?;
    let (instrs, rest) = list16_at(alloc, rest, 1, 65_535)?;
    Ok((
        Code {
            starts,
            instrs,
            places,
            counters,
            cells,
        },
        rest,
    ))
}

/// Writes code to the end.
#[tactic(auto, unfolding(crate::specs::Task::code))]
pub fn put_code(program: &Code, into: &mut Vec<u8>) -> Result<(), Memory>
    requires { code.fits program.now }
    ensures { OnOk result (into.new.items ≡ into.old.items ++ code.writes program.now) }
{
    put_u16(program.places, into)?;
    put_u16(program.counters, into)?;
    put_list16(program.cells.as_slice(), into)?;
    put_list8(program.starts.as_slice(), into)?;
    put_list16(program.instrs.as_slice(), into)?;
    Ok(())
}

impl Readable for TaskPart {
    ghost format = { task };

    #[tactic(auto, unfolding(crate::specs::Task::task))]
    fn read(alloc: Global, bytes: &[u8]) -> Result<(TaskPart, &[u8]), Unread> {
        let (name, rest) = name_at(alloc, bytes)?;
        let (transaction, rest) = u8_in(rest, 0, 255)?;
        let (units, rest) = u8_in(rest, 0, 255)?;
        let (maxt, rest) = u32_in(rest, 1, 2_147_483_647)?;
        let (code, rest) = code_at(alloc, rest)?;
        Ok((
            TaskPart {
                name,
                transaction,
                units,
                maxt,
                code,
            },
            rest,
        ))
    }
}
