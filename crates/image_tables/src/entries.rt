//! The fields of a job's entry and of a message's.
ghost use Rattle.std.specs.Prelude.{◌≡◌, ◌++◌, OnOk};
ghost use Rattle.formats.specs.Gives.{Gives};
ghost use Rattle.image_tables.specs.Entries.{job, message};

use formats::{Unread, put_u8, put_u16, put_u32, u8_in, u16_in, u32_in};
use image_parts::{Readable, Writable};
use mars_base::Memory;
use std::alloc::Global;

/// The fields of a job's entry. None of them is refused by itself.
#[derive(Clone, Copy, Debug, PartialEq, Eq)]
pub struct JobPart {
    /// The number of the job's task.
    pub task: u8,
    /// The number of its instance.
    pub instance: u16,
    /// The unit that runs it.
    pub unit: u8,
    /// The tick at which it starts.
    pub start: u32,
    /// The first tick after it.
    pub end: u32,
}

/// The fields of a message's entry. None of them is refused by itself.
#[derive(Clone, Copy, Debug, PartialEq, Eq)]
pub struct MessagePart {
    /// The number of the edge.
    pub edge: u16,
    /// The number of the instance.
    pub instance: u16,
    /// The unit that sends it.
    pub unit: u8,
    /// The round in whose frame it goes.
    pub round: u16,
    /// The word of the frame at which it begins.
    pub offset: u8,
}

impl Readable for JobPart {
    ghost format = { job };

    #[tactic(auto, unfolding(crate::specs::Entries::job))]
    fn read(_alloc: Global, bytes: &[u8]) -> Result<(JobPart, &[u8]), Unread> {
        let (task, rest) = u8_in(bytes, 0, 255)?;
        let (instance, rest) = u16_in(rest, 0, 65_535)?;
        let (unit, rest) = u8_in(rest, 0, 255)?;
        let (start, rest) = u32_in(rest, 0, 4_294_967_295)?;
        let (end, rest) = u32_in(rest, 0, 4_294_967_295)?;
        Ok((
            JobPart {
                task,
                instance,
                unit,
                start,
                end,
            },
            rest,
        ))
    }
}

impl Writable for JobPart {
    ghost format = { job };

    #[tactic(auto, unfolding(crate::specs::Entries::job))]
    fn write(&self, into: &mut Vec<u8>) -> Result<(), Memory> {
        put_u8(self.task, into)?;
        put_u16(self.instance, into)?;
        put_u8(self.unit, into)?;
        put_u32(self.start, into)?;
        put_u32(self.end, into)?;
        Ok(())
    }
}

impl Readable for MessagePart {
    ghost format = { message };

    #[tactic(auto, unfolding(crate::specs::Entries::message))]
    fn read(_alloc: Global, bytes: &[u8]) -> Result<(MessagePart, &[u8]), Unread> {
        let (edge, rest) = u16_in(bytes, 0, 65_535)?;
        let (instance, rest) = u16_in(rest, 0, 65_535)?;
        let (unit, rest) = u8_in(rest, 0, 255)?;
        let (round, rest) = u16_in(rest, 0, 65_535)?;
        let (offset, rest) = u8_in(rest, 0, 255)?;
        Ok((
            MessagePart {
                edge,
                instance,
                unit,
                round,
                offset,
            },
            rest,
        ))
    }
}

impl Writable for MessagePart {
    ghost format = { message };

    #[tactic(auto, unfolding(crate::specs::Entries::message))]
    fn write(&self, into: &mut Vec<u8>) -> Result<(), Memory> {
        put_u16(self.edge, into)?;
        put_u16(self.instance, into)?;
        put_u8(self.unit, into)?;
        put_u16(self.round, into)?;
        put_u8(self.offset, into)?;
        Ok(())
    }
}
