//! The fields of an image.
ghost use Rattle.std.specs.Prelude.{◌≡◌, ◌++◌, OnOk};
ghost use Rattle.std.specs.Int.{w8};
ghost use Rattle.formats.specs.Format.{counted, number};
ghost use Rattle.formats.specs.Gives.{Gives};
ghost use Rattle.image_tasks.specs.Task.{task};
ghost use Rattle.image_fields.specs.Image.{head, body, image};

use crate::parts::Parts;
use formats::{Unread, put_u8, put_u32, u8_in, u32_in};
use image_parts::{list8_at, list16_at, read_times, shape_at};
use image_tasks::TaskParts;
use mars_base::Memory;
use std::alloc::Global;

// The four bytes of `MARS` as a number.
const MARS: u32 = 1_296_126_547;

#[tactic(auto, unfolding(crate::specs::Image::head))]
fn head_at(bytes: &[u8]) -> Result<(u8, &[u8]), Unread>
    ensures { Gives (λ x. (x.0, x.1.now)) result (head.reads bytes.now) }
{
    let (_mars, rest) = u32_in(bytes, MARS, MARS)?;
    u8_in(rest, 1, 1)
}

/// Writes what an image begins with: `MARS` and the version 1.
#[tactic(auto, unfolding(crate::specs::Image::head))]
pub fn put_head(into: &mut Vec<u8>) -> Result<(), Memory>
    ensures { OnOk result (into.new.items ≡ into.old.items ++ head.writes 1) }
{
    put_u32(MARS, into)?;
    put_u8(1, into)
}

fn tasks_at(alloc: Global, bytes: &[u8]) -> Result<(TaskParts, &[u8]), Unread>
    ensures { Gives (λ x. (x.0, x.1.now)) result ((counted (number w8 1 64) task).reads bytes.now) }
{
    let (count, rest) = u8_in(bytes, 1, 64)?;
    let (tasks, rest) = read_times(alloc, usize::from(count), rest)?;
    Ok((TaskParts::from_vec(tasks), rest))
}

/// Reads all after the version.
#[tactic(auto, unfolding(crate::specs::Image::body, crate::specs::Image::lists))]
pub fn body_at(alloc: Global, bytes: &[u8]) -> Result<(Parts, &[u8]), Unread>
    ensures { Gives (λ x. (x.0, x.1.now)) result (body.reads bytes.now) }
{
    let (shape, rest) = shape_at(bytes)?;
    let (tasks, rest) = tasks_at(alloc, rest)?;
    let (transactions, rest) = list8_at(alloc, rest, 1, 32)?;
    let (edges, rest) = list16_at(alloc, rest, 0, 1024)?;
    let (sensors, rest) = list16_at(alloc, rest, 0, 1024)?;
    let (actuators, rest) = list16_at(alloc, rest, 0, 1024)?;
    let (jobs, rest) = list16_at(alloc, rest, 0, 512)?;
    let (messages, rest) = list16_at(alloc, rest, 0, 65_535)?;
    Ok((
        Parts {
            shape,
            tasks,
            transactions,
            edges,
            sensors,
            actuators,
            jobs,
            messages,
        },
        rest,
    ))
}

/// Reads an image's fields at the front of the bytes.
#[tactic(auto, unfolding(crate::specs::Image::image))]
pub(crate) fn image_at(alloc: Global, bytes: &[u8]) -> Result<(Parts, &[u8]), Unread>
    ensures { Gives (λ x. (x.0, x.1.now)) result (image.reads bytes.now) }
{
    let (_version, rest) = head_at(bytes)?;
    let (parts, rest) = body_at(alloc, rest)?;
    Ok((parts, rest))
}
