//! The smaller records.
ghost use Rattle.std.specs.Prelude.{◌≡◌, ◌++◌, OnOk};
ghost use Rattle.formats.specs.Gives.{Gives};
ghost use Rattle.image_parts.specs.Records.{shape, transaction, edge, plug, short, cell, role_of, number_of_role};

use crate::names::{name_at, put_name};
use crate::reading::Readable;
use crate::writing::Writable;
use formats::{Unread, put_u8, put_u16, put_u32, u8_in, u16_in, u32_in};
use graph::{Edge, Plug, Transaction};
use mars_base::{ClusterShape, Memory, Role};
use std::alloc::Global;
use word_code::CellShape;

/// Reads a cluster's shape.
#[tactic(auto, unfolding(crate::specs::Records::shape))]
pub fn shape_at(bytes: &[u8]) -> Result<(ClusterShape, &[u8]), Unread>
    ensures { Gives (λ x. (x.0, x.1.now)) result (shape.reads bytes.now) }
{
    let (units, rest) = u8_in(bytes, 1, 8)?;
    let (slot_words, rest) = u8_in(rest, 2, 64)?;
    let (precision, rest) = u8_in(rest, 1, 8)?;
    let (cycles_per_tick, rest) = u16_in(rest, 1, 10_000)?;
    let (round, rest) = u32_in(rest, 1, 65_536)?;
    Ok((
        ClusterShape {
            units,
            slot_words,
            precision,
            cycles_per_tick,
            round,
        },
        rest,
    ))
}

/// Writes a cluster's shape.
#[tactic(auto, unfolding(crate::specs::Records::shape))]
pub fn put_shape(s: ClusterShape, into: &mut Vec<u8>) -> Result<(), Memory>
    ensures { OnOk result (into.new.items ≡ into.old.items ++ shape.writes s) }
{
    put_u8(s.units, into)?;
    put_u8(s.slot_words, into)?;
    put_u8(s.precision, into)?;
    put_u16(s.cycles_per_tick, into)?;
    put_u32(s.round, into)?;
    Ok(())
}

impl Readable for Transaction {
    ghost format = { transaction };

    #[tactic(auto, unfolding(crate::specs::Records::transaction))]
    fn read(alloc: Global, bytes: &[u8]) -> Result<(Transaction, &[u8]), Unread> {
        let (name, rest) = name_at(alloc, bytes)?;
        let (period, rest) = u32_in(rest, 1, 65_536)?;
        let (deadline, rest) = u32_in(rest, 1, 65_536)?;
        Ok((
            Transaction {
                name,
                period,
                deadline,
            },
            rest,
        ))
    }
}

impl Writable for Transaction {
    ghost format = { transaction };

    #[tactic(auto, unfolding(crate::specs::Records::transaction))]
    fn write(&self, into: &mut Vec<u8>) -> Result<(), Memory> {
        put_name(&self.name, into)?;
        put_u32(self.period, into)?;
        put_u32(self.deadline, into)?;
        Ok(())
    }
}

impl Readable for Edge {
    ghost format = { edge };

    #[tactic(auto, unfolding(crate::specs::Records::edge))]
    fn read(_alloc: Global, bytes: &[u8]) -> Result<(Edge, &[u8]), Unread> {
        let (from_task, rest) = u8_in(bytes, 0, 255)?;
        let (from_port, rest) = u8_in(rest, 0, 255)?;
        let (to_task, rest) = u8_in(rest, 0, 255)?;
        let (to_port, rest) = u8_in(rest, 0, 255)?;
        Ok((
            Edge {
                from_task,
                from_port,
                to_task,
                to_port,
            },
            rest,
        ))
    }
}

impl Writable for Edge {
    ghost format = { edge };

    #[tactic(auto, unfolding(crate::specs::Records::edge))]
    fn write(&self, into: &mut Vec<u8>) -> Result<(), Memory> {
        put_u8(self.from_task, into)?;
        put_u8(self.from_port, into)?;
        put_u8(self.to_task, into)?;
        put_u8(self.to_port, into)?;
        Ok(())
    }
}

impl Readable for Plug {
    ghost format = { plug };

    #[tactic(auto, unfolding(crate::specs::Records::plug))]
    fn read(alloc: Global, bytes: &[u8]) -> Result<(Plug, &[u8]), Unread> {
        let (name, rest) = name_at(alloc, bytes)?;
        let (task, rest) = u8_in(rest, 0, 255)?;
        let (port, rest) = u8_in(rest, 0, 255)?;
        Ok((Plug { name, task, port }, rest))
    }
}

impl Writable for Plug {
    ghost format = { plug };

    #[tactic(auto, unfolding(crate::specs::Records::plug))]
    fn write(&self, into: &mut Vec<u8>) -> Result<(), Memory> {
        put_name(&self.name, into)?;
        put_u8(self.task, into)?;
        put_u8(self.port, into)?;
        Ok(())
    }
}

impl Readable for u16 {
    ghost format = { short };

    fn read(_alloc: Global, bytes: &[u8]) -> Result<(u16, &[u8]), Unread> {
        u16_in(bytes, 0, 65_535)
    }
}

impl Writable for u16 {
    ghost format = { short };

    fn write(&self, into: &mut Vec<u8>) -> Result<(), Memory> {
        into.extend_from_slice(&self.to_be_bytes())?;
        Ok(())
    }
}

impl Readable for CellShape {
    ghost format = { cell };

    #[tactic(auto, unfolding(crate::specs::Records::cell))]
    fn read(_alloc: Global, bytes: &[u8]) -> Result<(CellShape, &[u8]), Unread> {
        let (number, rest) = u8_in(bytes, 0, 2)?;
        let (width, rest) = u16_in(rest, 1, 4096)?;
        Ok((
            CellShape {
                role: role_of(number),
                width,
            },
            rest,
        ))
    }
}

impl Writable for CellShape {
    ghost format = { cell };

    #[tactic(auto, unfolding(crate::specs::Records::cell))]
    fn write(&self, into: &mut Vec<u8>) -> Result<(), Memory> {
        put_u8(number_of_role(self.role), into)?;
        put_u16(self.width, into)?;
        Ok(())
    }
}

fn role_of(number: u8) -> Role
    ensures { result ≡ role_of number }
{
    match number {
        0 => Role::In,
        1 => Role::Out,
        _ => Role::State,
    }
}

fn number_of_role(role: Role) -> u8
    ensures { result ≡ number_of_role role }
{
    match role {
        Role::In => 0,
        Role::Out => 1,
        Role::State => 2,
        Role::Local => 3,
    }
}
