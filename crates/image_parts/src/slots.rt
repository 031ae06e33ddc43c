//! Instructions as fields.
ghost use Rattle.std.specs.Prelude.{◌≡◌, ◌≤◌, ◌+◌, ◌*◌};
ghost use Rattle.image_parts.specs.Slot.{instr_of, greatest_x, op_of, x_of, slot};

use crate::reading::Readable;
use crate::writing::Writable;
use formats::{Unread, put_u8, put_u32, u8_in, u32_in};
use mars_base::Memory;
use std::alloc::Global;
use word_code::{Instr, Slot};

#[tactic(auto, unfolding(crate::specs::Slot::greatest_x))]
fn greatest_x(op: u8) -> u32
    requires { op ≤ 27 }
    ensures { result ≡ greatest_x op }
{
    let table: [u32; 28] = [
        4_294_967_295,
        65_535,
        65_535,
        4_294_967_295,
        4_294_967_295,
        0,
        0,
        0,
        0,
        0,
        0,
        0,
        0,
        0,
        0,
        0,
        0,
        0,
        0,
        0,
        0,
        65_535,
        65_535,
        255,
        16_777_215,
        65_535,
        0,
        0,
    ];
    table[usize::from(op)]
}

#[tactic(auto, unfolding(crate::specs::Slot::greatest_x, crate::specs::Slot::instr_of))]
fn instr_of(op: u8, x: u32) -> Instr
    requires op { op ≤ 27 }
    requires x { x ≤ greatest_x op }
    ensures { result ≡ instr_of op x }
{
    let high = (x / 65_536) as u16;
    let low = (x % 65_536) as u16;
    match op {
        0 => Instr::Push(x.cast_signed()),
        1 => Instr::Load(low),
        2 => Instr::Store(low),
        3 => Instr::LoadX {
            place: high,
            width: low,
        },
        4 => Instr::StoreX {
            place: high,
            width: low,
        },
        5 => Instr::Add,
        6 => Instr::Sub,
        7 => Instr::Mul,
        8 => Instr::Div,
        9 => Instr::Rem,
        10 => Instr::And,
        11 => Instr::Or,
        12 => Instr::Xor,
        13 => Instr::Shl,
        14 => Instr::Shr,
        15 => Instr::Eq,
        16 => Instr::Lt,
        17 => Instr::Le,
        18 => Instr::Neg,
        19 => Instr::Not,
        20 => Instr::Inv,
        21 => Instr::Jmp(low),
        22 => Instr::Jz(low),
        23 => Instr::CZero(low as u8),
        24 => Instr::CInc {
            counter: high as u8,
            bound: low,
        },
        25 => Instr::Call(low),
        26 => Instr::Ret,
        _ => Instr::Halt,
    }
}

#[tactic(auto, unfolding(crate::specs::Slot::op_of))]
fn op_of(instr: &Instr) -> u8
    ensures { result ≡ op_of instr.now }
{
    match instr {
        Instr::Push(_) => 0,
        Instr::Load(_) => 1,
        Instr::Store(_) => 2,
        Instr::LoadX { .. } => 3,
        Instr::StoreX { .. } => 4,
        Instr::Add => 5,
        Instr::Sub => 6,
        Instr::Mul => 7,
        Instr::Div => 8,
        Instr::Rem => 9,
        Instr::And => 10,
        Instr::Or => 11,
        Instr::Xor => 12,
        Instr::Shl => 13,
        Instr::Shr => 14,
        Instr::Eq => 15,
        Instr::Lt => 16,
        Instr::Le => 17,
        Instr::Neg => 18,
        Instr::Not => 19,
        Instr::Inv => 20,
        Instr::Jmp(_) => 21,
        Instr::Jz(_) => 22,
        Instr::CZero(_) => 23,
        Instr::CInc { .. } => 24,
        Instr::Call(_) => 25,
        Instr::Ret => 26,
        Instr::Halt => 27,
    }
}

fn pair(high: u16, low: u16) -> u32
    ensures { result ≡ high * 65536 + low }
{
    u32::from(high) * 65_536 + u32::from(low)
}

#[tactic(auto, unfolding(crate::specs::Slot::x_of))]
fn x_of(instr: &Instr) -> u32
    ensures { result ≡ x_of instr.now }
{
    match instr {
        Instr::Push(word) => word.cast_unsigned(),
        Instr::Load(place) | Instr::Store(place) => u32::from(*place),
        Instr::LoadX { place, width } | Instr::StoreX { place, width } => pair(*place, *width),
        Instr::Jmp(target) | Instr::Jz(target) | Instr::Call(target) => u32::from(*target),
        Instr::CZero(counter) => u32::from(*counter),
        Instr::CInc { counter, bound } => pair(u16::from(*counter), *bound),
        Instr::Add
        | Instr::Sub
        | Instr::Mul
        | Instr::Div
        | Instr::Rem
        | Instr::And
        | Instr::Or
        | Instr::Xor
        | Instr::Shl
        | Instr::Shr
        | Instr::Eq
        | Instr::Lt
        | Instr::Le
        | Instr::Neg
        | Instr::Not
        | Instr::Inv
        | Instr::Ret
        | Instr::Halt => 0,
    }
}

impl Readable for Slot {
    ghost format = { slot };

    #[tactic(auto, unfolding(crate::specs::Slot::slot))]
    fn read(_alloc: Global, bytes: &[u8]) -> Result<(Slot, &[u8]), Unread> {
        let (op, rest) = u8_in(bytes, 0, 27)?;
        let (height, rest) = u8_in(rest, 0, 64)?;
        let (x, rest) = u32_in(rest, 0, greatest_x(op))?;
        Ok((
            Slot {
                instr: instr_of(op, x),
                height,
            },
            rest,
        ))
    }
}

impl Writable for Slot {
    ghost format = { slot };

    #[tactic(auto, unfolding(crate::specs::Slot::slot))]
    fn write(&self, into: &mut Vec<u8>) -> Result<(), Memory> {
        put_u8(op_of(&self.instr), into)?;
        put_u8(self.height, into)?;
        put_u32(x_of(&self.instr), into)?;
        Ok(())
    }
}
