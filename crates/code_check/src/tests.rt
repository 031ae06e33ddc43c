//! The typing rules on worked rows: each changes code that meets them in one place.
ghost use Rattle.std.specs.Prelude.{◌<◌, ◌^◌, length};

use crate::{CodeFault, verify};
use mars_base::{Memory, Role};
use sqlite_items::Items;
use std::alloc::Global;
use std::test::Fail;
use word_code::{CellShape, Code, Instr, Slot};

macro_rules! slots {
    ($($height:literal $instr:expr;)*) => {
        [$(Slot { instr: $instr, height: $height }),*]
    };
}

const CELLS: [CellShape; 2] = [
    CellShape {
        role: Role::In,
        width: 1,
    },
    CellShape {
        role: Role::Out,
        width: 1,
    },
];

// Where code with an in and an out cell, three places and one counter is refused.
fn refused(alloc: Global, starts: &[u16], slots: &[Slot]) -> Result<Option<u32>, Memory>
    requires { length slots.now < 2 ^ 32 }
{
    let code = Code {
        starts: Items::from_slice(alloc, starts)?,
        instrs: Items::from_slice(alloc, slots)?,
        places: 3,
        counters: 1,
        cells: Items::from_slice(alloc, &CELLS)?,
    };
    match verify(code) {
        Ok(_verified) => Ok(None),
        Err(CodeFault::Bad(at)) => Ok(Some(at)),
    }
}

// A main routine that calls a routine with a loop.
const WHOLE: [Slot; 11] = slots! {
    0 Instr::Call(3);
    1 Instr::Store(1);
    0 Instr::Halt;
    0 Instr::CZero(0);
    0 Instr::Load(0);
    1 Instr::Jz(8);
    0 Instr::CInc { counter: 0, bound: 7 };
    0 Instr::Jmp(4);
    0 Instr::Load(0);
    1 Instr::LoadX { place: 1, width: 2 };
    1 Instr::Ret;
};

// Where the code is refused with one instruction changed.
fn changed(alloc: Global, at: usize, height: u8, instr: Instr) -> Result<Option<u32>, Memory>
    requires { at < 11 }
{
    let mut slots = WHOLE;
    slots[at] = Slot { instr, height };
    refused(alloc, &[0, 3], &slots)
}

#[test]
fn instructions(rt: HostRuntime) -> Result<(), Fail> {
    let alloc = rt.alloc();
    assert_eq!(rt; changed(alloc, 2, 0, Instr::Halt)?, None);
    assert_eq!(rt; changed(alloc, 1, 1, Instr::Store(3))?, Some(1));
    assert_eq!(rt; changed(alloc, 1, 0, Instr::Store(1))?, Some(0));
    assert_eq!(rt; changed(alloc, 2, 0, Instr::Push(1))?, Some(2));
    assert_eq!(rt; changed(alloc, 5, 1, Instr::Jz(9))?, Some(5));
    assert_eq!(rt; changed(alloc, 5, 1, Instr::Jz(2))?, Some(5));
    assert_eq!(rt; changed(alloc, 7, 0, Instr::Jmp(3))?, None);
    assert_eq!(rt; changed(alloc, 3, 0, Instr::CZero(1))?, Some(3));
    assert_eq!(rt;
        changed(alloc, 9, 1, Instr::LoadX { place: 1, width: 3 })?,
        Some(9)
    );
    assert_eq!(rt;
        changed(alloc, 9, 1, Instr::LoadX { place: 1, width: 0 })?,
        Some(9)
    );
    assert_eq!(rt; changed(alloc, 10, 1, Instr::Neg)?, Some(10));
    assert_eq!(rt; changed(alloc, 0, 0, Instr::Call(4))?, Some(0));
    assert_eq!(rt; changed(alloc, 7, 0, Instr::Call(3))?, Some(7));
    assert_eq!(rt; changed(alloc, 8, 65, Instr::Load(0))?, Some(5));
    Ok(())
}

#[test]
fn whole(rt: HostRuntime) -> Result<(), Fail> {
    let alloc = rt.alloc();
    assert_eq!(rt; refused(alloc, &[0, 3], &WHOLE)?, None);
    assert_eq!(rt; refused(alloc, &[0], &[])?, Some(0));
    assert_eq!(rt; refused(alloc, &[], &WHOLE)?, Some(11));
    assert_eq!(rt; refused(alloc, &[3], &WHOLE)?, Some(11));
    assert_eq!(rt; refused(alloc, &[0, 3, 3], &WHOLE)?, Some(11));
    assert_eq!(rt; refused(alloc, &[0, 11], &WHOLE)?, Some(11));
    assert_eq!(rt; refused(alloc, &[0], &WHOLE)?, Some(0));
    Ok(())
}
