//! The machine on worked rows: each code runs on a machine of its own.
ghost use Rattle.std.specs.Prelude.{◌≡◌, ◌<◌, ◌^◌, length};
ghost use Rattle.word_code.specs.Cells.{width_of, is_in, is_out, is_state};
ghost use Rattle.processor.specs.Ends.{cycles_in};
ghost use Rattle.processor.specs.Results.{turn_of, outs_in, state_in};
ghost use Rattle.word_code.specs.Typing.{IsVerified};

use crate::{CellShape, Code, Cpu, Instr, Machine, Slot, Turn, Verified};
use mars_base::{Memory, Role};
use sqlite_items::Items;
use std::alloc::Global;
use std::test::Fail;

macro_rules! slots {
    ($($height:literal $instr:expr;)*) => {
        [$(Slot { instr: $instr, height: $height }),*]
    };
}

// Runs a program once under a limit, on any processor. Outputs and state come where it halts.
fn execute<C: Cpu>(
    cpu: &mut C,
    program: &C::Program,
    state: &mut [i32],
    ins: &[i32],
    limit: u32,
    outs: &mut [i32],
) -> (Turn, u32)
    requires state { length state.old ≡ C.states_of program.now }
    requires ins { length ins.now ≡ C.ins_of program.now }
    requires outs { length outs.old ≡ C.outs_of program.now }
    requires limit { limit < 2 ^ 31 }
    ensures turn { result.0 ≡ turn_of (C.execution program.now limit state.old ins.now) }
    ensures cycles { result.1 ≡ cycles_in (C.execution program.now limit state.old ins.now) }
    ensures outs { result.0 ≡ Turn.Halted
        → outs.new ≡ outs_in (C.execution program.now limit state.old ins.now) }
    ensures state { result.0 ≡ Turn.Halted
        → state.new ≡ state_in (C.execution program.now limit state.old ins.now) }
{
    cpu.load(program, state, ins);
    let turn = cpu.advance(program, limit);
    if turn == Turn::Halted {
        cpu.outs(program, outs);
        cpu.state(program, state);
    }
    (turn, cpu.cycles())
}

// Runs code on a machine of its own.
fn run(
    alloc: Global,
    starts: &[u16],
    slots: &[Slot],
    places: u16,
    counters: u16,
    cells: &[CellShape],
    state: &mut [i32],
    ins: &[i32],
    limit: u32,
    outs: &mut [i32],
) -> Result<(Turn, u32), Memory>
    requires verified { IsVerified (record {
      starts = starts.now;
      instrs = slots.now;
      places = places;
      counters = counters;
      cells = cells.now;
    }) }
    requires state { length state.old ≡ width_of is_state cells.now }
    requires ins { length ins.now ≡ width_of is_in cells.now }
    requires outs { length outs.old ≡ width_of is_out cells.now }
    requires limit { limit < 2 ^ 31 }
{
    let code = Code {
        starts: Items::from_slice(alloc, starts)?,
        instrs: Items::from_slice(alloc, slots)?,
        places,
        counters,
        cells: Items::from_slice(alloc, cells)?,
    };
    let program = Verified::from_code(code);
    let mut machine = Machine::new(alloc)?;
    Ok(execute(&mut machine, &program, state, ins, limit, outs))
}

// y = n + 1
const INC: [Slot; 5] = slots! {
    0 Instr::Load(0);
    1 Instr::Push(1);
    2 Instr::Add;
    1 Instr::Store(1);
    0 Instr::Halt;
};

const ONE_TO_ONE: [CellShape; 2] = [
    CellShape {
        role: Role::In,
        width: 1,
    },
    CellShape {
        role: Role::Out,
        width: 1,
    },
];

fn inc(alloc: Global, n: i32, limit: u32) -> Result<(Turn, u32, [i32; 1]), Memory>
    requires { limit < 2 ^ 31 }
{
    let mut outs = [0];
    let (turn, cycles) = run(
        alloc,
        &[0],
        &INC,
        2,
        0,
        &ONE_TO_ONE,
        &mut [],
        &[n],
        limit,
        &mut outs,
    )?;
    Ok((turn, cycles, outs))
}

// y = 0; while max 3 (y < n) { y = y + 1; }
const COUNT: [Slot; 14] = slots! {
    0 Instr::Push(0);
    1 Instr::Store(1);
    0 Instr::CZero(0);
    0 Instr::Load(1);
    1 Instr::Load(0);
    2 Instr::Lt;
    1 Instr::Jz(13);
    0 Instr::CInc { counter: 0, bound: 3 };
    0 Instr::Load(1);
    1 Instr::Push(1);
    2 Instr::Add;
    1 Instr::Store(1);
    0 Instr::Jmp(3);
    0 Instr::Halt;
};

fn count(alloc: Global, n: i32, limit: u32) -> Result<(Turn, u32, [i32; 1]), Memory>
    requires { limit < 2 ^ 31 }
{
    let mut outs = [0];
    let (turn, cycles) = run(
        alloc,
        &[0],
        &COUNT,
        2,
        1,
        &ONE_TO_ONE,
        &mut [],
        &[n],
        limit,
        &mut outs,
    )?;
    Ok((turn, cycles, outs))
}

// A routine that adds 1 to a local of its own and answers it, called twice.
const CALLS: [Slot; 11] = slots! {
    0 Instr::Call(5);
    1 Instr::Store(0);
    0 Instr::Call(5);
    1 Instr::Store(1);
    0 Instr::Halt;
    0 Instr::Load(2);
    1 Instr::Push(1);
    2 Instr::Add;
    1 Instr::Store(2);
    0 Instr::Load(2);
    1 Instr::Ret;
};

const TWO_OUT: [CellShape; 1] = [CellShape {
    role: Role::Out,
    width: 2,
}];

fn calls(alloc: Global) -> Result<(Turn, u32, [i32; 2]), Memory> {
    let mut outs = [0, 0];
    let (turn, cycles) = run(
        alloc,
        &[0, 5],
        &CALLS,
        3,
        0,
        &TWO_OUT,
        &mut [],
        &[],
        100,
        &mut outs,
    )?;
    Ok((turn, cycles, outs))
}

// Moves the first word by the second, up and down, and divides it by that.
const OPERATORS: [Slot; 17] = slots! {
    0 Instr::Load(0);
    1 Instr::Load(1);
    2 Instr::Shl;
    1 Instr::Store(2);
    0 Instr::Load(0);
    1 Instr::Load(1);
    2 Instr::Shr;
    1 Instr::Store(3);
    0 Instr::Load(0);
    1 Instr::Load(1);
    2 Instr::Div;
    1 Instr::Store(4);
    0 Instr::Load(0);
    1 Instr::Load(1);
    2 Instr::Rem;
    1 Instr::Store(5);
    0 Instr::Halt;
};

const TWO_TO_FOUR: [CellShape; 2] = [
    CellShape {
        role: Role::In,
        width: 2,
    },
    CellShape {
        role: Role::Out,
        width: 4,
    },
];

fn operators(alloc: Global, left: i32, right: i32) -> Result<(Turn, u32, [i32; 4]), Memory> {
    let mut outs = [0, 0, 0, 0];
    let (turn, cycles) = run(
        alloc,
        &[0],
        &OPERATORS,
        6,
        0,
        &TWO_TO_FOUR,
        &mut [],
        &[left, right],
        100,
        &mut outs,
    )?;
    Ok((turn, cycles, outs))
}

// Gives a word of an array of three and puts 5 in its place.
const ARRAY: [Slot; 7] = slots! {
    0 Instr::Load(0);
    1 Instr::LoadX { place: 1, width: 3 };
    1 Instr::Store(4);
    0 Instr::Load(0);
    1 Instr::Push(5);
    2 Instr::StoreX { place: 1, width: 3 };
    0 Instr::Halt;
};

const IN_STATE_OUT: [CellShape; 3] = [
    CellShape {
        role: Role::In,
        width: 1,
    },
    CellShape {
        role: Role::State,
        width: 3,
    },
    CellShape {
        role: Role::Out,
        width: 1,
    },
];

fn array(alloc: Global, index: i32) -> Result<(Turn, u32, [i32; 3], [i32; 1]), Memory> {
    let mut state = [7, 8, 9];
    let mut outs = [0];
    let (turn, cycles) = run(
        alloc,
        &[0],
        &ARRAY,
        5,
        0,
        &IN_STATE_OUT,
        &mut state,
        &[index],
        100,
        &mut outs,
    )?;
    Ok((turn, cycles, state, outs))
}

#[test]
fn limits(rt: HostRuntime) -> Result<(), Fail> {
    let alloc = rt.alloc();
    assert_eq!(rt; inc(alloc, 41, 100)?, (Turn::Halted, 7, [42]));
    assert_eq!(rt;
        inc(alloc, 2147483647, 7)?,
        (Turn::Halted, 7, [-2147483648])
    );
    assert_eq!(rt; inc(alloc, 41, 6)?, (Turn::Short, 6, [0]));
    assert_eq!(rt; inc(alloc, 41, 5)?, (Turn::Short, 4, [0]));
    assert_eq!(rt; inc(alloc, 41, 0)?, (Turn::Short, 0, [0]));
    assert_eq!(rt; count(alloc, 3, 60)?, (Turn::Halted, 60, [3]));
    assert_eq!(rt; count(alloc, 3, 59)?, (Turn::Short, 59, [0]));
    assert_eq!(rt; count(alloc, 4, 1000)?, (Turn::Broken, 61, [0]));
    assert_eq!(rt; count(alloc, -1, 1000)?, (Turn::Halted, 12, [0]));
    Ok(())
}

#[test]
fn instructions(rt: HostRuntime) -> Result<(), Fail> {
    let alloc = rt.alloc();
    let least = -2147483648;
    assert_eq!(rt; calls(alloc)?, (Turn::Halted, 33, [1, 2]));
    assert_eq!(rt;
        operators(alloc, least, -1)?,
        (Turn::Halted, 51, [0, -1, least, 0])
    );
    assert_eq!(rt;
        operators(alloc, least, 32)?,
        (Turn::Halted, 51, [least, least, -67108864, 0])
    );
    assert_eq!(rt;
        operators(alloc, -7, 2)?,
        (Turn::Halted, 51, [-28, -2, -3, -1])
    );
    assert_eq!(rt; operators(alloc, 7, 0)?, (Turn::Broken, 30, [0, 0, 0, 0]));
    assert_eq!(rt; array(alloc, 2)?, (Turn::Halted, 16, [7, 8, 5], [9]));
    assert_eq!(rt; array(alloc, 3)?, (Turn::Broken, 6, [7, 8, 9], [0]));
    assert_eq!(rt; array(alloc, -1)?, (Turn::Broken, 6, [7, 8, 9], [0]));
    Ok(())
}
