use crate::{RowFault, run_text};
use mars_base::Role;
use maxt_rows::task_of;
use mc_compile::{CompileFault, compile};
use processor::Turn;
use std::alloc::{AllocError, Global};
use std::test::Fail;
use word_code::{CellShape, Instr, Slot};

macro_rules! slots {
    ($($height:literal $instr:expr;)*) => {
        [$(Slot { instr: $instr, height: $height }),*]
    };
}

fn shape(role: Role, width: u16) -> CellShape {
    CellShape { role, width }
}

/// Whether a text's code is this.
fn has_code(
    alloc: Global,
    text: &[u8],
    starts: &[u16],
    instrs: &[Slot],
    places: u16,
    counters: u16,
    cells: &[CellShape],
) -> bool {
    if text.len() > 65_536 {
        return false;
    }
    let Some(task) = task_of(alloc, text) else {
        return false;
    };
    let Ok(verified) = compile(alloc, &task) else {
        return false;
    };
    let code = verified.code();
    code.starts.as_slice() == starts
        && code.instrs.as_slice() == instrs
        && code.places == places
        && code.counters == counters
        && code.cells.as_slice() == cells
}

const COUNT: &[u8] = b"task count; in n; out y; body { y = 0; while max 3 (y < n) { y = y + 1; } }";

const SEQ: &[u8] =
    b"task seq; in x; out y; body { sequence max 12 { while max 10 (x) { y = y + 1; } while max 10 (x) { y = y / 3; } } }";

const SENSE: &[u8] =
    b"task sense; in x; out y; state ring[4]; state k; body { var i; var sum; ring[k] = x; k = (k + 1) % 4; while max 4 (i < 4) { sum = sum + ring[i]; i = i + 1; } y = sum / 4; }";

const DIFF: &[u8] = b"task diff; in x; out y; func f(a, b) { return a - b; } body { y = f(x, 2); }";

const CTL: &[u8] =
    b"task ctl; in m; out u; state acc; body { acc = acc + m - 50; if (acc > 100) { acc = 100; } else { if (acc < 0) { acc = 0; } } u = (acc + 3 * m) / 8; }";

#[test]
fn a_while_has_its_counter_its_test_and_a_jump_back(rt: HostRuntime) {
    let instrs = slots! {
        0 Instr::Push(0);
        1 Instr::Store(1);
        0 Instr::CZero(0);
        0 Instr::Load(1);
        1 Instr::Load(0);
        2 Instr::Lt;
        1 Instr::Jz(13);
        0 Instr::CInc { counter: 0, bound: 3 };
        0 Instr::Load(1);
        1 Instr::Push(1);
        2 Instr::Add;
        1 Instr::Store(1);
        0 Instr::Jmp(3);
        0 Instr::Halt;
    };
    let cells = [shape(Role::In, 1), shape(Role::Out, 1)];
    assert!(rt; has_code(rt.alloc(), COUNT, &[0], &instrs, 2, 1, &cells));
}

#[test]
fn a_sequence_counts_behind_each_of_its_loops(rt: HostRuntime) {
    let instrs = slots! {
        0 Instr::CZero(0);
        0 Instr::CZero(1);
        0 Instr::Load(0);
        1 Instr::Jz(11);
        0 Instr::CInc { counter: 1, bound: 10 };
        0 Instr::CInc { counter: 0, bound: 12 };
        0 Instr::Load(1);
        1 Instr::Push(1);
        2 Instr::Add;
        1 Instr::Store(1);
        0 Instr::Jmp(2);
        0 Instr::CZero(2);
        0 Instr::Load(0);
        1 Instr::Jz(21);
        0 Instr::CInc { counter: 2, bound: 10 };
        0 Instr::CInc { counter: 0, bound: 12 };
        0 Instr::Load(1);
        1 Instr::Push(3);
        2 Instr::Div;
        1 Instr::Store(1);
        0 Instr::Jmp(12);
        0 Instr::Halt;
    };
    let cells = [shape(Role::In, 1), shape(Role::Out, 1)];
    assert!(rt; has_code(rt.alloc(), SEQ, &[0], &instrs, 2, 3, &cells));
}

#[test]
fn arrays_and_states(rt: HostRuntime) {
    let instrs = slots! {
        0 Instr::Load(6);
        1 Instr::Load(0);
        2 Instr::StoreX { place: 2, width: 4 };
        0 Instr::Load(6);
        1 Instr::Push(1);
        2 Instr::Add;
        1 Instr::Push(4);
        2 Instr::Rem;
        1 Instr::Store(6);
        0 Instr::CZero(0);
        0 Instr::Load(7);
        1 Instr::Push(4);
        2 Instr::Lt;
        1 Instr::Jz(25);
        0 Instr::CInc { counter: 0, bound: 4 };
        0 Instr::Load(8);
        1 Instr::Load(7);
        2 Instr::LoadX { place: 2, width: 4 };
        2 Instr::Add;
        1 Instr::Store(8);
        0 Instr::Load(7);
        1 Instr::Push(1);
        2 Instr::Add;
        1 Instr::Store(7);
        0 Instr::Jmp(10);
        0 Instr::Load(8);
        1 Instr::Push(4);
        2 Instr::Div;
        1 Instr::Store(1);
        0 Instr::Halt;
    };
    let cells = [
        shape(Role::In, 1),
        shape(Role::Out, 1),
        shape(Role::State, 4),
        shape(Role::State, 1),
    ];
    assert!(rt; has_code(rt.alloc(), SENSE, &[0], &instrs, 9, 1, &cells));
}

#[test]
fn parameters_are_stored_from_the_last_to_the_first(rt: HostRuntime) {
    let instrs = slots! {
        0 Instr::Load(0);
        1 Instr::Push(2);
        2 Instr::Store(3);
        1 Instr::Store(2);
        0 Instr::Call(7);
        1 Instr::Store(1);
        0 Instr::Halt;
        0 Instr::Load(2);
        1 Instr::Load(3);
        2 Instr::Sub;
        1 Instr::Ret;
    };
    let cells = [shape(Role::In, 1), shape(Role::Out, 1)];
    assert!(rt; has_code(rt.alloc(), DIFF, &[0, 7], &instrs, 4, 0, &cells));
}

/// Texts with a state and inputs, and what an execution gives: the outputs, the state, and the cycles by the
/// costs of its instructions.
#[test]
fn executions_that_halt(rt: HostRuntime) {
    let alloc = rt.alloc();
    let rows: [(&[u8], &[i32], &[i32], &[i32], &[i32], u32); 16] = [
        (
            b"task inc; in a; out y; body { y = a + 1; }",
            &[],
            &[41],
            &[42],
            &[],
            7,
        ),
        (COUNT, &[], &[3], &[3], &[], 60),
        (COUNT, &[], &[0], &[0], &[], 12),
        (SEQ, &[], &[0], &[0], &[], 12),
        (SENSE, &[0, 0, 0, 0, 0], &[8], &[2], &[8, 0, 0, 0, 1], 156),
        (SENSE, &[8, 4, 6, 2, 3], &[10], &[7], &[8, 4, 6, 10, 0], 156),
        (DIFF, &[], &[1], &[-1], &[], 21),
        (CTL, &[0], &[60], &[23], &[10], 48),
        (CTL, &[0], &[200], &[87], &[100], 46),
        (CTL, &[0], &[10], &[3], &[0], 51),
        (
            b"task act; in u; out p; body { p = u; if (u < 0) { p = 0; } }",
            &[],
            &[-3],
            &[0],
            &[],
            14,
        ),
        (
            b"task act; in u; out p; body { p = u; if (u < 0) { p = 0; } }",
            &[],
            &[5],
            &[5],
            &[],
            11,
        ),
        (
            b"task inv; in a; out y; body { y = 10 / a; }",
            &[],
            &[5],
            &[2],
            &[],
            18,
        ),
        (
            b"task again; in x; out y; body { var i; while max 3 (i < x) { scope M max 1 { mark M; y = y + 1; } i = i + 1; } }",
            &[],
            &[3],
            &[3],
            &[],
            84,
        ),
        (
            b"task trap; in x; out y; body { scope M max 0 { if (x) { y = 1 / x; mark M; } } y = x; }",
            &[],
            &[0],
            &[0],
            &[],
            10,
        ),
        (
            b"task deep; in x; out y; body { var j; scope M max 1000 { while max 60000 (x) { while max 30 (j) { if (x) { mark M; y = x / 3; } } } } }",
            &[],
            &[0],
            &[0],
            &[],
            7,
        ),
    ];
    for (text, state, ins, outs, left, cycles) in rows {
        let halts = text.len() <= 65_536
            && match run_text(alloc, text, state, ins) {
                Ok(ran) => {
                    ran.turn == Turn::Halted
                        && ran.outs.as_slice() == outs
                        && ran.state.as_slice() == left
                        && ran.cycles == cycles
                }
                Err(_fault) => false,
            };
        assert!(rt; halts, "{cycles}");
    }
}

#[test]
fn executions_that_break(rt: HostRuntime) {
    let alloc = rt.alloc();
    let rows: [(&[u8], &[i32]); 7] = [
        (COUNT, &[4]),
        (SEQ, &[1]),
        (b"task both; out y; body { y = 1 / 0 && 0; }", &[]),
        (b"task swap; out y; body { y = 0 && 1 / 0; }", &[]),
        (b"task inv; in a; out y; body { y = 10 / a; }", &[0]),
        (
            b"task nopath; in x; out y; body { scope M max 0 { mark M; } }",
            &[1],
        ),
        (
            b"task trap; in x; out y; body { scope M max 0 { if (x) { y = 1 / x; mark M; } } y = x; }",
            &[1],
        ),
    ];
    for (text, ins) in rows {
        let breaks = text.len() <= 65_536
            && match run_text(alloc, text, &[], ins) {
                Ok(ran) => ran.turn == Turn::Broken,
                Err(_fault) => false,
            };
        assert!(rt; breaks);
    }
}

fn append(text: &mut Vec<u8>, bytes: &[u8]) -> Result<(), AllocError> {
    for byte in bytes {
        text.push(*byte)?;
    }
    Ok(())
}

/// `y=a>a>..>a;` with so many operators, of three instructions each.
fn append_chain(text: &mut Vec<u8>, operators: u16) -> Result<(), AllocError> {
    append(text, b"y=a")?;
    for _ in 0..operators {
        append(text, b">a")?;
    }
    append(text, b";")
}

/// How the compiling of a task with such chains ends: with the number of instructions, or why not.
fn chains(alloc: Global, full: u16, rest: &[u16]) -> Result<usize, RowFault> {
    let mut text = Vec::new(alloc);
    append(&mut text, b"task long; in a; out y; body {")?;
    for _ in 0..full {
        append_chain(&mut text, 255)?;
    }
    for operators in rest {
        append_chain(&mut text, *operators)?;
    }
    append(&mut text, b"}")?;
    if text.len() > 65_536 {
        return Err(RowFault::NoTask);
    }
    let Some(task) = task_of(alloc, &text) else {
        return Err(RowFault::NoTask);
    };
    match compile(alloc, &task) {
        Ok(code) => Ok(code.code().instrs.len()),
        Err(fault) => Err(RowFault::NoCode(fault)),
    }
}

/// A chain of 255 operators takes 767 instructions with its store, and HALT takes one.
#[test]
fn code_of_65535_instructions_and_longer(rt: HostRuntime) -> Result<(), Fail> {
    let alloc = rt.alloc();
    let longest = chains(alloc, 85, &[111, 0, 0]);
    assert!(rt; matches!(longest, Ok(65_535)));
    let one_more = chains(alloc, 85, &[112, 0]);
    assert!(rt;
        matches!(
            one_more,
            Err(RowFault::NoCode(CompileFault::CodeTooLong(65_536)))
        )
    );
    let long = chains(alloc, 86, &[]);
    assert!(rt;
        matches!(
            long,
            Err(RowFault::NoCode(CompileFault::CodeTooLong(65_963)))
        )
    );
    Ok(())
}
