//! The machine that runs verified code.
ghost use Rattle.std.specs.Prelude.{◌≡◌, ◌<◌, ◌≤◌, ◌^◌, length, slice_get, Some};
ghost use Rattle.word_code.specs.Typing.{IsVerified};

use crate::load::{copy_outs, copy_state, fill};
use crate::operands::{Operands, Returns};
use crate::places::{Counters, Places};
use crate::registers::{Registers, Went};
use mars_base::Memory;
use processor::{Cpu, Turn};
use std::alloc::Global;
use word_code::{Code, Slot, Verified, cost};

/// A processor of 4,096 words of data, 256 counters, 64 operands and 16 open calls. All its memory is taken
/// when it is made.
#[derive(Drop)]
pub struct Machine {
    registers: Registers,
    pc: usize,
    cycles: u32,
    turn: Turn,
    limit: u32,
}

impl Machine {
    ghost use Rattle.word_code.specs.Course.{IsOnCourse};
    ghost use Rattle.word_machine.specs.Machine.{standing, Stopped};

    /// A machine with no program; what its calls answer before the first `load` is open.
    pub fn new(alloc: Global) -> Result<Machine, Memory> {
        let words = Places::new(alloc)?;
        let counters = Counters::new(alloc)?;
        Ok(Machine {
            registers: Registers {
                stack: Operands::new(),
                words,
                counters,
                returns: Returns::new(),
            },
            pc: 0,
            cycles: 0,
            turn: Turn::Short,
            limit: 0,
        })
    }

    // Does instructions until the next one's cost would pass the limit or the execution is over, and tells how
    // it stands then. The number of the instruction and the cycles are kept apart from the machine meanwhile.
    // The loop stands in a function of its own, so that what each instruction needs has a register.
    #[inline(never)]
    fn run(&mut self, code: &Code, limit: u32) -> Turn
        requires limit { limit < 2 ^ 31 }
        requires verified { IsVerified code.now }
        requires course { IsOnCourse code.now (standing code.now self.old) }
        requires below { self.old.cycles ≤ limit }
        ensures { Stopped code.now limit self.old self.new result }
    {
        let slots = code.instrs.as_slice();
        let mut pc = self.pc;
        let mut cycles = self.cycles;
        loop {
            let slot = slot_at(slots, pc);
            let spent = cycles + cost(&slot.instr);
            if spent > limit {
                return self.stand(pc, cycles, Turn::Short);
            }
            match self
                .registers
                .act(pc, usize::from(slot.height), &slot.instr)
            {
                Went::On(next) => pc = next,
                Went::Halted => return self.stand(pc, spent, Turn::Halted),
                Went::Broken => return self.stand(pc, spent, Turn::Broken),
            }
            cycles = spent;
        }
    }

    // Stands before an instruction after so many cycles.
    #[inline(always)]
    fn stand(&mut self, pc: usize, cycles: u32, turn: Turn) -> Turn
        ensures registers { self.new.registers ≡ self.old.registers }
        ensures pc { self.new.pc ≡ pc }
        ensures cycles { self.new.cycles ≡ cycles }
        ensures turn { result ≡ turn }
    {
        self.pc = pc;
        self.cycles = cycles;
        turn
    }
}

impl Cpu for Machine {
    ghost use Rattle.word_code.specs.Cells.{width_of, is_in, is_out, is_state};
    ghost use Rattle.word_code.specs.Execution.{exec};
    ghost use Rattle.word_machine.specs.Machine.{Runs};
    ghost use Rattle.word_code.specs.Words.{HasWords};
    ghost use Rattle.word_code.proofs.CodeLaws.{ran_within, ran_costs, ran_agrees, ran_prefix};
    ghost use Rattle.word_code.proofs.Results.{ran_sized, ran_words};

    type Program = Verified;

    ghost ins_of = { λ code. width_of is_in code.cells };

    ghost outs_of = { λ code. width_of is_out code.cells };

    ghost states_of = { λ code. width_of is_state code.cells };

    ghost execution = { exec };

    ghost has_words = { HasWords };

    ghost runs = { Runs };

    ghost within = { λ code limit state ins. ran_within code state ins limit };

    ghost costs = { λ code limit state ins. ran_costs code state ins limit };

    ghost agrees = { λ code limit other state ins. ran_agrees code state ins limit other };

    ghost sized = { λ code limit state ins. ran_sized code state ins limit };

    ghost words = { λ code limit state ins. ran_words code state ins limit };

    ghost prefix = { λ code high low state ins. ran_prefix code state ins high low };

    fn load(&mut self, program: &Verified, state: &[i32], ins: &[i32]) {
        let code = program.code();
        fill(&mut self.registers.words, code, state, ins);
        self.registers.counters.reset(usize::from(code.counters));
        self.registers.returns.clear();
        self.pc = 0;
        self.cycles = 0;
        self.turn = Turn::Short;
        self.limit = 0;
    }

    fn advance(&mut self, program: &Verified, limit: u32) -> Turn {
        match self.turn {
            Turn::Halted => return Turn::Halted,
            Turn::Broken => return Turn::Broken,
            Turn::Short => {}
        }
        if limit <= self.limit {
            return Turn::Short;
        }
        let turn = self.run(program.code(), limit);
        self.limit = limit;
        self.turn = turn;
        turn
    }

    fn cycles(&self) -> u32 {
        self.cycles
    }

    fn outs(&self, program: &Verified, into: &mut [i32]) {
        copy_outs(program.code(), self.registers.words.as_slice(), into);
    }

    fn state(&self, program: &Verified, into: &mut [i32]) {
        copy_state(program.code(), self.registers.words.as_slice(), into);
    }
}

// The instruction at a number.
#[inline(always)]
fn slot_at(slots: &[Slot], at: usize) -> &Slot
    requires { at < length slots.now }
    ensures { slice_get slots.now at ≡ Some result.now }
{
    &slots[at]
}
