//! One instruction on all that an execution has.
ghost use Rattle.std.specs.Prelude.{◌≡◌, ◌+◌, ◌<◌, ◌≤◌, length};
ghost use Rattle.mars_base.specs.Store.{place_of};
ghost use Rattle.word_code.specs.Action.{Pushes, Loads, Stores, LoadsAt, StoresAt, Combines, Changes, Jumps, JumpsIfZero, Clears, Counts, Calls, Returns, action_of};
ghost use Rattle.word_machine.specs.Acts.{IsAble, Acts};

use crate::operands::{Operands, Returns as ReturnStack};
use crate::places::{Counters, Places};
use mars_base::{BinOp, UnOp, binary, unary};
use word_code::Instr;

/// What an execution has before an instruction, but for its number.
#[derive(Drop)]
pub struct Registers {
    /// The words of the operand stack.
    pub stack: Operands,
    /// The words of data.
    pub words: Places,
    /// The counters.
    pub counters: Counters,
    /// The numbers to return to.
    pub returns: ReturnStack,
}

/// How an instruction went.
#[derive(Clone, Copy, Debug, PartialEq, Eq)]
pub enum Went {
    /// On to the instruction at this number.
    On(usize),
    /// It ended the execution.
    Halted,
    /// It broke the execution.
    Broken,
}

impl Registers {
    /// Does the instruction at a number, of this height, which lacks nothing.
    #[inline(always)]
    pub fn act(&mut self, pc: usize, height: usize, instr: &Instr) -> Went
        requires { IsAble (action_of instr.now) pc height self.old }
        ensures { Acts (action_of instr.now) pc height self.old result self.new }
    {
        match instr {
            Instr::Push(word) => self.push(pc, height, *word),
            Instr::Load(place) => self.load(pc, height, *place),
            Instr::Store(place) => self.store(pc, height, *place),
            Instr::LoadX { place, width } => self.load_at(pc, height, *place, *width),
            Instr::StoreX { place, width } => self.store_at(pc, height, *place, *width),
            Instr::Add => self.combine(pc, height, BinOp::Add),
            Instr::Sub => self.combine(pc, height, BinOp::Sub),
            Instr::Mul => self.combine(pc, height, BinOp::Mul),
            Instr::Div => self.combine(pc, height, BinOp::Div),
            Instr::Rem => self.combine(pc, height, BinOp::Rem),
            Instr::And => self.combine(pc, height, BinOp::BitAnd),
            Instr::Or => self.combine(pc, height, BinOp::BitOr),
            Instr::Xor => self.combine(pc, height, BinOp::BitXor),
            Instr::Shl => self.combine(pc, height, BinOp::Shl),
            Instr::Shr => self.combine(pc, height, BinOp::Shr),
            Instr::Eq => self.combine(pc, height, BinOp::Eq),
            Instr::Lt => self.combine(pc, height, BinOp::Lt),
            Instr::Le => self.combine(pc, height, BinOp::Le),
            Instr::Neg => self.change(pc, height, UnOp::Neg),
            Instr::Not => self.change(pc, height, UnOp::Not),
            Instr::Inv => self.change(pc, height, UnOp::Inv),
            Instr::Jmp(target) => Went::On(usize::from(*target)),
            Instr::Jz(target) => self.jump_if_zero(pc, height, target),
            Instr::CZero(counter) => self.clear(pc, height, *counter),
            Instr::CInc { counter, bound } => self.count(pc, height, *counter, *bound),
            Instr::Call(target) => self.call(pc, height, *target),
            Instr::Ret => self.go_back(pc, height),
            Instr::Halt => Went::Halted,
        }
    }

    #[inline(always)]
    fn push(&mut self, pc: usize, height: usize, word: i32) -> Went
        requires { IsAble (Pushes word) pc height self.old }
        ensures { Acts (Pushes word) pc height self.old result self.new }
    {
        self.stack.put(height, word);
        Went::On(pc + 1)
    }

    #[inline(always)]
    fn load(&mut self, pc: usize, height: usize, place: u16) -> Went
        requires { IsAble (Loads place) pc height self.old }
        ensures { Acts (Loads place) pc height self.old result self.new }
    {
        let word = self.words.get(usize::from(place));
        self.stack.put(height, word);
        Went::On(pc + 1)
    }

    #[inline(always)]
    fn store(&mut self, pc: usize, height: usize, place: u16) -> Went
        requires { IsAble (Stores place) pc height self.old }
        ensures { Acts (Stores place) pc height self.old result self.new }
    {
        let word = self.stack.top(height);
        self.words.set(usize::from(place), word);
        Went::On(pc + 1)
    }

    #[inline(always)]
    fn load_at(&mut self, pc: usize, height: usize, place: u16, width: u16) -> Went
        requires { IsAble (LoadsAt place width) pc height self.old }
        ensures { Acts (LoadsAt place width) pc height self.old result self.new }
    {
        let Some(at) = element(place, width, self.stack.top(height)) else {
            return Went::Broken;
        };
        let word = self.words.get(at);
        self.stack.put(height - 1, word);
        Went::On(pc + 1)
    }

    #[inline(always)]
    fn store_at(&mut self, pc: usize, height: usize, place: u16, width: u16) -> Went
        requires { IsAble (StoresAt place width) pc height self.old }
        ensures { Acts (StoresAt place width) pc height self.old result self.new }
    {
        let word = self.stack.top(height);
        let Some(at) = element(place, width, self.stack.top(height - 1)) else {
            return Went::Broken;
        };
        self.words.set(at, word);
        Went::On(pc + 1)
    }

    #[inline(always)]
    fn combine(&mut self, pc: usize, height: usize, op: BinOp) -> Went
        requires { IsAble (Combines op) pc height self.old }
        ensures { Acts (Combines op) pc height self.old result self.new }
    {
        let right = self.stack.top(height);
        let left = self.stack.top(height - 1);
        let Some(word) = binary(op, left, right) else {
            return Went::Broken;
        };
        self.stack.put(height - 2, word);
        Went::On(pc + 1)
    }

    #[inline(always)]
    fn change(&mut self, pc: usize, height: usize, op: UnOp) -> Went
        requires { IsAble (Changes op) pc height self.old }
        ensures { Acts (Changes op) pc height self.old result self.new }
    {
        let word = self.stack.top(height);
        self.stack.put(height - 1, unary(op, word));
        Went::On(pc + 1)
    }

    // The target is read only where it is gone to.
    #[inline(always)]
    fn jump_if_zero(&mut self, pc: usize, height: usize, target: &u16) -> Went
        requires { IsAble (JumpsIfZero target.now) pc height self.old }
        ensures { Acts (JumpsIfZero target.now) pc height self.old result self.new }
    {
        if self.stack.top(height) == 0 {
            Went::On(usize::from(*target))
        } else {
            Went::On(pc + 1)
        }
    }

    #[inline(always)]
    fn clear(&mut self, pc: usize, height: usize, counter: u8) -> Went
        requires { IsAble (Clears counter) pc height self.old }
        ensures { Acts (Clears counter) pc height self.old result self.new }
    {
        self.counters.set(usize::from(counter), 0);
        Went::On(pc + 1)
    }

    #[inline(always)]
    fn count(&mut self, pc: usize, height: usize, counter: u8, bound: u16) -> Went
        requires { IsAble (Counts counter bound) pc height self.old }
        ensures { Acts (Counts counter bound) pc height self.old result self.new }
    {
        let count = self.counters.get(usize::from(counter));
        if count >= bound {
            return Went::Broken;
        }
        self.counters.set(usize::from(counter), count + 1);
        Went::On(pc + 1)
    }

    #[inline(always)]
    fn call(&mut self, pc: usize, height: usize, target: u16) -> Went
        requires { IsAble (Calls target) pc height self.old }
        ensures { Acts (Calls target) pc height self.old result self.new }
    {
        self.returns.push((pc + 1) as u16);
        Went::On(usize::from(target))
    }

    #[inline(always)]
    fn go_back(&mut self, pc: usize, height: usize) -> Went
        requires { IsAble Returns pc height self.old }
        ensures { Acts Returns pc height self.old result self.new }
    {
        Went::On(usize::from(self.returns.pop()))
    }
}

// The place of the element that an index names in an array of this width, if the index is in range.
#[inline(always)]
fn element(place: u16, width: u16, index: i32) -> Option<usize>
    ensures { result ≡ place_of place width index }
{
    if index < 0 || index >= i32::from(width) {
        return None;
    }
    Some(usize::from(place) + index as usize)
}
