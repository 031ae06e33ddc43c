//! Instructions and code.
ghost use Rattle.std.specs.Prelude.{◌≡◌};
ghost use Rattle.word_code.specs.Cost.{cost_of};

use mars_base::Role;
use sqlite_items::Items;

/// An instruction. The top of the stack is the right operand. A place is a number of a word of data, a
/// target a number of an instruction.
#[derive(Clone, Copy, Debug, PartialEq, Eq)]
pub enum Instr {
    /// Pushes the word. 1 cycle.
    Push(i32),
    /// Pushes the word at the place. 2 cycles.
    Load(u16),
    /// Pops the word for the place. 2 cycles.
    Store(u16),
    /// Pops an index, and pushes the word so far behind the place. Breaks where the index isn't at least 0
    /// and below the width. 4 cycles.
    LoadX {
        /// The place of the array's first word.
        place: u16,
        /// How many words the array has.
        width: u16,
    },
    /// Pops a word and then an index, and puts the word so far behind the place. Breaks as `LoadX` does.
    /// 4 cycles.
    StoreX {
        /// The place of the array's first word.
        place: u16,
        /// How many words the array has.
        width: u16,
    },
    /// The sum of two words, which wraps. 1 cycle.
    Add,
    /// The difference of two words, which wraps. 1 cycle.
    Sub,
    /// The product of two words, which wraps. 4 cycles.
    Mul,
    /// The quotient, truncated toward zero. Breaks where the divisor is 0. 12 cycles.
    Div,
    /// The remainder, with the sign of the left word. Breaks where the divisor is 0. 12 cycles.
    Rem,
    /// Both words' bits. 1 cycle.
    And,
    /// Either word's bits. 1 cycle.
    Or,
    /// The bits in which the words differ. 1 cycle.
    Xor,
    /// The left word's bits moved up by the right word's low five bits. 1 cycle.
    Shl,
    /// The left word's bits moved down by the right word's low five bits; the sign fills. 1 cycle.
    Shr,
    /// 1 where the words are equal, else 0. 1 cycle.
    Eq,
    /// 1 where the left word is less, else 0. 1 cycle.
    Lt,
    /// 1 where the left word is less or equal, else 0. 1 cycle.
    Le,
    /// Minus the word, which wraps. 1 cycle.
    Neg,
    /// 1 where the word is 0, else 0. 1 cycle.
    Not,
    /// All bits of the word turned. 1 cycle.
    Inv,
    /// Goes to the target. 1 cycle.
    Jmp(u16),
    /// Pops a word, and goes to the target where it is 0. 2 cycles either way.
    Jz(u16),
    /// Sets the counter to 0. 1 cycle.
    CZero(u8),
    /// Adds 1 to the counter. Breaks where that is above the bound. 2 cycles.
    CInc {
        /// The number of the counter.
        counter: u8,
        /// The greatest count.
        bound: u16,
    },
    /// Pushes the next instruction's number on the return stack and goes to the target. 3 cycles.
    Call(u16),
    /// Goes to the number popped from the return stack. 3 cycles.
    Ret,
    /// Ends. 1 cycle.
    Halt,
}

/// An instruction with the number of operands on the stack before it.
#[derive(Clone, Copy, Debug, PartialEq, Eq)]
pub struct Slot {
    /// The instruction.
    pub instr: Instr,
    /// How many operands are on the stack before it.
    pub height: u8,
}

/// A cell that has its words from the outside or gives them to it: its role, and how many words it has.
#[derive(Clone, Copy, Debug, PartialEq, Eq)]
pub struct CellShape {
    /// What the cell is for.
    pub role: Role,
    /// How many words it has.
    pub width: u16,
}

/// Code: a main routine and the routines that it calls, one after another.
#[derive(Debug, Drop)]
pub struct Code {
    /// The number of each routine's first instruction.
    pub starts: Items<u16>,
    /// The instructions.
    pub instrs: Items<Slot>,
    /// How many words of data there are.
    pub places: u16,
    /// How many counters there are.
    pub counters: u16,
    /// The in, out and state cells, which lie one after another from the first place on.
    pub cells: Items<CellShape>,
}

/// The cycles of an instruction, the same whether it goes on, jumps or breaks.
pub fn cost(instr: &Instr) -> u32
    ensures { result ≡ cost_of instr.now }
{
    match instr {
        Instr::Mul | Instr::LoadX { .. } | Instr::StoreX { .. } => 4,
        Instr::Div | Instr::Rem => 12,
        Instr::Load(_) | Instr::Store(_) | Instr::Jz(_) | Instr::CInc { .. } => 2,
        Instr::Call(_) | Instr::Ret => 3,
        Instr::Push(_)
        | Instr::Add
        | Instr::Sub
        | Instr::And
        | Instr::Or
        | Instr::Xor
        | Instr::Shl
        | Instr::Shr
        | Instr::Eq
        | Instr::Lt
        | Instr::Le
        | Instr::Neg
        | Instr::Not
        | Instr::Inv
        | Instr::Jmp(_)
        | Instr::CZero(_)
        | Instr::Halt => 1,
    }
}
