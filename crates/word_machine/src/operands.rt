//! The operand stack and the return stack.
ghost use Rattle.std.specs.Prelude.{◌≡◌, ◌+◌, ◌-◌, ◌<◌, ◌≤◌, [], ◌∷◌, length};
ghost use Rattle.word_machine.specs.Stack.{operands};

use arrayvec::ArrayVec;
use std::marker::Model;

/// The words of the operand stack. How many of them are operands is the height of the next instruction, which
/// verified code says: nobody counts them.
#[derive(Drop)]
pub struct Operands {
    words: [i32; 64],
}

impl Model for Operands {
    ghost use Rattle.std.specs.Prelude.{◌≡◌, List, ℤ, length};

    ghost Value = { List ℤ };

    ghost view = { λ stack. stack.words };

    ghost invariant = { λ stack. length stack.words ≡ 64 };
}

impl Operands {
    /// A stack of words that are 0.
    pub fn new() -> Operands {
        Operands { words: [0; 64] }
    }

    /// Puts a word onto so many operands.
    #[inline(always)]
    pub fn put(&mut self, height: usize, word: i32)
        requires { height < 64 }
        ensures { operands (height + 1) self.new ≡ word ∷ operands height self.old }
    {
        self.words[height] = word;
    }

    /// The top of so many operands.
    #[inline(always)]
    pub fn top(&self, height: usize) -> i32
        requires some { 0 < height }
        requires most { height ≤ 64 }
        ensures { operands height self.now ≡ result ∷ operands (height - 1) self.now }
    {
        self.words[height - 1]
    }
}

/// At most 16 numbers of instructions to return to, which contracts see as their list with the last first.
#[derive(Drop)]
pub struct Returns {
    numbers: ArrayVec<u16, 16>,
}

impl Model for Returns {
    ghost use Rattle.std.specs.Prelude.{List, ℕ, reverse};

    ghost Value = { List ℕ };

    ghost view = { λ stack. reverse stack.numbers.items };
}

impl Returns {
    /// No call.
    pub fn new() -> Returns
        ensures { result ≡ [] }
    {
        Returns {
            numbers: ArrayVec::new(),
        }
    }

    /// Forgets all calls.
    pub fn clear(&mut self)
        ensures { self.new ≡ [] }
    {
        self.numbers.clear();
    }

    /// Puts the number of one more call on top.
    #[inline(always)]
    pub fn push(&mut self, number: u16)
        requires { length self.old < 16 }
        ensures { self.new ≡ number ∷ self.old }
    {
        self.numbers.push(number);
    }

    /// Takes the number of the last call off.
    #[inline(always)]
    pub fn pop(&mut self) -> u16
        requires { 0 < length self.old }
        ensures { self.old ≡ result ∷ self.new }
    {
        self.numbers.pop().unwrap()
    }
}
