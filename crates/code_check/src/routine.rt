//! The routine that an instruction stands in.
ghost use Rattle.std.specs.Prelude.{◌≡◌, ◌↔◌, ◌<◌, ◌≤◌, ◌+◌, IsTrue, Contains, length};
ghost use Rattle.code_check.specs.Ends.{EndsAt};
ghost use Rattle.word_code.specs.Typing.{IsWhole, IsLast, routine_of};

use word_code::Code;

/// A routine: its number, the number of its first instruction, and that of the instruction behind its last.
#[derive(Clone, Copy)]
pub struct Routine {
    /// The number of the routine.
    pub number: usize,
    /// The number of its first instruction.
    pub first: usize,
    /// The number of the instruction behind its last.
    pub end: usize,
}

// Where the routine of a number ends: at the next start, or with the code.
fn end_of(code: &Code, number: usize) -> usize
    requires { number < 17 }
    ensures { EndsAt code.now number result }
{
    match code.starts.get(number + 1) {
        Some(start) => usize::from(*start),
        None => code.instrs.len(),
    }
}

impl Routine {
    ghost use Rattle.code_check.specs.Routine.{IsRoutine, StandsIn};

    /// The first routine.
    pub fn main(code: &Code) -> Routine
        requires { IsWhole code.now }
        ensures routine { IsRoutine code.now result }
        ensures first { result.first ≡ 0 }
    {
        Routine {
            number: 0,
            first: 0,
            end: end_of(code, 0),
        }
    }

    /// The routine of the next instruction: the same, or the next where this one ends.
    pub fn on(self, code: &Code, k: usize) -> Routine
        requires whole { IsWhole code.now }
        requires routine { IsRoutine code.now self }
        requires after { self.first ≤ k }
        requires before { k ≤ self.end }
        requires stands { k < length code.now.instrs }
        ensures { StandsIn code.now result k }
    {
        if k < self.end {
            return self;
        }
        let number = self.number + 1;
        Routine {
            number,
            first: k,
            end: end_of(code, number),
        }
    }

    /// The number of the routine of an instruction.
    pub fn number_at(self, code: &Code, k: usize) -> usize
        requires { StandsIn code.now self k }
        ensures { result ≡ routine_of code.now.starts k }
    {
        self.number
    }

    /// Whether a routine begins at an instruction.
    pub fn begins_at(self, code: &Code, k: usize) -> bool
        requires { StandsIn code.now self k }
        ensures { IsTrue result ↔ Contains code.now.starts k }
    {
        k == self.first
    }

    /// Whether an instruction is the last of its routine.
    pub fn ends_at(self, code: &Code, k: usize) -> bool
        requires { StandsIn code.now self k }
        ensures { IsTrue result ↔ IsLast code.now k }
    {
        k + 1 == self.end
    }

    /// Whether another instruction stands in the same routine.
    pub fn has(self, code: &Code, k: usize, target: usize) -> bool
        requires { StandsIn code.now self k }
        ensures { target < length code.now.instrs
            → (IsTrue result ↔ (routine_of code.now.starts target ≡ routine_of code.now.starts k)) }
    {
        self.first <= target && target < self.end
    }
}
