//! Code that meets the typing rules.
ghost use Rattle.std.specs.Prelude.{◌≡◌, ◌≤◌, ℕ, ℤ, List, length};
ghost use Rattle.word_code.specs.Cells.{width_of, is_in, is_state};
ghost use Rattle.word_code.specs.Course.{NeverStuck};
ghost use Rattle.word_code.specs.Execution.{Halts};
ghost use Rattle.word_code.specs.Free.{FreeRun};
ghost use Rattle.word_code.specs.Tied.{IsTied};
ghost use Rattle.word_code.specs.Typing.{IsVerified};
ghost use Rattle.word_code.specs.Words.{HasWords};

use crate::Code;
use crate::ranges::push_words;
use std::marker::Model;

/// Verified code, which contracts see as the code.
#[derive(Debug, Drop)]
pub struct Verified {
    code: Code,
}

impl Model for Verified {
    ghost use Rattle.word_code.specs.declared.code.Code.{Code};
    ghost use Rattle.word_code.specs.Typing.{IsVerified};
    ghost use Rattle.word_code.specs.Words.{HasWords};

    ghost Value = { Code };

    ghost view = { λ verified. verified.code };

    ghost invariant = { λ verified. IsVerified verified.code × HasWords verified.code };
}

impl Verified {
    /// Keeps code that meets the typing rules.
    pub fn from_code(code: Code) -> Verified
        requires { IsVerified code }
        ensures { result ≡ code }
    {
        push_words(code.instrs.as_slice());
        Verified { code }
    }

    /// The code. It meets the typing rules, and so no step of it ever lacks an operand, a place, a counter,
    /// a number to return to or an instruction, and its executions under a limit are its runs. An execution that
    /// halts is a free run with the same cycles.
    pub fn code(&self) -> &Code
        ensures value { result.now ≡ self.now }
        ensures verified { IsVerified self.now }
        ensures never_stuck { NeverStuck self.now }
        ensures tied { (state ins : List ℤ) → length state ≡ width_of is_state self.now.cells
            → length ins ≡ width_of is_in self.now.cells → IsTied self.now state ins }
        ensures words { HasWords self.now }
        ensures free { (state ins left outs : List ℤ) (cycles : ℕ) → Halts self.now state ins left outs cycles
            → FreeRun self.now cycles }
    {
        &self.code
    }
}
