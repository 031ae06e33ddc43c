//! The check of code.
ghost use Rattle.std.specs.Prelude.{◌≡◌, ◌<◌, ◌^◌, ℕ, Ok, Err, IfOk, IfErr, IfSome, None, length};
ghost use Rattle.code_check.specs.declared.verdict.CodeFault.TheVariants.{Bad};
ghost use Rattle.word_code.specs.Typing.{IsVerified};
ghost use Rattle.word_code.specs.Refused.{IsRefusedAt};
ghost use Rattle.code_check.specs.Faults.{number_of};

use crate::rules::first_bad;
use crate::whole::is_whole;
use word_code::{Code, Verified};

/// Why code isn't verified.
#[derive(Clone, Copy, Debug, PartialEq, Eq)]
pub enum CodeFault {
    /// The number of instructions where a rule on the whole fails, and else the first instruction at which a
    /// rule fails.
    Bad(u32),
}

/// Where the code breaks a rule, if it does.
fn fault_of(code: &Code) -> Option<u32>
    requires { length code.now.instrs < 2 ^ 32 }
    ensures none { result ≡ None → IsVerified code.now }
    ensures some { IfSome result (IsRefusedAt code.now) }
{
    if !is_whole(code) {
        return Some(code.instrs.len() as u32);
    }
    first_bad(code)
}

/// Code that meets the typing rules, or where it first fails one: the number of its instructions where a rule on
/// the whole fails, and else the first instruction that fails a rule. It takes no memory.
pub fn verify(code: Code) -> Result<Verified, CodeFault>
    requires { length code.instrs < 2 ^ 32 }
    ensures ok { IfOk result (λ verified. (verified ≡ code) × IsVerified code) }
    ensures bad { IfErr result (λ fault. IsRefusedAt code (number_of fault)) }
    ensures verified { IsVerified code → result ≡ Ok code }
    ensures refused { (at : ℕ) → IsRefusedAt code at → result ≡ Err (Bad at) }
{
    match fault_of(&code) {
        None => Ok(Verified::from_code(code)),
        Some(k) => Err(CodeFault::Bad(k)),
    }
}
