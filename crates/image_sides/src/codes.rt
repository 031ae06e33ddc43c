//! Codes verified one after another.
ghost use Rattle.std.specs.Prelude.{◌≡◌, ◌<◌, ◌^◌, IfOk, IfErr, All, length};
ghost use Rattle.word_code.specs.Typing.{IsVerified};
ghost use Rattle.word_code.specs.declared.code.Code.{Code};
ghost use Rattle.image_sides.specs.Faults.{IsCodesFault};

use code_check::verify;
use sqlite_items::Items;
use std::alloc::Global;
use word_code::{Code, Verified};

/// Why codes aren't verified.
#[derive(Clone, Copy, Debug, PartialEq, Eq)]
pub enum CodesFault {
    /// The first code that isn't.
    Code(u16),
    /// There was no memory.
    Memory,
}

/// Keeps all codes as verified, or tells the first that isn't.
pub fn verify_codes(alloc: Global, codes: Vec<Code>) -> Result<Items<Verified>, CodesFault>
    requires few { length codes.items < 2 ^ 16 }
    requires short { All (λ (c : Code). length c.instrs < 2 ^ 32) codes.items }
    ensures ok { IfOk result (λ verified. (verified ≡ codes.items) × All IsVerified codes.items) }
    ensures bad { IfErr result (IsCodesFault codes.items) }
{
    let mut verified = Items::new(alloc);
    for code in codes {
        match verify(code) {
            Ok(good) => match verified.push(good) {
                Ok(()) => {}
                Err(_) => return Err(CodesFault::Memory),
            },
            Err(_) => return Err(CodesFault::Code(verified.len() as u16)),
        }
    }
    Ok(verified)
}
