//! The words that code itself has.
ghost use Rattle.std.specs.Prelude.{All};
ghost use Rattle.word_code.specs.Action.{action_of};
ghost use Rattle.word_code.specs.Words.{PushesWord};
ghost use Rattle.word_code.specs.declared.code.Slot.{Slot};

use crate::{Instr, Slot};

// What a PUSH has is a word, by its type.
fn pushes_word(instr: &Instr)
    ensures { PushesWord (action_of instr.now) }
{
    match instr {
        Instr::Push(word) => {
            let _word = *word;
        }
        Instr::Load(_)
        | Instr::Store(_)
        | Instr::LoadX { .. }
        | Instr::StoreX { .. }
        | Instr::Add
        | Instr::Sub
        | Instr::Mul
        | Instr::Div
        | Instr::Rem
        | Instr::And
        | Instr::Or
        | Instr::Xor
        | Instr::Shl
        | Instr::Shr
        | Instr::Eq
        | Instr::Lt
        | Instr::Le
        | Instr::Neg
        | Instr::Not
        | Instr::Inv
        | Instr::Jmp(_)
        | Instr::Jz(_)
        | Instr::CZero(_)
        | Instr::CInc { .. }
        | Instr::Call(_)
        | Instr::Ret
        | Instr::Halt => {}
    }
}

/// Each PUSH has a word.
pub fn push_words(slots: &[Slot])
    ensures { All (λ (slot : Slot). PushesWord (action_of slot.instr)) slots.now }
{
    for slot in slots {
        pushes_word(&slot.instr);
    }
}
