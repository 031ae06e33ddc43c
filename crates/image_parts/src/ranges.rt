//! Each instruction has its numbers in their types' ranges, and so comes back from its fields.
ghost use Rattle.std.specs.Prelude.{◌≡◌, ◌≤◌, All};
ghost use Rattle.image_parts.specs.Slot.{instr_of, op_of, x_of, greatest_x, slot};
ghost use Rattle.word_code.specs.declared.code.Slot.{Slot};

use word_code::{Instr, Slot};

#[tactic(auto, unfolding(crate::specs::Slot::instr_of, crate::specs::Slot::op_of, crate::specs::Slot::x_of, crate::specs::Slot::greatest_x))]
pub(crate) fn is_back(instr: &Instr)
    ensures back { instr_of (op_of instr.now) (x_of instr.now) ≡ instr.now }
    ensures op { op_of instr.now ≤ 27 }
    ensures small { x_of instr.now ≤ greatest_x (op_of instr.now) }
{
    match instr {
        Instr::Push(word) => {
            let _word = *word;
        }
        Instr::Load(n) => {
            let _n = *n;
        }
        Instr::Store(n) => {
            let _n = *n;
        }
        Instr::LoadX { place, width } => {
            let _place = *place;
            let _width = *width;
        }
        Instr::StoreX { place, width } => {
            let _place = *place;
            let _width = *width;
        }
        Instr::Add => {}
        Instr::Sub => {}
        Instr::Mul => {}
        Instr::Div => {}
        Instr::Rem => {}
        Instr::And => {}
        Instr::Or => {}
        Instr::Xor => {}
        Instr::Shl => {}
        Instr::Shr => {}
        Instr::Eq => {}
        Instr::Lt => {}
        Instr::Le => {}
        Instr::Neg => {}
        Instr::Not => {}
        Instr::Inv => {}
        Instr::Jmp(n) => {
            let _n = *n;
        }
        Instr::Jz(n) => {
            let _n = *n;
        }
        Instr::CZero(n) => {
            let _n = *n;
        }
        Instr::CInc { counter, bound } => {
            let _counter = *counter;
            let _bound = *bound;
        }
        Instr::Call(n) => {
            let _n = *n;
        }
        Instr::Ret => {}
        Instr::Halt => {}
    }
}

#[tactic(auto, unfolding(crate::specs::Slot::slot))]
fn slot_fits(s: &Slot)
    requires { s.now.height ≤ 64 }
    ensures { slot.fits s.now }
{
    is_back(&s.instr);
}

/// Each instruction at a height of at most 64 has a form.
pub fn slots_fit(slots: &[Slot])
    requires { All (λ (s : Slot). s.height ≤ 64) slots.now }
    ensures { All slot.fits slots.now }
{
    for s in slots {
        slot_fits(s);
    }
}
