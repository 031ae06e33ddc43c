//! The rules on one instruction.
ghost use Rattle.std.specs.Prelude.{◌≡◌, ◌↔◌, ◌<◌, ◌≤◌, ◌+◌, ◌^◌, ℕ, IsTrue, IfSome, Contains, length, slice_get, Some, None};
ghost use Rattle.word_code.specs.Action.{action_of};
ghost use Rattle.code_check.specs.Routine.{StandsIn};
ghost use Rattle.word_code.specs.Typing.{IsWhole, JumpFits, CallFits, CallsWell, FlowsOn, IsLast, EndsRoutine, IsTypedAt, height_at, height_after, pops_of};
ghost use Rattle.code_check.specs.Groups.{HasHeights, HasOperands};
ghost use Rattle.word_code.specs.Refused.{IsGoodAt, IsBadAt, IsFirstBad};
ghost use Rattle.std.specs.Bool.{MatchBool};

use crate::kinds::{
    counter_fits, end_fits, ends_routine, flows_on, places_fit, pops_of, pushes_of,
};
use crate::places::{follows, has_start, lands, routine_of};
use crate::routine::Routine;
use word_code::{Code, Instr, Slot};

fn jump_fits(code: &Code, routine: Routine, k: usize, height: u8, instr: &Instr) -> bool
    requires stands { StandsIn code.now routine k }
    ensures { IsTrue result ↔ JumpFits code.now k height (action_of instr.now) }
{
    match instr {
        Instr::Jmp(target) => lands(code, routine, k, *target, height),
        Instr::Jz(target) => lands(code, routine, k, *target, height),
        Instr::Push(_)
        | Instr::Load(_)
        | Instr::Store(_)
        | Instr::LoadX { .. }
        | Instr::StoreX { .. }
        | Instr::Add
        | Instr::Sub
        | Instr::Mul
        | Instr::Div
        | Instr::Rem
        | Instr::And
        | Instr::Or
        | Instr::Xor
        | Instr::Shl
        | Instr::Shr
        | Instr::Eq
        | Instr::Lt
        | Instr::Le
        | Instr::Neg
        | Instr::Not
        | Instr::Inv
        | Instr::CZero(_)
        | Instr::CInc { .. }
        | Instr::Call(_)
        | Instr::Ret
        | Instr::Halt => true,
    }
}

fn calls_well(code: &Code, routine: Routine, k: usize, height: u8, target: usize) -> bool
    requires stands { StandsIn code.now routine k }
    ensures { IsTrue result ↔ CallsWell code.now k height target }
{
    let caller = routine.number_at(code, k);
    let called = routine_of(code, target);
    height == 0
        && follows(code, routine, k, 1)
        && has_start(code.starts.as_slice(), target)
        && 1 <= called
        && (caller == 0 || called < caller)
}

fn call_fits(code: &Code, routine: Routine, k: usize, height: u8, instr: &Instr) -> bool
    requires stands { StandsIn code.now routine k }
    ensures { IsTrue result ↔ CallFits code.now k height (action_of instr.now) }
{
    match instr {
        Instr::Call(target) => calls_well(code, routine, k, height, usize::from(*target)),
        Instr::Push(_)
        | Instr::Load(_)
        | Instr::Store(_)
        | Instr::LoadX { .. }
        | Instr::StoreX { .. }
        | Instr::Add
        | Instr::Sub
        | Instr::Mul
        | Instr::Div
        | Instr::Rem
        | Instr::And
        | Instr::Or
        | Instr::Xor
        | Instr::Shl
        | Instr::Shr
        | Instr::Eq
        | Instr::Lt
        | Instr::Le
        | Instr::Neg
        | Instr::Not
        | Instr::Inv
        | Instr::Jmp(_)
        | Instr::Jz(_)
        | Instr::CZero(_)
        | Instr::CInc { .. }
        | Instr::Ret
        | Instr::Halt => true,
    }
}

fn height_after(slot: &Slot) -> u8
    requires { slot.now.height ≤ 64 }
    ensures { result ≡ height_after slot.now }
{
    slot.height.saturating_sub(pops_of(&slot.instr)) + pushes_of(&slot.instr)
}

fn first_fits(code: &Code, routine: Routine, k: usize, height: u8) -> bool
    requires stands { StandsIn code.now routine k }
    ensures { IsTrue result ↔ (Contains code.now.starts k → height ≡ 0) }
{
    !routine.begins_at(code, k) || height == 0
}

fn next_fits(code: &Code, routine: Routine, k: usize, after: u8, instr: &Instr) -> bool
    requires stands { StandsIn code.now routine k }
    ensures { IsTrue result ↔ (FlowsOn (action_of instr.now) → height_at code.now.instrs (k + 1) ≡ Some after) }
{
    !flows_on(instr) || follows(code, routine, k, after)
}

fn last_fits(code: &Code, routine: Routine, k: usize, instr: &Instr) -> bool
    requires stands { StandsIn code.now routine k }
    ensures { IsTrue result ↔ (IsLast code.now k → EndsRoutine (action_of instr.now)) }
{
    !routine.ends_at(code, k) || ends_routine(instr)
}

fn has_heights(code: &Code, routine: Routine, k: usize, slot: &Slot) -> bool
    requires stands { StandsIn code.now routine k }
    ensures { IsTrue result ↔ HasHeights code.now k slot.now }
{
    if 64 < slot.height {
        return false;
    }
    let after = height_after(slot);
    first_fits(code, routine, k, slot.height)
        && pops_of(&slot.instr) <= slot.height
        && after <= 64
        && next_fits(code, routine, k, after, &slot.instr)
}

fn has_operands(code: &Code, routine: Routine, k: usize, slot: &Slot) -> bool
    requires stands { StandsIn code.now routine k }
    requires height { slot.now.height ≤ 64 }
    ensures { IsTrue result ↔ HasOperands code.now k slot.now }
{
    jump_fits(code, routine, k, height_after(slot), &slot.instr)
        && places_fit(&slot.instr, code.places)
        && counter_fits(&slot.instr, code.counters)
        && call_fits(code, routine, k, slot.height, &slot.instr)
        && end_fits(&slot.instr, routine.number_at(code, k), slot.height)
        && last_fits(code, routine, k, &slot.instr)
}

/// Whether the rules hold for the instruction at a number.
fn is_typed_at(code: &Code, routine: Routine, k: usize, slot: &Slot) -> bool
    requires stands { StandsIn code.now routine k }
    ensures { IsTrue result ↔ IsTypedAt code.now k slot.now }
{
    has_heights(code, routine, k, slot) && has_operands(code, routine, k, slot)
}

/// Whether the rules hold for the instruction at a number, where there is one.
fn is_good_at(code: &Code, routine: Routine, k: usize) -> bool
    requires stands { StandsIn code.now routine k }
    ensures { MatchBool result (IsGoodAt code.now k) (IsBadAt code.now k) }
{
    match code.instrs.get(k) {
        Some(slot) => is_typed_at(code, routine, k, slot),
        None => true,
    }
}

/// The first instruction at which a rule fails. The routine goes along with the instructions.
pub(crate) fn first_bad(code: &Code) -> Option<u32>
    requires { IsWhole code.now }
    ensures none { result ≡ None → (k : ℕ) → k < length code.now.instrs → IsGoodAt code.now k }
    ensures first { IfSome result (IsFirstBad code.now) }
{
    let mut routine = Routine::main(code);
    for k in 0..code.instrs.len() {
        routine = routine.on(code, k);
        if !is_good_at(code, routine, k) {
            return Some(k as u32);
        }
    }
    None
}
