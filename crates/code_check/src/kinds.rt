//! What the rules say of each kind of instruction.
ghost use Rattle.std.specs.Prelude.{◌≡◌, ◌↔◌, ◌<◌, ◌≤◌, ◌+◌, IsTrue};
ghost use Rattle.word_code.specs.Action.{action_of};
ghost use Rattle.word_code.specs.Typing.{pops_of, pushes_of, FlowsOn, PlacesFit, CounterFits, EndFits, EndsRoutine};

use word_code::Instr;

pub(crate) fn pops_of(instr: &Instr) -> u8
    ensures { result ≡ pops_of (action_of instr.now) }
{
    match instr {
        Instr::StoreX { .. }
        | Instr::Add
        | Instr::Sub
        | Instr::Mul
        | Instr::Div
        | Instr::Rem
        | Instr::And
        | Instr::Or
        | Instr::Xor
        | Instr::Shl
        | Instr::Shr
        | Instr::Eq
        | Instr::Lt
        | Instr::Le => 2,
        Instr::Store(_)
        | Instr::LoadX { .. }
        | Instr::Jz(_)
        | Instr::Neg
        | Instr::Not
        | Instr::Inv => 1,
        Instr::Push(_)
        | Instr::Load(_)
        | Instr::Jmp(_)
        | Instr::CZero(_)
        | Instr::CInc { .. }
        | Instr::Call(_)
        | Instr::Ret
        | Instr::Halt => 0,
    }
}

pub(crate) fn pushes_of(instr: &Instr) -> u8
    ensures { result ≡ pushes_of (action_of instr.now) }
{
    match instr {
        Instr::Push(_)
        | Instr::Load(_)
        | Instr::LoadX { .. }
        | Instr::Add
        | Instr::Sub
        | Instr::Mul
        | Instr::Div
        | Instr::Rem
        | Instr::And
        | Instr::Or
        | Instr::Xor
        | Instr::Shl
        | Instr::Shr
        | Instr::Eq
        | Instr::Lt
        | Instr::Le
        | Instr::Neg
        | Instr::Not
        | Instr::Inv => 1,
        Instr::Store(_)
        | Instr::StoreX { .. }
        | Instr::Jmp(_)
        | Instr::Jz(_)
        | Instr::CZero(_)
        | Instr::CInc { .. }
        | Instr::Call(_)
        | Instr::Ret
        | Instr::Halt => 0,
    }
}

pub(crate) fn flows_on(instr: &Instr) -> bool
    ensures { IsTrue result ↔ FlowsOn (action_of instr.now) }
{
    match instr {
        Instr::Jmp(_) | Instr::Call(_) | Instr::Ret | Instr::Halt => false,
        Instr::Push(_)
        | Instr::Load(_)
        | Instr::Store(_)
        | Instr::LoadX { .. }
        | Instr::StoreX { .. }
        | Instr::Add
        | Instr::Sub
        | Instr::Mul
        | Instr::Div
        | Instr::Rem
        | Instr::And
        | Instr::Or
        | Instr::Xor
        | Instr::Shl
        | Instr::Shr
        | Instr::Eq
        | Instr::Lt
        | Instr::Le
        | Instr::Neg
        | Instr::Not
        | Instr::Inv
        | Instr::Jz(_)
        | Instr::CZero(_)
        | Instr::CInc { .. } => true,
    }
}

pub(crate) fn ends_routine(instr: &Instr) -> bool
    ensures { IsTrue result ↔ EndsRoutine (action_of instr.now) }
{
    match instr {
        Instr::Jmp(_) | Instr::Ret | Instr::Halt => true,
        Instr::Push(_)
        | Instr::Load(_)
        | Instr::Store(_)
        | Instr::LoadX { .. }
        | Instr::StoreX { .. }
        | Instr::Add
        | Instr::Sub
        | Instr::Mul
        | Instr::Div
        | Instr::Rem
        | Instr::And
        | Instr::Or
        | Instr::Xor
        | Instr::Shl
        | Instr::Shr
        | Instr::Eq
        | Instr::Lt
        | Instr::Le
        | Instr::Neg
        | Instr::Not
        | Instr::Inv
        | Instr::Jz(_)
        | Instr::CZero(_)
        | Instr::CInc { .. }
        | Instr::Call(_) => false,
    }
}

fn is_array(place: u16, width: u16, places: u16) -> bool
    ensures { IsTrue result ↔ ((1 ≤ width) × (place + width ≤ places)) }
{
    1 <= width && u32::from(place) + u32::from(width) <= u32::from(places)
}

pub(crate) fn places_fit(instr: &Instr, places: u16) -> bool
    ensures { IsTrue result ↔ PlacesFit places (action_of instr.now) }
{
    match instr {
        Instr::Load(place) | Instr::Store(place) => *place < places,
        Instr::LoadX { place, width } | Instr::StoreX { place, width } => is_array(
            *place, *width, places,
        ),
        Instr::Push(_)
        | Instr::Add
        | Instr::Sub
        | Instr::Mul
        | Instr::Div
        | Instr::Rem
        | Instr::And
        | Instr::Or
        | Instr::Xor
        | Instr::Shl
        | Instr::Shr
        | Instr::Eq
        | Instr::Lt
        | Instr::Le
        | Instr::Neg
        | Instr::Not
        | Instr::Inv
        | Instr::Jmp(_)
        | Instr::Jz(_)
        | Instr::CZero(_)
        | Instr::CInc { .. }
        | Instr::Call(_)
        | Instr::Ret
        | Instr::Halt => true,
    }
}

pub(crate) fn counter_fits(instr: &Instr, counters: u16) -> bool
    ensures { IsTrue result ↔ CounterFits counters (action_of instr.now) }
{
    match instr {
        Instr::CZero(counter) => u16::from(*counter) < counters,
        Instr::CInc { counter, .. } => u16::from(*counter) < counters,
        Instr::Push(_)
        | Instr::Load(_)
        | Instr::Store(_)
        | Instr::LoadX { .. }
        | Instr::StoreX { .. }
        | Instr::Add
        | Instr::Sub
        | Instr::Mul
        | Instr::Div
        | Instr::Rem
        | Instr::And
        | Instr::Or
        | Instr::Xor
        | Instr::Shl
        | Instr::Shr
        | Instr::Eq
        | Instr::Lt
        | Instr::Le
        | Instr::Neg
        | Instr::Not
        | Instr::Inv
        | Instr::Jmp(_)
        | Instr::Jz(_)
        | Instr::Call(_)
        | Instr::Ret
        | Instr::Halt => true,
    }
}

pub(crate) fn end_fits(instr: &Instr, routine: usize, height: u8) -> bool
    ensures { IsTrue result ↔ EndFits routine height (action_of instr.now) }
{
    match instr {
        Instr::Ret => 1 <= routine && height == 1,
        Instr::Halt => routine == 0 && height == 0,
        Instr::Push(_)
        | Instr::Load(_)
        | Instr::Store(_)
        | Instr::LoadX { .. }
        | Instr::StoreX { .. }
        | Instr::Add
        | Instr::Sub
        | Instr::Mul
        | Instr::Div
        | Instr::Rem
        | Instr::And
        | Instr::Or
        | Instr::Xor
        | Instr::Shl
        | Instr::Shr
        | Instr::Eq
        | Instr::Lt
        | Instr::Le
        | Instr::Neg
        | Instr::Not
        | Instr::Inv
        | Instr::Jmp(_)
        | Instr::Jz(_)
        | Instr::CZero(_)
        | Instr::CInc { .. }
        | Instr::Call(_) => true,
    }
}
