//! Where an instruction stands.
ghost use Rattle.std.specs.Prelude.{◌≡◌, ◌↔◌, ◌<◌, ◌≤◌, ◌+◌, ◌^◌, IsTrue, Contains, length, count_by, nat_le, Some};
ghost use Rattle.code_check.specs.Routine.{StandsIn};
ghost use Rattle.word_code.specs.Typing.{height_at, routine_of, Lands};

use crate::routine::Routine;
use word_code::{Code, Slot};

pub(crate) fn has_start(starts: &[u16], k: usize) -> bool
    ensures { IsTrue result ↔ Contains starts.now k }
{
    starts.iter().any(|start| usize::from(*start) == k)
}

fn starts_to(starts: &[u16], k: usize) -> usize
    ensures { result ≡ count_by (λ start. nat_le start k) starts.now }
{
    starts
        .iter()
        .filter(|start| usize::from(**start) <= k)
        .count()
}

/// The routine of an instruction.
pub(crate) fn routine_of(code: &Code, k: usize) -> usize
    ensures { result ≡ routine_of code.now.starts k }
{
    starts_to(code.starts.as_slice(), k).saturating_sub(1)
}

pub(crate) fn height_at(instrs: &[Slot], k: usize) -> Option<u8>
    ensures { result ≡ height_at instrs.now k }
{
    match instrs.get(k) {
        Some(slot) => Some(slot.height),
        None => None,
    }
}

pub(crate) fn is_height_at(code: &Code, k: usize, height: u8) -> bool
    ensures { IsTrue result ↔ (height_at code.now.instrs k ≡ Some height) }
{
    match height_at(code.instrs.as_slice(), k) {
        Some(other) => other == height,
        None => false,
    }
}

/// Whether the next instruction has a height.
pub(crate) fn follows(code: &Code, routine: Routine, k: usize, height: u8) -> bool
    requires { StandsIn code.now routine k }
    ensures { IsTrue result ↔ (height_at code.now.instrs (k + 1) ≡ Some height) }
{
    is_height_at(code, k + 1, height)
}

fn lands_at(code: &Code, routine: Routine, k: usize, target: usize, height: u8) -> bool
    requires { StandsIn code.now routine k }
    ensures { IsTrue result ↔ Lands code.now k target height }
{
    is_height_at(code, target, height) && routine.has(code, k, target)
}

pub(crate) fn lands(code: &Code, routine: Routine, k: usize, target: u16, height: u8) -> bool
    requires { StandsIn code.now routine k }
    ensures { IsTrue result ↔ Lands code.now k target height }
{
    lands_at(code, routine, k, usize::from(target), height)
}
