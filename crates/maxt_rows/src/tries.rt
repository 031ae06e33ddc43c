//! The free runs of a code, tried one by one.
use mars_base::Memory;
use std::alloc::Global;
use word_code::{Code, Instr, cost};

/// A free run so far: the number of the next instruction, the counters, the return stack, and the cycles.
#[derive(Drop)]
struct Front {
    at: usize,
    counts: Vec<u16>,
    returns: Vec<usize>,
    cycles: u64,
}

impl Front {
    fn copy(&self) -> Result<Front, Memory> {
        Ok(Front {
            at: self.at,
            counts: self.counts.clone()?,
            returns: self.returns.clone()?,
            cycles: self.cycles,
        })
    }

    /// Sets a counter, where it is there.
    fn set(&mut self, counter: u8, count: u16) {
        if let Some(place) = self.counts.get_mut(usize::from(counter)) {
            *place = count;
        }
    }

    fn count(&self, counter: u8) -> u16 {
        match self.counts.get(usize::from(counter)) {
            Some(count) => *count,
            None => 0,
        }
    }
}

/// All free runs that are open, and the greatest cycles of those that came to HALT.
#[derive(Drop)]
struct Tries {
    open: Vec<Front>,
    greatest: Option<u64>,
}

impl Tries {
    /// Takes one step of a free run, either way where there are two.
    fn step(&mut self, instr: &Instr, mut front: Front) -> Result<(), Memory> {
        front.cycles = front.cycles.saturating_add(u64::from(cost(instr)));
        let next = front.at.saturating_add(1);
        match instr {
            Instr::Halt => {
                self.greatest = Some(front.cycles.max(self.greatest.unwrap_or(0)));
                return Ok(());
            }
            Instr::Jz(target) => {
                let mut other = front.copy()?;
                other.at = usize::from(*target);
                self.open.push(other)?;
                front.at = next;
            }
            Instr::Jmp(target) => front.at = usize::from(*target),
            Instr::CZero(counter) => {
                front.set(*counter, 0);
                front.at = next;
            }
            Instr::CInc { counter, bound } => {
                let count = front.count(*counter).saturating_add(1);
                if count > *bound {
                    return Ok(());
                }
                front.set(*counter, count);
                front.at = next;
            }
            Instr::Call(target) => {
                front.returns.push(next)?;
                front.at = usize::from(*target);
            }
            Instr::Ret => {
                let Some(back) = front.returns.pop() else {
                    return Ok(());
                };
                front.at = back;
            }
            _ => front.at = next,
        }
        self.open.push(front)?;
        Ok(())
    }
}

/// The greatest cycles of the free runs that come to HALT, where there is one; only codes with few steps in all their
/// free runs are tried to the end, and `Err` says that there were too many or no memory.
pub fn greatest(alloc: Global, code: &Code) -> Result<Option<u64>, Memory> {
    let start = Front {
        at: 0,
        counts: vec![in alloc; 0u16; 256]?,
        returns: Vec::new(alloc),
        cycles: 0,
    };
    let mut tries = Tries {
        open: Vec::new(alloc),
        greatest: None,
    };
    tries.open.push(start)?;
    for _ in 0..1_000_000 {
        let Some(front) = tries.open.pop() else {
            return Ok(tries.greatest);
        };
        if let Some(slot) = code.instrs.as_slice().get(front.at) {
            tries.step(&slot.instr, front)?;
        }
    }
    Err(Memory)
}
