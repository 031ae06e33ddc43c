//! The job in hand at a tick.
ghost use Rattle.std.specs.Prelude.{◌≡◌, ◌<◌, ◌≤◌, ◌*◌, ◌^◌, ℕ, ℤ, List, min};
ghost use Rattle.processor.specs.Results.{turn_of};
ghost use Rattle.replica_job.specs.Hand.{limit_of, InHand};

use processor::{Cpu, Turn};

/// The cycles that a job may have taken after so many of its ticks: those of the ticks, and never more than its
/// greatest number.
pub fn limit_after(maxt: u32, ticks: u32, cycles_per_tick: u16) -> u32
    ensures { result ≡ limit_of maxt ticks cycles_per_tick }
{
    u64::from(maxt).min(u64::from(ticks) * u64::from(cycles_per_tick)) as u32
}

/// Runs the job in hand as far as a limit of cycles allows that is no less than the one before, and tells how its
/// execution stands.
pub fn run_to<C: Cpu>(cpu: &mut C, program: &C::Program, limit: u32) -> Turn
    requires limit { limit < 2 ^ 31 }
    requires hand { (state ins : List ℤ) × InHand C.runs cpu.old program.now state ins limit }
    ensures runs { (state ins : List ℤ) → InHand C.runs cpu.old program.now state ins limit
        → C.runs cpu.new program.now state ins limit }
    ensures turn { (state ins : List ℤ) → InHand C.runs cpu.old program.now state ins limit
        → result ≡ turn_of (C.execution program.now limit state ins) }
{
    cpu.advance(program, limit)
}
