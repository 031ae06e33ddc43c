//! What runs cycles.
ghost use Rattle.std.specs.Prelude.{◌≡◌, ◌≤◌, ◌<◌, ◌+◌, ℕ, length, IfOk, OnOk};
ghost use Rattle.lines.specs.Gathered.{Writes};
ghost use Rattle.mars_base.specs.Causes.{HasCause};
ghost use Rattle.processor.specs.Results.{AreWords};
ghost use Rattle.cycle_runs.specs.Closing.{WritesFor};
ghost use Rattle.cycle_runs.specs.Cycling.{Cycling, Ongoing};
ghost use Rattle.cycle_runs.specs.declared.ended.CycleEnd.TheVariants.{Clean};

use crate::ended::CycleEnd;
use lines::LineBuf;
use mars_base::{Sink, SinkFault};

/// What runs cycles, one for each line, and writes what they give.
pub trait Cycles {
    /// What a cycle from a state and a line comes to.
    ghost cycling: { Self → Cycling Ongoing };

    /// The state that it has come to.
    ghost now: { Self → Ongoing };

    /// How many words a line has.
    ghost width: { Self → ℕ };

    /// How many cycles it has made.
    ghost number: { Self → ℕ };

    /// It stands at the start of a cycle.
    ghost is_ready: { Self → Type 0 };

    /// How many words a line has.
    fn width(&self) -> u32
        ensures words { result ≡ width self.now }
        ensures few { result ≤ 4096 };

    /// Runs the next cycle with a line, and writes its text. After an `Err` nothing is said of its state.
    fn cycle<O: Sink>(
        &mut self,
        line: &[i32],
        buffer: &mut LineBuf,
        out: &mut O,
    ) -> Result<CycleEnd, SinkFault>
        requires ready { is_ready self.old }
        requires few { number self.old < 1000000 }
        requires line { length line.now ≡ width self.old }
        requires words { AreWords line.now }
        ensures bytes { WritesFor (O.holds out.old) buffer.old ((cycling self.old).text (now self.old) line.now) (O.holds out.new) buffer.new result }
        ensures cause { HasCause (O.faults out.old) (O.faults out.new) result }
        ensures same { OnOk result (cycling self.new ≡ cycling self.old) }
        ensures width { OnOk result (width self.new ≡ width self.old) }
        ensures number { OnOk result (number self.new ≡ number self.old + 1) }
        ensures ended { IfOk result (λ end. end ≡ (cycling self.old).ended (now self.old) line.now) }
        ensures now { OnOk result (now self.new ≡ (cycling self.old).next (now self.old) line.now) }
        ensures ready { IfOk result (λ end. end ≡ Clean → is_ready self.new) };

    /// Writes what stands at the end of the lines.
    fn finish<O: Sink>(&self, buffer: &mut LineBuf, out: &mut O) -> Result<(), SinkFault>
        ensures bytes { Writes (O.holds out.old) buffer.old ((cycling self.now).closing (now self.now)) (O.holds out.new) buffer.new result }
        ensures cause { HasCause (O.faults out.old) (O.faults out.new) result };
}
