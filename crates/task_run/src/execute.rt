//! One execution of a task's code.
ghost use Rattle.std.specs.Prelude.{◌≡◌, ◌<◌, ◌≤◌, ◌^◌, length, MatchOption};
ghost use Rattle.mc_tree.specs.Instance.{Gives, Breaks, is_in, is_out, is_state, width_of, instance_of};
ghost use Rattle.mc_tree.specs.Plain.{plain_task};
ghost use Rattle.mc_compile.specs.Follows.{RunsAs};
ghost use Rattle.processor.specs.Ends.{cycles_in};
ghost use Rattle.processor.specs.Results.{AreWords};

use mc_tree::Task;
use processor::{Cpu, Turn};

/// Runs one instance under the bound: its outputs and its new state are put in their places and its cycles
/// answered, or None exactly where it breaks, with the state as it was.
pub fn execute<C: Cpu>(
    cpu: &mut C,
    task: &Task,
    program: &C::Program,
    maxt: u32,
    state: &mut [i32],
    ins: &[i32],
    outs: &mut [i32],
) -> Option<u32>
    requires small { maxt < 2 ^ 31 }
    requires follows { RunsAs (plain_task task.now) maxt (C.execution program.now maxt) }
    requires in_words { C.ins_of program.now ≡ width_of is_in (plain_task task.now).cells }
    requires out_words { C.outs_of program.now ≡ width_of is_out (plain_task task.now).cells }
    requires state_words { C.states_of program.now ≡ width_of is_state (plain_task task.now).cells }
    requires state { length state.old ≡ width_of is_state (plain_task task.now).cells }
    requires ins { length ins.now ≡ width_of is_in (plain_task task.now).cells }
    requires outs { length outs.old ≡ width_of is_out (plain_task task.now).cells }
    requires state_fits { AreWords state.old }
    requires ins_fit { AreWords ins.now }
    ensures state_fits { AreWords state.new }
    ensures does { MatchOption result
        ((instance_of (plain_task task.now) state.old ins.now ≡ Breaks) × (state.new ≡ state.old))
        (λ cycles. (instance_of (plain_task task.now) state.old ins.now ≡ Gives state.new outs.new)
        × (cycles ≡ cycles_in (C.execution program.now maxt state.old ins.now))) }
{
    cpu.load(program, state, ins);
    if cpu.advance(program, maxt) != Turn::Halted {
        return None;
    }
    cpu.outs(program, outs);
    cpu.state(program, state);
    Some(cpu.cycles())
}
