//! What is seen of a job that ends.
ghost use Rattle.std.specs.Prelude.{◌≡◌, ◌≤◌, ◌<◌, ◌+◌, ◌++◌, ℕ, List, ℤ, length};
ghost use Rattle.processor.specs.Ends.{cycles_in, end_under};
ghost use Rattle.processor.specs.Results.{Ran, turn_of};
ghost use Rattle.net_run.specs.NetRun.{Execution, ended_as};
ghost use Rattle.tables.specs.Named.{job_at};
ghost use Rattle.tables.specs.declared.table.Tables.{Tables};
ghost use Rattle.cluster_model.specs.PlanOf.{plan_of};
ghost use Rattle.cluster_model.specs.Effects.{ending_as};
ghost use Rattle.tick_parts.specs.Shows.{outputs_in};

use crate::hand::job_of;
use agenda::Schedule;
use cluster_model::Effect;
use effect_buf::EffectBuf;
use graph::{Graph, Net};
use processor::Turn;
use tick_parts::show_outputs;

/// Shows a job that ends, whose execution stands so after so many cycles: its cycles and the actuators that get its
/// outputs, or that it is broken.
pub fn show_end(
    outputs: &Schedule,
    net: &Net,
    graph: &Graph,
    job: u16,
    turn: Turn,
    cycles: u32,
    seen: &mut EffectBuf,
)
    requires outputs { outputs.now ≡ outputs_in net.now }
    requires job { job < length graph.now.jobs }
    requires task { (job_at graph.now job).task < length net.now.tasks }
    requires few { length net.now.actuators ≤ 1024 }
    requires room { length seen.old ≤ 3 }
    ensures { (t : Tables) (words : List ℕ) (exec : Execution) (cost : ℕ → List ℤ → List ℤ → ℕ) (ran : Ran) → turn ≡ turn_of ran → cycles ≡ cycles_in ran
        → seen.new ≡ seen.old ++ ending_as (plan_of net.now graph.now t words exec cost) job (cycles_in ran) (ended_as (end_under ran)) }
{
    match turn {
        Turn::Halted => {
            let of = job_of(graph, job);
            seen.push(Effect::End { job, cycles });
            show_outputs(outputs, net, of.task, of.instance, seen);
        }
        Turn::Broken | Turn::Short => seen.push(Effect::Break { job }),
    }
}
