//! What is seen of a job that ends.
ghost use Rattle.std.specs.Prelude.{◌≡◌, ◌≤◌, ◌<◌, ◌+◌, ◌++◌, ◌∷◌, [], ℕ, List, ℤ, length, map};
ghost use Rattle.graph.specs.declared.net.Net.{Net};
ghost use Rattle.net_run.specs.NetRun.{JobResult};
ghost use Rattle.cluster_model.specs.PlanOf.{fed_by};
ghost use Rattle.tick_parts.specs.Shows.{outputs_in, shown_outs};

use agenda::Schedule;
use cluster_model::Effect;
use effect_buf::EffectBuf;
use graph::Net;

/// Shows the actuators that get a task's outputs, in their order.
pub fn show_outputs(outputs: &Schedule, net: &Net, task: u8, instance: u32, seen: &mut EffectBuf)
    requires outputs { outputs.now ≡ outputs_in net.now }
    requires task { task < length net.now.tasks }
    requires few { length net.now.actuators ≤ 1024 }
    requires room { length seen.old + length net.now.actuators ≤ 1028 }
    ensures { seen.new ≡ seen.old ++ shown_outs instance (fed_by task net.now.actuators 0) }
{
    let mut at = outputs.first(usize::from(task));
    'walk: while let Some(thing) = at {
        let actuator = thing as u16;
        seen.push(Effect::Out { actuator, instance });
        at = outputs.next(thing);
    }
}
