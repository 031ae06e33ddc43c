//! The cluster of a plant.
ghost use Rattle.std.specs.Prelude.{◌≡◌, ◌*◌, IfOk, length};
ghost use Rattle.plant_run.specs.PlantRun.{plant_execution, plant_cost};
ghost use Rattle.cluster_model.specs.Cluster.{first_state};
ghost use Rattle.cluster_reached.specs.Laws.{IsReachedBy};
ghost use Rattle.cluster.specs.Stands.{StandsFor, state_of};
ghost use Rattle.replica_work.specs.Works.{set_plan};
ghost use Rattle.replica_seat.specs.Alive.{IsAlive, IsFit, seat_of};

use crate::seats::new_replicas;
use cluster::{Cluster, new_cluster};
use mars_base::Memory;
use plant::Plant;
use processor::Cpu;
use replica_seat::Replica;
use script::Script;
use std::alloc::Global;

/// The cluster of a plant before its first event, with two processors for each unit, for a script. It takes all memory of
/// the run; where there is none, the processors and the script are dropped.
pub fn cluster_of<C: Cpu + Drop>(
    alloc: Global,
    plant: &Plant<C::Program>,
    cpus: Vec<C>,
    script: Script,
) -> Result<Cluster<Replica<C>>, Memory>
    requires fit { IsFit C.ins_of C.outs_of C.states_of C.has_words plant.now }
    requires count { length cpus.items ≡ 2 * plant.now.net.shape.units }
    ensures stands { IfOk result (StandsFor seat_of (IsAlive C.runs) plant.now) }
    ensures state { IfOk result (λ c. state_of seat_of c ≡ first_state (set_plan C.execution plant.now)) }
    ensures reached { IfOk result (λ c. IsReachedBy plant.now.net plant.now.graph plant.now.tables plant.now.states
        (plant_execution C.execution plant.now) (plant_cost C.execution plant.now) c.script.silences.items (state_of seat_of c)) }
    ensures script { IfOk result (λ c. c.script ≡ script) }
{
    let replicas = new_replicas(alloc, plant, cpus)?;
    new_cluster(alloc, plant, replicas, script)
}
