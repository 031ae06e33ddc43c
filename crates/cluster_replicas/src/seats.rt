//! The replicas of a cluster before its first event.
ghost use Rattle.std.specs.Prelude.{◌≡◌, ◌*◌, ◌<◌, IfOk, length, map};
ghost use Rattle.std.specs.List.{All};
ghost use Rattle.cluster.specs.First.{first_seated, first_seats, side_of};
ghost use Rattle.replica_work.specs.Works.{set_plan};
ghost use Rattle.replica_seat.specs.Alive.{IsAlive, IsFit, seat_of};

use mars_base::{Memory, Side};
use plant::Plant;
use processor::Cpu;
use replica_seat::Replica;
use std::alloc::Global;

/// The replicas of a plant's units before their first tick, of each unit A and then B, with these processors in their
/// order. No later call of a replica takes memory; where there is none, the processors are dropped.
pub fn new_replicas<C: Cpu + Drop>(
    alloc: Global,
    plant: &Plant<C::Program>,
    cpus: Vec<C>,
) -> Result<Vec<Replica<C>>, Memory>
    requires fit { IsFit C.ins_of C.outs_of C.states_of C.has_words plant.now }
    requires count { length cpus.items ≡ 2 * plant.now.net.shape.units }
    ensures alive { IfOk result (λ replicas. All (IsAlive C.runs plant.now) replicas.items) }
    ensures seats { IfOk result (λ replicas. map seat_of replicas.items ≡ first_seats (set_plan C.execution plant.now) plant.now.net.shape.units) }
{
    let mut replicas = Vec::new(alloc);
    for cpu in cpus {
        let number = replicas.len();
        let replica = new_replica(alloc, plant, number, cpu)?;
        replicas.push(replica)?;
    }
    Ok(replicas)
}

// The replica in the seat of a number.
fn new_replica<C: Cpu + Drop>(
    alloc: Global,
    plant: &Plant<C::Program>,
    number: usize,
    cpu: C,
) -> Result<Replica<C>, Memory>
    requires fit { IsFit C.ins_of C.outs_of C.states_of C.has_words plant.now }
    requires number { number < 2 * plant.now.net.shape.units }
    ensures alive { IfOk result (IsAlive C.runs plant.now) }
    ensures seat { IfOk result (λ replica. seat_of replica ≡ first_seated (set_plan C.execution plant.now) number) }
{
    Replica::new(alloc, plant, (number / 2) as u8, side_of(number), cpu)
}

// The side of a seat.
fn side_of(number: usize) -> Side
    ensures { result ≡ side_of number }
{
    if number % 2 == 0 { Side::A } else { Side::B }
}
