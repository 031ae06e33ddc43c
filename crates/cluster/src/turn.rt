//! The begin of a cycle.
ghost use Rattle.std.specs.Prelude.{◌≡◌, ◌<◌, ◌+◌, ◌^◌};
ghost use Rattle.cluster_model.specs.Cluster.{turn};
ghost use Rattle.cluster_reached.specs.InPlace.{AreInPlace};
ghost use Rattle.cluster_seats.specs.Seats.{plan_for};
ghost use Rattle.cluster.specs.Stands.{StandsFor, state_of};

use crate::clocks::read_clocks;
use crate::state::Cluster;
use cluster_seats::{Seat, turn_all};
use cluster_starts::take_left;
use plant::Plant;

/// The next cycle begins: it starts from the states that this one left, with every clock at 0 and every slot open.
pub fn turn<S: Seat>(plant: &Plant<S::Program>, cluster: &mut Cluster<S>)
    requires fit { S.is_fit plant.now }
    requires stands { StandsFor S.seat S.is_alive plant.now cluster.old }
    requires in_place { AreInPlace (plan_for S.exec S.cost plant.now) (state_of S.seat cluster.old) }
    requires cycle { cluster.old.cycle + 1 < 2 ^ 32 }
    ensures stands { StandsFor S.seat S.is_alive plant.now cluster.new }
    ensures state { state_of S.seat cluster.new ≡ turn (plan_for S.exec S.cost plant.now) (state_of S.seat cluster.old) }
    ensures script { cluster.new.script ≡ cluster.old.script }
{
    take_left(plant, cluster.seats.as_slice(), &mut cluster.starts);
    turn_all(plant, &mut cluster.seats);
    cluster.bus.clear();
    cluster.line.clear();
    read_clocks(cluster.seats.as_slice(), &mut cluster.clocks);
    cluster.cycle += 1;
}
