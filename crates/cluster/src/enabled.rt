//! Which events may come.
ghost use Rattle.std.specs.Prelude.{◌≡◌, ◌<◌, ◌↔◌, IsTrue, Any};
ghost use Rattle.cluster_clocks.specs.Members.{clocks_of};
ghost use Rattle.cluster_model.specs.Cluster.{IsEnabled, settled};
ghost use Rattle.cluster_seats.specs.Seats.{plan_for};
ghost use Rattle.cluster.specs.Clocks.{RunsOn};
ghost use Rattle.cluster.specs.Stands.{StandsFor, state_of};

use crate::clocks::seat_number;
use crate::state::Cluster;
use cluster_clocks::{Clock, is_over, may_act};
use cluster_seats::Seat;
use mars_base::Side;
use plant::Plant;

/// Whether an event of a replica is enabled: it runs, it isn't at the cycle's end, and it is less than the precision
/// ahead of each replica that runs. Where the cycle is over that is asked of the next one's start.
pub fn is_enabled<S: Seat>(
    plant: &Plant<S::Program>,
    cluster: &Cluster<S>,
    unit: u8,
    side: Side,
) -> bool
    requires fit { S.is_fit plant.now }
    requires stands { StandsFor S.seat S.is_alive plant.now cluster.now }
    requires unit { unit < plant.now.net.shape.units }
    ensures { IsTrue result ↔ IsEnabled (plan_for S.exec S.cost plant.now) (settled (plan_for S.exec S.cost plant.now) (state_of S.seat cluster.now)).members unit side }
{
    let number = seat_number(unit, side);
    let cycle = plant.graph.cycle();
    if is_over(&cluster.clocks, cycle) {
        cluster.clocks[number].is_running
    } else {
        may_act(&cluster.clocks, number, cycle, plant.net.shape.precision)
    }
}

/// Whether an event of a replica is enabled in the cycle that the cluster is in; where that is over, none is.
pub fn may_step<S: Seat>(
    plant: &Plant<S::Program>,
    cluster: &Cluster<S>,
    unit: u8,
    side: Side,
) -> bool
    requires fit { S.is_fit plant.now }
    requires stands { StandsFor S.seat S.is_alive plant.now cluster.now }
    ensures { IsTrue result ↔ IsEnabled (plan_for S.exec S.cost plant.now) (state_of S.seat cluster.now).members unit side }
{
    if unit >= plant.net.shape.units {
        return false;
    }
    let number = seat_number(unit, side);
    may_act(
        &cluster.clocks,
        number,
        plant.graph.cycle(),
        plant.net.shape.precision,
    )
}

/// Whether some replica runs before the end of the cycle that the cluster is in; where none does, no event of it is
/// enabled any more.
pub fn runs_on<S: Seat>(plant: &Plant<S::Program>, cluster: &Cluster<S>) -> bool
    requires stands { StandsFor S.seat S.is_alive plant.now cluster.now }
    ensures { IsTrue result ↔ Any (RunsOn plant.now.graph.cycle) (clocks_of (state_of S.seat cluster.now).members) }
{
    some_run_on(&cluster.clocks, plant.graph.cycle())
}

// Whether some clock of a replica that runs is before the end of a cycle of so many ticks.
fn some_run_on(clocks: &[Clock], cycle: u32) -> bool
    ensures { IsTrue result ↔ Any (RunsOn cycle) clocks.now }
{
    clocks.iter().any(|clock| is_before_end(clock, cycle))
}

// Whether a replica runs before the end of a cycle of so many ticks.
fn is_before_end(clock: &Clock, cycle: u32) -> bool
    ensures { IsTrue result ↔ RunsOn cycle clock.now }
{
    clock.is_running && clock.tick < cycle
}
